//! Font sizes of the nodes of a tree.

ghost use Rattle.std.specs.Prelude.{◌≡◌, IsSome};
ghost use Rattle.node_arena.specs.Numbers.{part_at};
ghost use Rattle.tree_rules.specs.Documents.{first_font};
ghost use Rattle.page_tree.specs.Fonts.{root_font, root_font_of, HasFont};

use lunit::Lu;
use node_arena::{Arena, NodeId};
use placing::Node;
use style_types::Declared;

#[tactic(auto, unfolding(lunit::specs::Units::clamp))]
/// The font size of a root that declares none: 16px (own rule).
pub(crate) fn first_font() -> Lu
    ensures { result ≡ first_font }
{
    Lu::of(1024)
}

/// The font size of a root with these values: both em and rem of it are of the first font.
pub(crate) fn font_of_root(declared: &Declared) -> Lu
    ensures { result ≡ root_font declared.now }
{
    let first = first_font();
    declared.font(first, first)
}

#[tactic(auto, using(crate::proofs::Roots::root_fonts))]
/// The font size of the root of a tree.
pub(crate) fn root_font(tree: &Arena<Node>) -> Lu
    ensures { result ≡ root_font_of tree.now.tree }
{
    match tree.get(tree.root()) {
        Some(node) => font_of_root(&node.declared),
        None => first_font(),
    }
}

/// The font size of a node, where that of the root is known: what its values and those above it
/// declare (CSS Fonts 4, 2.5).
pub(crate) fn font_at(tree: &Arena<Node>, root: Lu, id: NodeId) -> Lu
    requires root { root ≡ root_font_of tree.now.tree }
    requires live { IsSome (part_at tree.now.tree id) }
    ensures { HasFont result id tree.now.tree }
{
    let _ = tree.root();
    match tree.parent(id) {
        Some(parent) => match tree.get(id) {
            Some(node) => node.declared.font(font_at(tree, root, parent), root),
            None => root,
        },
        None => root,
    }
}
