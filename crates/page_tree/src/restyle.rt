//! Computed styles below a font size that changes.

ghost use Rattle.std.specs.Prelude.{◌≡◌, ◌∷◌, ◌++◌, [], IfNone, IfOk, IfSome, IsSome, IsTrue, OnOk};
ghost use Rattle.plain_tree.specs.Trees.{leafless};
ghost use Rattle.layout_cache.specs.Reach.{from_tree};
ghost use Rattle.node_arena.specs.Numbers.{below_at, part_at};
ghost use Rattle.page_tree.specs.Fonts.{root_font_of, HasFont};
ghost use Rattle.page_tree.specs.Restyled.{styles_of, with_styles, GetsFonts, IsNextStyled, Restyles, RestylesUnder};
ghost use Rattle.page_tree.specs.Pages.{IsPage};

use crate::font::{font_at, font_of_root, root_font};
use lunit::{Lu, NoMemory, Sequence};
use node_arena::{Arena, NodeId};
use placing::Node;
use std::alloc::Global;
use std::mem;
use style_types::{Declared, Style};

/// The font size that a node has with these values, and that of the root then.
pub(crate) fn fonts_with(tree: &Arena<Node>, id: NodeId, declared: &Declared) -> (Lu, Lu)
    requires { IsSome (part_at tree.now.tree id) }
    ensures { GetsFonts result.0 result.1 declared.now id tree.now.tree }
{
    let root = root_font(tree);
    let _ = tree.root();
    match tree.parent(id) {
        Some(parent) => (declared.font(font_at(tree, root, parent), root), root),
        None => {
            let font = font_of_root(declared);
            (font, font)
        }
    }
}

/// A child with its font size and its computed style.
#[derive(Drop)]
struct Child {
    id: NodeId,
    font: Lu,
    style: Style,
}

/// The child of an index of a node of this font size.
fn child_at(
    alloc: Global,
    tree: &Arena<Node>,
    id: NodeId,
    index: usize,
    em: Lu,
    rem: Lu,
) -> Result<Option<Child>, NoMemory>
    ensures none { IfOk result
        (λ child. IfNone child (from_tree index (below_at tree.now.tree id) ≡ leafless)) }
    ensures some { IfOk result
        (λ child. IfSome child
        (λ c. IsNextStyled em rem tree.now.tree id index c.id c.font c.style)) }
{
    match tree.child(id, index) {
        Some(child) => match tree.get(child) {
            Some(node) => {
                let font = node.declared.font(em, rem);
                let style = node.declared.computed(alloc, font, rem)?;
                Ok(Some(Child {
                    id: child,
                    font,
                    style,
                }))
            }
            None => Ok(None),
        },
        None => Ok(None),
    }
}

#[tactic(auto, using(crate::proofs::Restyled::falls))]
/// Adds the computed styles of all nodes below one of this font size, in document order.
fn collect(
    alloc: Global,
    tree: &Arena<Node>,
    id: NodeId,
    em: Lu,
    rem: Lu,
    found: &mut Sequence<(NodeId, Style)>,
) -> Result<(), NoMemory>
    ensures { OnOk result (found.new ≡ found.old ++ styles_of em rem (below_at tree.now.tree id)) }
{
    for index in 0..tree.count(id) {
        let Some(child) = child_at(alloc, tree, id, index, em, rem)? else {
            continue;
        };
        let Child { id, font, style } = child;
        found.push((id, style))?;
        collect(alloc, tree, id, font, rem, found)?;
    }
    Ok(())
}

/// Whether a node has this font size, and the root that.
fn has_fonts(tree: &Arena<Node>, id: NodeId, em: Lu, rem: Lu) -> bool
    requires { IsSome (part_at tree.now.tree id) }
    ensures own { IsTrue result → HasFont em id tree.now.tree }
    ensures root { IsTrue result → root_font_of tree.now.tree ≡ rem }
{
    let root = root_font(tree);
    font_at(tree, root, id) == em && root == rem
}

/// The styles that all nodes below one get where it has these font sizes; none where it has them
/// already.
pub(crate) fn styles_below(
    alloc: Global,
    tree: &Arena<Node>,
    id: NodeId,
    em: Lu,
    rem: Lu,
) -> Result<Sequence<(NodeId, Style)>, NoMemory>
    requires page { IsPage tree.now.tree }
    requires live { IsSome (part_at tree.now.tree id) }
    ensures { IfOk result (λ styles. Restyles em rem styles (below_at tree.now.tree id)) }
{
    let _ = tree.root();
    let mut found = Sequence::new(alloc);
    if has_fonts(tree, id, em, rem) {
        return Ok(found);
    }
    collect(alloc, tree, id, em, rem, &mut found)?;
    Ok(found)
}

/// The styles that a node and all below it get under another parent; none where its font size
/// stays.
pub(crate) fn styles_under(
    alloc: Global,
    tree: &Arena<Node>,
    id: NodeId,
    parent: NodeId,
) -> Result<Sequence<(NodeId, Style)>, NoMemory>
    requires page { IsPage tree.now.tree }
    requires live { IsSome (part_at tree.now.tree id) }
    requires parent { IsSome (part_at tree.now.tree parent) }
    ensures { IfOk result (λ styles. RestylesUnder parent styles id tree.now.tree) }
{
    let _ = tree.root();
    let root = root_font(tree);
    let em = font_at(tree, root, parent);
    let mut found = Sequence::new(alloc);
    let node = match tree.get(id) {
        Some(node) => node,
        None => return Err(NoMemory),
    };
    let font = node.declared.font(em, root);
    if has_fonts(tree, id, font, root) {
        return Ok(found);
    }
    found.push((id, node.declared.computed(alloc, font, root)?))?;
    collect(alloc, tree, id, font, root, &mut found)?;
    Ok(found)
}

#[tactic(auto, using(crate::proofs::Restyled::writing))]
/// Gives a node another computed style. It passes over a number that names no node.
fn write(tree: &mut Arena<Node>, id: NodeId, style: Style)
    ensures { tree.new ≡ with_styles ((id, style) ∷ []) tree.old }
{
    match tree.get_mut(id) {
        Some(node) => drop(mem::replace(&mut node.style, style)),
        None => {}
    }
}

#[tactic(auto, using(crate::proofs::Restyled::writing))]
/// Gives each of these nodes its style. It takes no memory.
pub(crate) fn write_all(tree: &mut Arena<Node>, styles: Sequence<(NodeId, Style)>)
    ensures { tree.new ≡ with_styles styles tree.old }
{
    let mut left = styles;
    while let Some((id, style)) = left.pop() {
        write(tree, id, style);
    }
}
