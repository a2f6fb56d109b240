//! The nodes that a change marks, by their numbers: the node that it names, its parent where
//! subgrids feel the change, and the nodes below it whose font size is declared anew or is another.

ghost use Rattle.std.specs.Prelude.{◌≡◌, ◌++◌, ◌∷◌, [], Option, Some, true, false, ◌&&◌, ◌||◌, map, not, if◌then◌else◌, IfNone, IfOk, IfSome, OnOk};
ghost use Rattle.std.specs.List.{list_any};
ghost use Rattle.std.specs.Ordering.{int_eq};
ghost use Rattle.std.specs.Str.{bytes_eq};
ghost use Rattle.plain_tree.specs.Trees.{leafless};
ghost use Rattle.layout_cache.specs.Reach.{from_tree};
ghost use Rattle.node_arena.specs.Numbers.{below_at, value_at};
ghost use Rattle.placing.specs.declared.node.Node.{Node};
ghost use Rattle.style_types.specs.Computed.{font_of};
ghost use Rattle.style_types.specs.declared.declared.DeclaredValue.{DeclaredValue};
ghost use Rattle.style_types.specs.declared.prop.Prop.{Prop};
ghost use Rattle.doc_text.specs.Growth.{holds};
ghost use Rattle.doc_text.specs.Named as named;
ghost use Rattle.doc_text.specs.Named.{tree_at};
ghost use Rattle.doc_text.specs.Documents.{is_leaf};
ghost use Rattle.page_tree.specs.Fits.{Fits};
ghost use Rattle.page_tree.specs.Marking.{numbers_below, AddsMarked, IsMarking, IsNextBelow, MarksChange, MarksKind, MarksShift};
ghost use Rattle.page_tree.specs.Pages.{document_of, trees_in};
ghost use Rattle.page_tree.specs.Reach.{are_felt, are_placing, font_in, gets_other_font, is_container, is_content_class, is_felt, is_felt_property, is_font_class, is_font_property, is_marked_by, is_parent, is_placing, is_placing_property, root_font_in};

use crate::font::{first_font, font_at, root_font};
use crate::lookup::is_leaf_at;
use crate::page::Page;
use doc_text::Kind;
use edit_journal::Change;
use lunit::{Lu, Name, NoMemory, Sequence};
use node_arena::{Arena, NodeId};
use placing::Node;
use style_types::{Class, DeclaredValue, Prop, class_of};

/// The numbers of the nodes that a change marks, and whether subgrids feel it.
#[derive(Drop)]
pub(crate) struct Touched {
    pub(crate) numbers: Sequence<NodeId>,
    pub(crate) felt: bool,
}

fn is_content_class(class: Class) -> bool
    ensures { result ≡ is_content_class class }
{
    match class {
        Class::Content => true,
        Class::Grid | Class::Font => false,
    }
}

fn is_font_class(class: Class) -> bool
    ensures { result ≡ is_font_class class }
{
    match class {
        Class::Font => true,
        Class::Grid | Class::Content => false,
    }
}

fn is_felt_property(property: Prop) -> bool
    ensures { result ≡ is_felt_property property }
{
    !is_content_class(class_of(property))
}

fn is_font_property(property: Prop) -> bool
    ensures { result ≡ is_font_property property }
{
    is_font_class(class_of(property))
}

/// Whether one of these properties is felt by subgrids.
fn any_is_felt(values: &[(Prop, Option<DeclaredValue>)]) -> bool
    ensures { result ≡
        list_any (λ (v : Prop × Option DeclaredValue). is_felt_property v.0) values.now }
{
    values.iter().any(|value| is_felt_property(value.0))
}

/// Whether `font-size` is one of these properties.
fn any_is_font(values: &[(Prop, Option<DeclaredValue>)]) -> bool
    ensures { result ≡
        list_any (λ (v : Prop × Option DeclaredValue). is_font_property v.0) values.now }
{
    values.iter().any(|value| is_font_property(value.0))
}

/// Whether areas depend on a property, or whether a node is a subgrid, or other values do.
fn is_placing_property(property: Prop) -> bool
    ensures { result ≡ is_placing_property property }
{
    match property {
        Prop::GridTemplateColumns
        | Prop::GridTemplateRows
        | Prop::GridColumnStart
        | Prop::GridColumnEnd
        | Prop::GridRowStart
        | Prop::GridRowEnd
        | Prop::Order
        | Prop::FontSize => true,
        _ => false,
    }
}

/// Whether areas depend on one of these properties, or whether a node is a subgrid.
fn any_is_placing(values: &[(Prop, Option<DeclaredValue>)]) -> bool
    ensures { result ≡
        list_any (λ (v : Prop × Option DeclaredValue). is_placing_property v.0) values.now }
{
    values.iter().any(|value| is_placing_property(value.0))
}

/// Whether a change of these properties may change areas.
fn values_place(values: &Sequence<(Prop, Option<DeclaredValue>)>) -> bool
    ensures { result ≡ are_placing (map (λ (v : Prop × Option DeclaredValue). v.0) values.now) }
{
    any_is_placing(values.as_slice())
}

/// Whether the areas of the grid in which a node stands may change, or whether one is a subgrid.
pub(crate) fn is_placing(change: &Change) -> bool
    ensures { result ≡ is_placing change.now }
{
    match change {
        Change::Style(_, values) => values_place(values),
        Change::Take(_)
        | Change::Bring(_, _, _)
        | Change::Shift(_, _, _)
        | Change::Kind(_, _)
        | Change::View(_, _) => true,
    }
}

/// Adds the number of the node of a name, if there is one.
fn add_named(page: &Page, name: &Name, found: &mut Sequence<NodeId>) -> Result<(), NoMemory>
    ensures { OnOk result
        (AddsMarked (λ w. bytes_eq w name.now) page.now.nodes.tree found.old found.new) }
{
    match page.find(name) {
        Some(id) => {
            found.push(id)?;
            Ok(())
        }
        None => Ok(()),
    }
}

/// Adds the number of the parent of the node of a name, if there is one.
fn add_parent(page: &Page, name: &Name, found: &mut Sequence<NodeId>) -> Result<(), NoMemory>
    ensures { OnOk result
        (AddsMarked (λ w. is_parent (trees_in page.now) name.now w) page.now.nodes.tree found.old
        found.new) }
{
    let _ = page.stands();
    let tree = page.tree();
    match page.find(name) {
        Some(id) => match tree.parent(id) {
            Some(parent) => {
                found.push(parent)?;
                Ok(())
            }
            None => Ok(()),
        },
        None => Ok(()),
    }
}

/// Adds it where subgrids feel the change.
fn add_felt_parent(
    page: &Page,
    felt: bool,
    name: &Name,
    found: &mut Sequence<NodeId>,
) -> Result<(), NoMemory>
    ensures { OnOk result
        (AddsMarked (λ w. felt && is_parent (trees_in page.now) name.now w) page.now.nodes.tree
        found.old found.new) }
{
    if felt {
        add_parent(page, name, found)
    } else {
        Ok(())
    }
}

/// A child with its font sizes below nodes of two font sizes.
#[derive(Drop)]
struct Below {
    id: NodeId,
    before: Lu,
    after: Lu,
}

/// The child of an index of a node that has the one font size or the other.
fn child_at(
    tree: &Arena<Node>,
    id: NodeId,
    index: usize,
    before: Lu,
    after: Lu,
    rem: Lu,
) -> Option<Below>
    ensures none { IfNone result (from_tree index (below_at tree.now.tree id) ≡ leafless) }
    ensures some { IfSome result
        (λ child. IsNextBelow before after rem tree.now.tree id index child.id child.before
        child.after) }
{
    match tree.child(id, index) {
        Some(child) => match tree.get(child) {
            Some(node) => {
                let first = node.declared.font(before, rem);
                let second = node.declared.font(after, rem);
                Some(Below {
                    id: child,
                    before: first,
                    after: second,
                })
            }
            None => None,
        },
        None => None,
    }
}

/// Adds a number where all are added, or where two font sizes differ.
fn add_if(
    all: bool,
    before: Lu,
    after: Lu,
    id: NodeId,
    found: &mut Sequence<NodeId>,
) -> Result<(), NoMemory>
    ensures { OnOk result
        (found.new ≡ found.old ++ (if all || not (int_eq before after) then id ∷ [] else [])) }
{
    if all || before.units() != after.units() {
        found.push(id)?;
        return Ok(());
    }
    Ok(())
}

#[tactic(auto, using(crate::proofs::Marking::falls))]
/// Adds the numbers of all nodes below a node, or of those alone whose font size is another where
/// that of the node is the second in place of the first.
fn add_below(
    tree: &Arena<Node>,
    id: NodeId,
    all: bool,
    before: Lu,
    after: Lu,
    rem: Lu,
    found: &mut Sequence<NodeId>,
) -> Result<(), NoMemory>
    ensures { OnOk result
        (found.new ≡ found.old ++ numbers_below all before after rem (below_at tree.now.tree id)) }
{
    for index in 0..tree.count(id) {
        let Some(child) = child_at(tree, id, index, before, after, rem) else {
            continue;
        };
        add_if(all, child.before, child.after, child.id, found)?;
        add_below(tree, child.id, all, child.before, child.after, rem, found)?;
    }
    Ok(())
}

/// Adds the numbers of all nodes below the node of a name.
fn add_below_named(page: &Page, name: &Name, found: &mut Sequence<NodeId>) -> Result<(), NoMemory>
    ensures { OnOk result
        (AddsMarked (λ w. holds (named.below_at name.now (trees_in page.now)) w) page.now.nodes.tree
        found.old found.new) }
{
    let _ = page.stands();
    let tree = page.tree();
    match page.find(name) {
        Some(id) => {
            let rem = root_font(tree);
            add_below(tree, id, true, rem, rem, rem, found)?;
            Ok(())
        }
        None => Ok(()),
    }
}

/// Adds them where `font-size` is declared anew.
fn add_all_below(
    page: &Page,
    font: bool,
    name: &Name,
    found: &mut Sequence<NodeId>,
) -> Result<(), NoMemory>
    ensures { OnOk result
        (AddsMarked (λ w. font && holds (named.below_at name.now (trees_in page.now)) w)
        page.now.nodes.tree found.old found.new) }
{
    if font {
        add_below_named(page, name, found)
    } else {
        Ok(())
    }
}

/// The font size of the node of a name; the first one where no node has the name.
fn font_of_name(page: &Page, name: &Name) -> Lu
    ensures { result ≡ font_in name.now (trees_in page.now) }
{
    let _ = page.stands();
    let tree = page.tree();
    let rem = root_font(tree);
    match page.find(name) {
        Some(id) => font_at(tree, rem, id),
        None => first_font(),
    }
}

/// The font size that the values of a node give below one of this font size.
fn declared_font(tree: &Arena<Node>, id: NodeId, above: Lu, rem: Lu) -> Lu
    ensures { (v : Node) → value_at tree.now.tree id ≡ Some v →
        result ≡ font_of above rem v.declared }
{
    match tree.get(id) {
        Some(node) => node.declared.font(above, rem),
        None => above,
    }
}

/// Adds the numbers of the nodes below the node of a name whose font size is another where it
/// stands below that of the other.
fn add_other_fonts(
    page: &Page,
    name: &Name,
    parent: &Name,
    found: &mut Sequence<NodeId>,
) -> Result<(), NoMemory>
    ensures { OnOk result
        (AddsMarked
        (λ w. gets_other_font (font_in name.now (trees_in page.now))
        (font_in parent.now (trees_in page.now)) (root_font_in (trees_in page.now))
        (tree_at name.now (trees_in page.now)) w) page.now.nodes.tree found.old found.new) }
{
    let _ = page.stands();
    let tree = page.tree();
    match page.find(name) {
        Some(id) => {
            let rem = root_font(tree);
            let before = font_of_name(page, name);
            let above = font_of_name(page, parent);
            let after = declared_font(tree, id, above, rem);
            add_below(tree, id, false, before, after, rem, found)?;
            Ok(())
        }
        None => Ok(()),
    }
}

/// What properties of a node mark, where subgrids feel the change or do not, and `font-size` is one
/// of them or is not.
fn by_props(page: &Page, felt: bool, font: bool, name: &Name) -> Result<Touched, NoMemory>
    ensures felt { IfOk result (λ touched. touched.felt ≡ felt) }
    ensures numbers { IfOk result
        (λ touched. IsMarking
        (λ w. bytes_eq w name.now ||
        ((felt && is_parent (trees_in page.now) name.now w) ||
        (font && holds (named.below_at name.now (trees_in page.now)) w)))
        page.now.nodes.tree touched.numbers) }
{
    let mut numbers = Sequence::new(page.alloc());
    add_named(page, name, &mut numbers)?;
    add_felt_parent(page, felt, name, &mut numbers)?;
    add_all_below(page, font, name, &mut numbers)?;
    Ok(Touched { numbers, felt })
}

/// What properties of a node that are set, or no longer set, mark.
fn by_values(
    page: &Page,
    name: &Name,
    values: &Sequence<(Prop, Option<DeclaredValue>)>,
) -> Result<Touched, NoMemory>
    ensures felt { IfOk result
        (λ touched. touched.felt ≡
        are_felt (map (λ (v : Prop × Option DeclaredValue). v.0) values.now)) }
    ensures numbers { IfOk result
        (λ touched. IsMarking
        (is_marked_by (map (λ (v : Prop × Option DeclaredValue). v.0) values.now) name.now
        (trees_in page.now)) page.now.nodes.tree touched.numbers) }
{
    let slice = values.as_slice();
    let felt = any_is_felt(slice);
    let font = any_is_font(slice);
    by_props(page, felt, font, name)
}

/// What nodes that are new under a parent mark: of those that are there, the parent alone.
fn by_bringing(page: &Page, parent: &Name) -> Result<Touched, NoMemory>
    ensures felt { IfOk result (λ touched. touched.felt ≡ true) }
    ensures numbers { IfOk result
        (λ touched. IsMarking (λ w. bytes_eq w parent.now) page.now.nodes.tree touched.numbers) }
{
    let mut numbers = Sequence::new(page.alloc());
    add_named(page, parent, &mut numbers)?;
    Ok(Touched {
        numbers,
        felt: true,
    })
}

/// What a node that goes, or gets another kind, marks.
fn by_node(page: &Page, felt: bool, name: &Name) -> Result<Touched, NoMemory>
    ensures felt { IfOk result (λ touched. touched.felt ≡ felt) }
    ensures numbers { IfOk result
        (λ touched. IsMarking
        (λ w. bytes_eq w name.now || (felt && is_parent (trees_in page.now) name.now w))
        page.now.nodes.tree touched.numbers) }
{
    let mut numbers = Sequence::new(page.alloc());
    add_named(page, name, &mut numbers)?;
    add_felt_parent(page, felt, name, &mut numbers)?;
    Ok(Touched { numbers, felt })
}

/// What a node marks that is shifted under a parent.
fn by_shift(page: &Page, name: &Name, parent: &Name) -> Result<Touched, NoMemory>
    ensures felt { IfOk result (λ touched. touched.felt ≡ true) }
    ensures numbers { IfOk result
        (λ touched. MarksShift name.now parent.now (trees_in page.now) page.now.nodes.tree
        touched.numbers) }
{
    let mut numbers = Sequence::new(page.alloc());
    add_named(page, name, &mut numbers)?;
    add_named(page, parent, &mut numbers)?;
    add_parent(page, name, &mut numbers)?;
    add_other_fonts(page, name, parent, &mut numbers)?;
    Ok(Touched {
        numbers,
        felt: true,
    })
}

fn is_leaf_kind(kind: &Kind) -> bool
    ensures { result ≡ is_leaf kind.now }
{
    match kind {
        Kind::Leaf(_) => true,
        Kind::Grid | Kind::Flex => false,
    }
}

/// Whether a node was a container, or becomes one.
fn is_container(page: &Page, kind: &Kind, name: &Name) -> bool
    ensures { result ≡ is_container kind.now name.now (trees_in page.now) }
{
    !(is_leaf_kind(kind) && is_leaf_at(page, name))
}

/// What another kind of a node marks.
fn by_kind(page: &Page, name: &Name, kind: &Kind) -> Result<Touched, NoMemory>
    ensures felt { IfOk result
        (λ touched. touched.felt ≡ is_container kind.now name.now (trees_in page.now)) }
    ensures numbers { IfOk result
        (λ touched. MarksKind kind.now name.now (trees_in page.now) page.now.nodes.tree
        touched.numbers) }
{
    let felt = is_container(page, kind, name);
    by_node(page, felt, name)
}

/// What a change marks in the document that it is a change of.
pub(crate) fn marks_of(page: &Page, change: &Change) -> Result<Touched, NoMemory>
    requires { Fits change.now (document_of page.now) }
    ensures felt { IfOk result (λ touched. touched.felt ≡ is_felt change.now (trees_in page.now)) }
    ensures numbers { IfOk result
        (λ touched. MarksChange change.now (trees_in page.now) page.now.nodes.tree touched.numbers) }
{
    let _ = page.stands();
    match change {
        Change::Style(name, values) => by_values(page, name, values),
        Change::Take(name) => by_node(page, true, name),
        Change::Bring(parent, _, _node) => by_bringing(page, parent),
        Change::Shift(name, parent, _) => by_shift(page, name, parent),
        Change::Kind(name, kind) => by_kind(page, name, kind),
        Change::View(_, _) => unmarked(page),
    }
}

/// No node.
fn unmarked(page: &Page) -> Result<Touched, NoMemory>
    ensures felt { IfOk result (λ touched. touched.felt ≡ false) }
    ensures numbers { IfOk result
        (λ touched. IsMarking (λ w. false) page.now.nodes.tree touched.numbers) }
{
    let numbers = Sequence::new(page.alloc());
    Ok(Touched {
        numbers,
        felt: false,
    })
}
