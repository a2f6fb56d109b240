ghost use Rattle.std.specs.Prelude.{◌≡◌, ◌≤◌, ◌++◌, ◌||◌, ◌&&◌, reverse, IfOk, IfSome, IfNone, IsTrue, OnOk, OnErr};
ghost use Rattle.plain_tree.specs.Trees.{leafless};
ghost use Rattle.node_arena.specs.Numbers.{is_among, way_of, way_up, below_at, count_at, value_at};
ghost use Rattle.node_arena.specs.Plain.{is_live};
ghost use Rattle.node_arena.specs.declared.number.NodeId.{NodeId};
ghost use Rattle.layout_cache.specs.Reach.{is_above, reached, reached_by, from_tree, IsLone, JoinedChild, subgrid_by, all_forgot, occurs};

use crate::linked::Linked;
use crate::numbers::NumberSet;
use lunit::NoMemory;
use node_arena::{Arena, NodeId};
use std::alloc::Global;

/// The nodes whose kept answers an edit can change, each once, in document order: the touched ones and all above them, and
/// with `grid` each node below a touched one such that it and all nodes between are subgrids (own rule).
///
/// It answers `NoMemory` where memory is wanting.
pub fn reach<T: Linked + Drop>(
    alloc: Global,
    tree: &Arena<T>,
    touched: &[NodeId],
    grid: bool,
) -> Result<Vec<NodeId>, NoMemory>
    ensures list { IfOk result
        (λ list. list.items ≡ reached_by T.Linked.subgrid tree.now.tree touched.now grid) }
    ensures once { IfOk result (λ list. (n : NodeId) → occurs n list.items ≤ 1) }
{
    let root = tree.root();
    if let Some(id) = lone(touched, grid) {
        let list = way_down(alloc, tree, id)?;
        return Ok(list);
    }
    let marks = Marks::new(alloc, tree, touched, grid)?;
    let mut found = Vec::new(alloc);
    if !marks.above.has(root) {
        return Ok(found);
    }
    found.push(root)?;
    visit(tree, root, marks.feels(root, false), &marks, &mut found)?;
    Ok(found)
}

#[tactic(auto, using(crate::proofs::OneWay::lone_laws))]
/// The touched node, where it is the only one and subgrids do not feel the edit.
fn lone(touched: &[NodeId], grid: bool) -> Option<NodeId>
    ensures { IfSome result (IsLone touched.now grid) }
{
    if grid || touched.len() != 1 {
        return None;
    }
    Some(touched[0])
}

#[tactic(auto, using(crate::proofs::OneWay::way_down_laws))]
/// Adds a node, if there is one, after all above it, the root first: no other child of these is looked at.
fn add_way_down<T: Drop>(
    tree: &Arena<T>,
    next: Option<NodeId>,
    found: &mut Vec<NodeId>,
) -> Result<(), NoMemory>
    requires { IfSome next (λ id. IsTrue (is_live tree.now id)) }
    ensures { OnOk result
        (found.new.items ≡ found.old.items ++ reverse (way_of tree.now.tree next)) }
{
    let Some(id) = next else {
        return Ok(());
    };
    add_way_down(tree, tree.parent(id), found)?;
    found.push(id)?;
    Ok(())
}

/// A node and all above it, the root first; none where the number names no node.
fn way_down<T: Drop>(alloc: Global, tree: &Arena<T>, id: NodeId) -> Result<Vec<NodeId>, NoMemory>
    ensures { IfOk result (λ list. list.items ≡ reverse (way_up tree.now.tree id)) }
{
    let mut found = Vec::new(alloc);
    if !tree.is_live(id) {
        return Ok(found);
    }
    add_way_down(tree, Some(id), &mut found)?;
    Ok(found)
}

/// What a search goes by.
#[derive(Drop)]
struct Marks {
    touched: NumberSet,
    above: NumberSet,
    grid: bool,
}

impl Marks {
    fn new<T: Drop>(
        alloc: Global,
        tree: &Arena<T>,
        touched: &[NodeId],
        grid: bool,
    ) -> Result<Marks, NoMemory>
        ensures touched { IfOk result
            (λ marks. (n : NodeId) → is_among n marks.touched ≡ is_among n touched.now) }
        ensures above { IfOk result
            (λ marks. (n : NodeId) → is_among n marks.above ≡ is_above tree.now.tree touched.now n) }
        ensures grid { IfOk result (λ marks. marks.grid ≡ grid) }
    {
        let mut set = NumberSet::new(alloc);
        let mut above = NumberSet::new(alloc);
        for id in touched {
            set.add(*id)?;
            add_way(tree, *id, &mut above)?;
        }
        Ok(Marks {
            touched: set,
            above,
            grid,
        })
    }

    /// Whether a node is reached, where it is joined to a touched node above it or is not.
    fn reaches(&self, id: NodeId, joined: bool) -> bool
        ensures { result ≡ (is_among id self.now.above || joined) }
    {
        self.above.has(id) || joined
    }

    /// Whether subgrids below a node feel the edit.
    fn feels(&self, id: NodeId, joined: bool) -> bool
        ensures { result ≡ ((self.now.grid && is_among id self.now.touched) || joined) }
    {
        both(self.grid, self.touched.has(id)) || joined
    }
}

fn both(a: bool, b: bool) -> bool
    ensures { result ≡ (a && b) }
{
    a && b
}

/// Adds a node and all above it.
fn add_way<T: Drop>(tree: &Arena<T>, id: NodeId, above: &mut NumberSet) -> Result<(), NoMemory>
    ensures { OnOk result
        ((n : NodeId) →
        is_among n above.new ≡ (is_among n (way_up tree.now.tree id) || is_among n above.old)) }
{
    if !tree.is_live(id) {
        return Ok(());
    }
    let mut next = Some(id);
    while let Some(number) = next {
        above.add(number)?;
        next = tree.parent(number);
    }
    Ok(())
}

/// A child, and whether it feels the edit as a subgrid below a node that does.
fn child_at<T: Linked + Drop>(
    tree: &Arena<T>,
    id: NodeId,
    index: usize,
    felt: bool,
) -> Option<(NodeId, bool)>
    ensures none { IfNone result (from_tree index (below_at tree.now.tree id) ≡ leafless) }
    ensures some { IfSome result
        (λ child. JoinedChild T.Linked.subgrid tree.now.tree id index felt child.0 child.1) }
{
    match tree.child(id, index) {
        Some(child) => Some((child, feels_too(tree, child, felt))),
        None => None,
    }
}

/// Whether a node is a subgrid, where its parent feels the edit. The node is read only there: an edit seldom reaches far, and
/// looks at all children of what it reaches.
fn feels_too<T: Linked + Drop>(tree: &Arena<T>, id: NodeId, felt: bool) -> bool
    ensures { result ≡ (felt && subgrid_by T.Linked.subgrid (value_at tree.now.tree id)) }
{
    if !felt {
        return false;
    }
    match tree.get(id) {
        Some(node) => node.is_subgrid(),
        None => false,
    }
}

#[tactic(auto, using(crate::proofs::Reaches::falls))]
/// Adds what is reached below a node.
fn visit<T: Linked + Drop>(
    tree: &Arena<T>,
    id: NodeId,
    felt: bool,
    marks: &Marks,
    found: &mut Vec<NodeId>,
) -> Result<(), NoMemory>
    ensures { OnOk result
        (found.new.items ≡
        found.old.items ++
        reached T.Linked.subgrid (λ n. is_among n marks.now.touched)
        (λ n. is_among n marks.now.above) marks.now.grid felt
        (below_at tree.now.tree id)) }
{
    for index in 0..tree.count(id) {
        let Some((child, joined)) = child_at(tree, id, index, felt) else {
            continue;
        };
        if !marks.reaches(child, joined) {
            continue;
        }
        found.push(child)?;
        visit(tree, child, marks.feels(child, joined), marks, found)?;
    }
    Ok(())
}

#[tactic(auto, using(crate::proofs::Forgets::forget_laws))]
/// Lets the kept answers of these nodes go, and of no others. It passes over a number that names no node.
pub fn drop_reached<T: Linked + Drop>(tree: &mut Arena<T>, reached: &[NodeId])
    ensures { tree.new ≡ all_forgot T.Linked.forgotten reached.now tree.old }
{
    for id in reached {
        let Some(node) = tree.get_mut(*id) else {
            continue;
        };
        node.forget();
    }
}
