//! The intrinsic inline sizes of a flex container, by those of its children (own rule; CSS Flexbox 1, section 9.9 is not taken).

ghost use Rattle.std.specs.Prelude.{◌≡◌, ◌<◌, [], ℕ, map, IfOk, IfSome};
ghost use Rattle.placing.specs.Members.{place_of, Tells};
ghost use Rattle.placing.specs.Nodes.{bare, kid_at, IsLive};
ghost use Rattle.placing.specs.Ranges.{AreReadable};
ghost use Rattle.placing.specs.Told.{last_turn, ArePastMembers, AreToldMembers};
ghost use Rattle.placing.specs.Walks.{State, Stopped, WalkedBelow};
ghost use Rattle.placing.specs.declared.lined.ToldMember.{ToldMember};
ghost use Rattle.tree_rules.specs.FlexSizes as rules;
ghost use Rattle.tree_rules.specs.Labels.{content_of, grid_of};
ghost use Rattle.tree_rules.specs.declared.query.Query.{Query};
ghost use Rattle.walker.specs.Walkers.{nodes, seen, SameParts, Stands};
ghost use Rattle.inline_sizes.specs.Flexes.{flex_seen, sizes_by};

use crate::columns::with_room;
use crate::distribution::{gap_by, greatest_of, in_a_row};
use crate::flex_items::inline_contributions;
use lunit::{Lu, NoMemory, Sequence};
use node_arena::{Arena, NodeId};
use outside::Ruler;
use placing::style::{gap, is_column, wraps};
use placing::{MANY, Member, Node, ToldMember, node_at, root, unasked};
use std::alloc::Global;
use std::sync::ledger::Ledger;
use style_types::Style;
use walker::Walker;

/// A flex container with what its children answer.
#[derive(Drop)]
pub struct FlexParts {
    /// The children, in order-modified document order.
    pub members: Sequence<Member>,
}

/// A child that need not be asked, since it is known what it tells.
pub(crate) fn known(last: &ToldMember) -> Option<ToldMember>
    ensures same { IfSome result (λ told. told ≡ last.now) }
    ensures few { IfSome result (λ told. last.now.turn < last_turn) }
{
    if last.turn < u64::MAX {
        Some(*last)
    } else {
        None
    }
}

/// A child with what it tells by its two sizes.
pub(crate) fn told_by(tree: &Arena<Node>, last: &ToldMember, inline: (Lu, Lu)) -> ToldMember
    requires live { IsLive (bare tree.now.tree) last.now.member.child }
    requires readable { AreReadable (bare tree.now.tree) }
    requires inline { inline ≡
        (kid_at (bare tree.now.tree) last.now.member.child).answers.inline [] }
    ensures place { place_of result ≡ place_of last.now }
    ensures told { Tells (kid_at (bare tree.now.tree) last.now.member.child) result }
{
    let member = Member {
        child: last.member.child,
        number: last.member.number,
        inline,
    };
    let style = &node_at(tree, member.child).style;
    let (low, high) = inline_contributions(style, member.inline);
    ToldMember {
        member,
        low,
        high,
        turn: 0,
    }
}

/// The children of a flex container with what they told last for its inline sizes, where those have the last turn that must be asked. A
/// walk goes on after it as before it. `NoMemory` where memory is wanting.
pub(crate) fn last_members<R: Ruler, L: Ledger>(
    walk: &mut Walker<R, L>,
    id: NodeId,
) -> Result<Sequence<ToldMember>, NoMemory>
    requires stands { Stands walk.old }
    requires live { IsLive (nodes walk.old) id }
    ensures past { IfOk result (ArePastMembers (nodes walk.old) id) }
    ensures stands { Stands walk.new }
    ensures parts { SameParts walk.old walk.new }
    ensures bare { nodes walk.new ≡ nodes walk.old }
    ensures below { (q : Query) (more : ℕ) (new : State) →
        WalkedBelow id q more (seen R.log walk.new) new →
        WalkedBelow id q more (seen R.log walk.old) new }
    ensures stopped { (q : Query) (new : State) → Stopped id q (seen R.log walk.new) new →
        Stopped id q (seen R.log walk.old) new }
{
    if let Some(past) = walk.take_members(id)? {
        return Ok(past);
    }
    unasked(walk.alloc, walk.tree, id)
}

/// Keeps what the children of a flex container tell for its inline sizes, where they are many. A walk goes on after it as before it.
/// `NoMemory` where memory is wanting; nothing has changed then.
pub(crate) fn keep_members<R: Ruler, L: Ledger>(
    walk: &mut Walker<R, L>,
    id: NodeId,
    told: &[ToldMember],
) -> Result<(), NoMemory>
    requires stands { Stands walk.old }
    requires live { IsLive (nodes walk.old) id }
    requires told { AreToldMembers (nodes walk.old) id told.now }
    ensures stands { Stands walk.new }
    ensures parts { SameParts walk.old walk.new }
    ensures bare { nodes walk.new ≡ nodes walk.old }
    ensures below { (q : Query) (more : ℕ) (old : State) →
        WalkedBelow id q more old (seen R.log walk.old) →
        WalkedBelow id q more old (seen R.log walk.new) }
{
    if told.len() < MANY {
        return Ok(());
    }
    walk.keep_members(id, told)
}

/// The children without what they contribute.
pub(crate) fn members_of(alloc: Global, told: &[ToldMember]) -> Result<Sequence<Member>, NoMemory>
    ensures { IfOk result (λ members. members ≡ map (λ (e : ToldMember). e.member) told.now) }
{
    let mut members = with_room(alloc, told.len())?;
    for child in told {
        members.push(child.member)?;
    }
    Ok(members)
}

/// What each child contributes by the first of its two sizes, and by the second.
fn contributions(alloc: Global, told: &[ToldMember]) -> Result<(Vec<Lu>, Vec<Lu>), NoMemory>
    ensures low { IfOk result
        (λ sizes. sizes.0.items ≡ map (λ (e : ToldMember). e.low) told.now) }
    ensures high { IfOk result
        (λ sizes. sizes.1.items ≡ map (λ (e : ToldMember). e.high) told.now) }
{
    let mut lows = Vec::with_capacity(alloc, told.len())?;
    let mut highs = Vec::with_capacity(alloc, told.len())?;
    for child in told {
        lows.push(child.low)?;
        highs.push(child.high)?;
    }
    Ok((lows, highs))
}

/// The two sizes of a row or a column by what its children contribute.
fn sizes_by(style: &Style, lows: &[Lu], highs: &[Lu]) -> (Lu, Lu)
    ensures { result ≡ sizes_by (content_of style.now) (grid_of style.now) lows.now highs.now }
{
    if is_column(style) {
        return (greatest_of(lows), greatest_of(highs));
    }
    let gap = gap_by(&None, Lu::default(), &gap::<0>(style));
    let low = if wraps(style) {
        greatest_of(lows)
    } else {
        in_a_row(gap, lows)
    };
    (low, in_a_row(gap, highs))
}

/// The two intrinsic inline sizes of the content of a flex container: of a column the greatest contributions, of a row their sums
/// with the gaps, of which the first one, with wrapping, is the greatest (own rule). `NoMemory` where memory is wanting.
pub(crate) fn flex_inline(
    alloc: Global,
    tree: &Arena<Node>,
    id: NodeId,
    told: &[ToldMember],
) -> Result<(Lu, Lu), NoMemory>
    requires live { IsLive (bare tree.now.tree) id }
    requires told { AreToldMembers (bare tree.now.tree) id told.now }
    ensures { IfOk result (λ sizes. sizes ≡ rules.flex_inline (flex_seen (bare tree.now.tree) id)) }
{
    root(tree);
    let (lows, highs) = contributions(alloc, told)?;
    Ok(sizes_by(&node_at(tree, id).style, &lows, &highs))
}
