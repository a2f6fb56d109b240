//! How often an automatic repeat stands (CSS Grid 2, 7.2.3.2).

ghost use Rattle.std.specs.Prelude.{◌≡◌, ◌<◌, ◌*◌, ◌^◌, pos, length, ◌*ℤ◌, ◌-ℤ◌, ◌≤ℤ◌, ◌<ℤ◌, IsTrue, MatchOption};
ghost use Rattle.part_rules.specs.declared.names.RepeatSpace.TheVariants.{Fits, Fills};
ghost use Rattle.part_rules.specs.Lists.{sum_of};
ghost use Rattle.part_rules.specs.Repetition.{repetitions, step_of, total_with};
ghost use Rattle.line_names.specs.Repeats.{are_counted, IsRoom, IsSum};

use lunit::{Lu, Wide};
use part_rules::RepeatSpace;

/// The sum of counted lengths.
fn sum(lengths: &[Lu]) -> Wide
    requires { IsTrue (are_counted lengths.now) }
    ensures value { result ≡ sum_of lengths.now }
    ensures range { IsSum (length lengths.now) result }
{
    let mut sum = Wide::of(0);
    for length in lengths {
        sum = sum + length.wide();
    }
    sum
}

/// The length of so many gutters.
fn gutters(gap: Lu, count: u64) -> Wide
    requires { pos 0 ≤ℤ gap }
    ensures value { result ≡ gap *ℤ pos count }
    ensures low { pos 0 ≤ℤ result }
    ensures high { result ≤ℤ pos (1073741824 * count) }
    ensures gap { gap ≤ℤ pos 1073741824 }
{
    gap.wide().times(count)
}

/// The total of the tracks with one repetition, and the gutters between them.
fn total_once(fixed: &[Lu], repeated: &[Lu], gap: Lu) -> Wide
    requires fixed { IsTrue (are_counted fixed.now) }
    requires repeated { IsTrue (are_counted repeated.now) }
    requires some { 0 < length repeated.now }
    requires gap { pos 0 ≤ℤ gap }
    ensures value { result ≡ total_with fixed.now repeated.now gap 1 }
    ensures low { pos 0 ≤ℤ result }
    ensures high { result ≤ℤ pos (2 ^ 100) }
{
    let count = fixed.len() as u64 + (repeated.len() - 1) as u64;
    sum(fixed) + sum(repeated) + gutters(gap, count)
}

#[tactic(auto, using(crate::proofs::Repeats::step_some))]
/// What one repetition more takes.
fn step(repeated: &[Lu], gap: Lu) -> Wide
    requires repeated { IsTrue (are_counted repeated.now) }
    requires some { 0 < length repeated.now }
    requires gap { pos 0 ≤ℤ gap }
    ensures value { result ≡ step_of repeated.now gap }
    ensures some { pos 0 <ℤ step_of repeated.now gap }
    ensures gap { gap ≤ℤ pos 1073741824 }
{
    sum(repeated) + gutters(gap, repeated.len() as u64)
}

#[tactic(auto, using(crate::proofs::Repeats::limited))]
/// What a size leaves beside a length, as far as it is above 0.
fn room_beside(size: Lu, once: Wide) -> i64
    requires low { pos 0 ≤ℤ once }
    requires high { once ≤ℤ pos (2 ^ 100) }
    ensures none { result ≤ℤ pos 0 → (size -ℤ once) ≤ℤ pos 0 }
    ensures some { pos 0 <ℤ result → result ≡ size -ℤ once }
    ensures high { result ≤ℤ pos 1073741824 }
    ensures size { size ≤ℤ pos 1073741824 }
{
    (size.wide() - once).clamp().units()
}

/// A number that is not below 0.
fn natural(number: i64) -> u64
    requires { pos 0 ≤ℤ number }
    ensures { pos result ≡ number }
{
    number as u64
}

/// What the size leaves beside one repetition, and what each further one takes; `None` where nothing is left.
fn room_and_step(fixed: &[Lu], repeated: &[Lu], gap: Lu, size: Lu) -> Option<(u64, u64)>
    requires fixed { IsTrue (are_counted fixed.now) }
    requires repeated { IsTrue (are_counted repeated.now) }
    requires some { 0 < length repeated.now }
    requires gap { pos 0 ≤ℤ gap }
    ensures { MatchOption result
        ((pos 0 <ℤ step_of repeated.now gap) ×
        ((size -ℤ total_with fixed.now repeated.now gap 1) ≤ℤ pos 0))
        (λ found. IsRoom (size -ℤ total_with fixed.now repeated.now gap 1)
        (step_of repeated.now gap) found.0 found.1) }
{
    let step = step(repeated, gap);
    let once = total_once(fixed, repeated, gap);
    let room = room_beside(size, once);
    if room <= 0 {
        return None;
    }
    Some((natural(room), natural(step.units())))
}

#[tactic(auto, using(crate::proofs::Repeats::counted_fits))]
/// The most repetitions that fit a size.
fn fitting(fixed: &[Lu], repeated: &[Lu], gap: Lu, size: Lu) -> u32
    requires fixed { IsTrue (are_counted fixed.now) }
    requires repeated { IsTrue (are_counted repeated.now) }
    requires some { 0 < length repeated.now }
    requires gap { pos 0 ≤ℤ gap }
    ensures { result ≡ repetitions fixed.now repeated.now gap (Fits size) }
{
    match room_and_step(fixed, repeated, gap, size) {
        None => 1,
        Some((room, step)) => (room / step).min(9999) as u32 + 1,
    }
}

#[tactic(auto, using(crate::proofs::Repeats::counted_fills))]
/// The fewest repetitions that fill a size.
fn filling(fixed: &[Lu], repeated: &[Lu], gap: Lu, size: Lu) -> u32
    requires fixed { IsTrue (are_counted fixed.now) }
    requires repeated { IsTrue (are_counted repeated.now) }
    requires some { 0 < length repeated.now }
    requires gap { pos 0 ≤ℤ gap }
    ensures { result ≡ repetitions fixed.now repeated.now gap (Fills size) }
{
    match room_and_step(fixed, repeated, gap, size) {
        None => 1,
        Some((room, step)) => ((room + (step - 1)) / step).min(9999) as u32 + 1,
    }
}

#[tactic(auto, unfolding(part_rules::specs::Repetition::repetitions))]
/// How often the tracks of an automatic repeat stand, at most 10,000 times (own rule): as often as their total with the other
/// tracks and the gutters fits a size, or as it takes to fill a least size, at least once; once where there is no size. `fixed`
/// and `repeated` are counted lengths, each of at least 64 units. Takes no memory.
pub fn repetitions(fixed: &[Lu], repeated: &[Lu], gap: Lu, space: RepeatSpace) -> u32
    requires fixed { IsTrue (are_counted fixed.now) }
    requires repeated { IsTrue (are_counted repeated.now) }
    requires some { 0 < length repeated.now }
    requires gap { pos 0 ≤ℤ gap }
    ensures { result ≡ repetitions fixed.now repeated.now gap space }
{
    match space {
        RepeatSpace::Fits(size) => fitting(fixed, repeated, gap, size),
        RepeatSpace::Fills(size) => filling(fixed, repeated, gap, size),
        RepeatSpace::Endless => 1,
    }
}
