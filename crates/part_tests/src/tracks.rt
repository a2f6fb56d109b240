//! Sizes of tracks for a max-content space, and whether they are told to be also those for their own total.

ghost use Rattle.std.specs.Prelude.{◌≡◌, ◌<◌, ◌≤ℤ◌, IfOk, IfSome, length, negsuc, pos};
ghost use Rattle.track_sizing.specs.Fits.{HaveFixed, IsFixed, IsKnownSpace};
ghost use Rattle.track_sizing.specs.Placed.{AreIn, IsIn};

use Track::{Auto, Between, Gone, Limited};
use lunit::{Floor, INLINE, Item, Lu, NoMemory, Span, Steps};
use std::alloc::Global;
use std::marker::Brand;
use std::process::Abort;
use std::sync::ledger::{Blank, Ledger};
use std::test::Fail;
use track_sizing::{Fit, Least, Most, Rule, Space, size_axis_lasting};

/// A track: `auto`, between two lengths, of the function `fit-content`, or collapsed.
#[derive(Clone, Copy)]
enum Track {
    Auto,
    Between(u32, u32),
    Limited(u32),
    Gone,
}

/// An item: the place of its first track, how many tracks follow that, and its min-content,
/// max-content and minimum contributions.
type Placed = (u8, u8, [i64; 3]);

/// Tracks with gaps of 5 and their items, the sizes of the tracks, and whether they last.
struct Row {
    shows: &'static str,
    tracks: &'static [Track],
    items: &'static [Placed],
    sizes: &'static [i64],
    lasts: bool,
}

/// The coordinate of the first track.
const FIRST: i32 = -2;

#[tactic(auto, using(crate::proofs::Measurable::some_length))]
/// A number of units as a length.
fn units(number: u32) -> Lu
    ensures { pos 0 ≤ℤ result }
{
    Lu::of(number as i64)
}

fn rule(track: &Track) -> Rule
    ensures { IsFixed result }
{
    let (least, most) = match track {
        Between(min, max) => (Least::Fixed(units(*min)), Most::Fixed(units(*max))),
        Limited(most) => (Least::Auto, Most::Fit(units(*most))),
        _ => (Least::Auto, Most::Auto),
    };
    Rule {
        least,
        most,
        collapsed: matches!(track, Gone),
    }
}

#[tactic(auto, using(crate::proofs::Sizable::fixed_more))]
fn rules(alloc: Global, tracks: &[Track]) -> Result<Vec<Rule>, NoMemory>
    ensures { IfOk result (λ all. HaveFixed all.items) }
{
    let mut all = Vec::new(alloc);
    for track in tracks {
        all.extend_from_slice(&[rule(track)])?;
    }
    Ok(all)
}

/// The item, where there are its tracks.
fn item(count: usize, placed: &Placed) -> Option<Item>
    ensures { IfSome result (λ i. IsIn (negsuc 1) count i) }
{
    let (place, more, [low, high, least]) = *placed;
    if count <= usize::from(place) + usize::from(more) {
        return None;
    }
    let start = FIRST + i32::from(place);
    Some(Item {
        span: Span {
            start,
            end: start + i32::from(more) + 1,
        },
        low: Lu::of(low),
        high: Lu::of(high),
        floor: Floor::Known(Lu::of(least)),
    })
}

#[tactic(auto, using(crate::proofs::Sizable::in_more))]
/// The items up to one for which there is no track.
fn items(alloc: Global, count: usize, rows: &[Placed]) -> Result<Vec<Item>, NoMemory>
    ensures { IfOk result (λ all. AreIn (negsuc 1) count all.items) }
{
    let mut all = Vec::new(alloc);
    for row in rows {
        match item(count, row) {
            Some(item) => all.extend_from_slice(&[item])?,
            None => return Ok(all),
        }
    }
    Ok(all)
}

/// A max-content space.
fn widest() -> Fit<INLINE>
    ensures gap { pos 0 ≤ℤ result.gap }
    ensures space { IsKnownSpace result.space }
{
    Fit {
        space: Space::MaxContent,
        min: None,
        max: None,
        gap: units(5),
        stretch: true,
    }
}

fn are(sizes: &[Lu], due: &[i64]) -> bool {
    if sizes.len() != due.len() {
        return false;
    }
    for (place, size) in sizes.iter().enumerate() {
        if size.units() != due[place] {
            return false;
        }
    }
    true
}

fn is_right<L: Ledger>(
    rt: &impl Abort,
    alloc: Global,
    passes: &mut Steps<L>,
    row: &Row,
) -> Result<(), NoMemory> {
    let rules = rules(alloc, row.tracks)?;
    assert!(rt; rules.len() < 100);
    let items = items(alloc, rules.len(), row.items)?;
    let made = size_axis_lasting(alloc, &rules, FIRST, &items, &widest(), passes)?;
    assert!(rt; are(&made.sizes, row.sizes), "{}", row.shows);
    assert_eq!(rt; made.lasting, row.lasts, "{}", row.shows);
    Ok(())
}

fn all_are_right<L: Ledger>(
    rt: &impl Abort,
    alloc: Global,
    blank: Blank,
    rows: &[Row],
) -> Result<(), NoMemory>
    requires name { blank.name ≡ L.name }
    requires parts { blank.parts ≡ L.parts }
    requires some { 0 < blank.parts }
{
    let mut passes: Steps<L> = Steps::new(blank);
    for row in rows {
        is_right(rt, alloc, &mut passes, row)?;
    }
    Ok(())
}

/// Items of one track make sizes that last; no clause says that these are told to. Where the items
/// span all tracks, as here, each track gets a third of what the greatest need leaves beside the
/// gaps, and the first ones a unit more: of 110 - 10 one gets 34 and two get 33, and of the 31 that
/// the greatest max-content contribution adds, 141 - 10 - 100, one gets 11 and two get 10.
#[test]
fn tracks_are_sized_by_their_items(rt: HostRuntime) -> Result<(), Fail> {
    static ROWS: &[Row] = &[
        Row {
            shows: "two automatic tracks",
            tracks: &[Auto, Auto],
            items: &[(0, 0, [30, 50, 25]), (1, 0, [20, 42, 20])],
            sizes: &[50, 42],
            lasts: true,
        },
        Row {
            shows: "a track between two lengths",
            tracks: &[Between(10, 70), Auto],
            items: &[(0, 0, [30, 50, 25]), (1, 0, [20, 42, 20])],
            sizes: &[70, 42],
            lasts: true,
        },
        Row {
            shows: "a track that fits its content up to a limit",
            tracks: &[Limited(27), Auto],
            items: &[(0, 0, [30, 50, 25]), (1, 0, [20, 42, 20])],
            sizes: &[27, 42],
            lasts: true,
        },
        Row {
            shows: "a collapsed track",
            tracks: &[Auto, Gone, Auto],
            items: &[(0, 0, [30, 50, 25]), (2, 0, [20, 42, 20])],
            sizes: &[50, 0, 42],
            lasts: true,
        },
        Row {
            shows: "items over all of three tracks",
            tracks: &[Auto, Auto, Auto],
            items: &[(0, 2, [110, 110, 110]), (0, 2, [87, 141, 60])],
            sizes: &[45, 43, 43],
            lasts: false,
        },
    ];
    all_are_right::<Brand>(&rt, rt.alloc(), Blank::new(1), ROWS)?;
    Ok(())
}
