ghost use Rattle.std.specs.Prelude.{◌≡◌, ◌==◌, ◌&&◌, ℕ, ℤ};
ghost use Rattle.std.specs.Ordering.{int_eq};
ghost use Rattle.tree_rules.specs.Queries.{ask_number, same_items, same_given, same_query};

use tree_rules::{Ask, Given, Query};

fn ask_number(ask: Ask) -> u8
    ensures { result ≡ ask_number ask }
{
    match ask {
        Ask::Inline => 0,
        Ask::LendColumns => 1,
        Ask::Block => 2,
        Ask::LendRows => 3,
        Ask::Frames => 4,
    }
}

fn same_count(a: (u32, u32), b: (u32, u32)) -> bool
    ensures { result ≡ ((a.0 == b.0) && (a.1 == b.1)) }
{
    a.0 == b.0 && a.1 == b.1
}

fn same_track(a: (i64, i64), b: (i64, i64)) -> bool
    ensures { result ≡ (int_eq a.0 b.0 && int_eq a.1 b.1) }
{
    a.0 == b.0 && a.1 == b.1
}

#[tactic(auto, using(crate::proofs::Sames::item_laws))]
/// Whether two lists of pairs of counts are the same.
pub fn same_counts(a: &[(u32, u32)], b: &[(u32, u32)]) -> bool
    ensures { result ≡
        same_items (λ (x : ℕ × ℕ) (y : ℕ × ℕ). (x.0 == y.0) && (x.1 == y.1)) a.now b.now }
{
    if a.len() != b.len() {
        return false;
    }
    for index in 0..a.len() {
        if !same_count(a[index], b[index]) {
            return false;
        }
    }
    true
}

#[tactic(auto, using(crate::proofs::Sames::item_laws))]
/// Whether two lists of tracks are the same.
fn same_tracks(a: &[(i64, i64)], b: &[(i64, i64)]) -> bool
    ensures { result ≡
        same_items (λ (x : ℤ × ℤ) (y : ℤ × ℤ). int_eq x.0 y.0 && int_eq x.1 y.1) a.now b.now }
{
    if a.len() != b.len() {
        return false;
    }
    for index in 0..a.len() {
        if !same_track(a[index], b[index]) {
            return false;
        }
    }
    true
}

fn same_given(a: &Given, b: &Given) -> bool
    ensures { result ≡ same_given a.now b.now }
{
    match (a, b) {
        (Given::None, Given::None) => true,
        (Given::Size(x), Given::Size(y)) => x.units() == y.units(),
        (Given::Tracks(edges, gap), Given::Tracks(others, other_gap)) => {
            same_tracks(edges.as_slice(), others.as_slice()) && gap.units() == other_gap.units()
        }
        _ => false,
    }
}

/// Whether a question is the one of these parts.
pub fn same_query(
    query: &Query,
    ask: Ask,
    reps: &[(u32, u32)],
    inline: &Given,
    block: &Given,
) -> bool
    ensures { result ≡
        same_query query.now
        (record { ask = ask; reps = reps.now; inline = inline.now; block = block.now }) }
{
    if ask_number(query.ask) != ask_number(ask) || !same_counts(query.reps.as_slice(), reps) {
        return false;
    }
    same_given(&query.inline, inline) && same_given(&query.block, block)
}
