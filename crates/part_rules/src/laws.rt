//! What holds of the definitions. Each law is the contract of a function that does nothing.

ghost use Rattle.std.specs.Prelude.{◌≡◌, Bool, List, [], false, true, is_some, ℕ, ◌<ℤ◌, ℤ, pos, length, ◌+ℤ◌, ◌-◌, ◌-ℤ◌, ◌≤ℤ◌, ◌<◌, map, IsTrue};
ghost use Rattle.std.specs.List.{list_all, list_any};
ghost use Rattle.lunit.specs.declared.geometry.Area.{Area};
ghost use Rattle.lunit.specs.declared.geometry.Spot.{Spot};
ghost use Rattle.part_rules.specs.declared.share.Share.{Share};
ghost use Rattle.part_rules.specs.Alignment.{content_moved};
ghost use Rattle.part_rules.specs.Fractions.{are_bases, expanded, falls_short, found, left_flexible, leftover, weight_of, NoneBelow};
ghost use Rattle.part_rules.specs.FlexLines.{Piece, begin, resolved};
ghost use Rattle.part_rules.specs.Lists.{sum_of, total_of};
ghost use Rattle.part_rules.specs.Repetition.{repetitions, repetitions_by_division};
ghost use Rattle.part_rules.specs.Tracks.{AreSettled, Track, group_fitted, unmarked};
ghost use Rattle.part_rules.specs.WordLines.{AreFewest, are_widths, word_lines};
ghost use Rattle.part_rules.specs.Placement.{Field, Position, IsFreeOf, IsInside, IsLeast, NoOverlap, free_column, free_position, free_row, next_area, placed, row_area, rows_to_search, to_end};
ghost use Rattle.lunit.specs.Areas.{is_free};
ghost use Rattle.lunit.specs.declared.geometry.Span.{Span};
ghost use Rattle.part_rules.specs.Sharing.{IsLevel, IsShared, handed, handed_by_level, level_of, shared_rows, left_over, apportioned_whole};

use crate::{Fit, FlexItem, FrRow, Mode, RepeatSpace, Shape, Share, Wish};
use lunit::Lu;

#[tactic(auto, using(crate::proofs::Sharing::sums_up, crate::proofs::Sharing::is_shared))]
/// Nothing is lost where a space is handed out, and it is handed out as far as there is room.
pub fn shares_are_the_space(space: Lu, rows: &[Share])
    ensures sum { sum_of (map (λ (s : Share). s.got) (shared_rows space rows.now)) +ℤ left_over
        space rows.now ≡ space }
    ensures used { IsShared space rows.now }
{}

#[tactic(auto, using(crate::proofs::Levels::by_level))]
/// Units that are handed out by one level are those that are handed out one at a time, round after round; the level is the
/// greatest whose total does not pass the units, or one that no row takes more than.
pub fn levels_are_rounds(units: u64, rows: &[Share])
    ensures same { handed_by_level units rows.now ≡ handed units rows.now }
    ensures greatest { IsLevel units rows.now (level_of units rows.now) }
{}

#[tactic(auto, using(crate::proofs::Sharing::parts_sum))]
/// Parts by weights are the whole space.
pub fn parts_are_the_space(space: Lu, weights: &[u32])
    requires { 0 < total_of weights.now }
    ensures { sum_of (apportioned_whole space weights.now) ≡ space }
{}

#[tactic(auto, using(crate::proofs::Aligned::between_first, crate::proofs::Aligned::between_last))]
/// `space-between` leaves the first subject at the start and moves the last to the end.
pub fn between_fills(safe: bool, free: i64, subjects: u32)
    requires some { pos 0 ≤ℤ free }
    requires two { 1 < subjects }
    ensures first { content_moved Mode.Between safe free 0 subjects ≡ pos 0 }
    ensures last { content_moved Mode.Between safe free (subjects - 1) subjects ≡ free }
{}

#[tactic(auto, using(crate::proofs::WordLines::words_fewest))]
/// Words that are filled greedily make the fewest lines.
pub fn lines_are_fewest(space: Lu, width: Lu, words: &[Lu])
    requires some { pos 0 ≤ℤ space }
    requires widths { IsTrue (are_widths words.now) }
    ensures { AreFewest space width words.now (length (word_lines space width words.now)) }
{}

#[tactic(auto, using(crate::proofs::Fractions::none_short, crate::proofs::Fractions::found_none_below))]
/// The fraction that fills a space gives no flexible track that it is found for less than its base size, and leaves no track
/// below its base size.
pub fn fractions_cover_bases(rows: &[FrRow], gutters: Lu, space: Lu)
    requires { IsTrue (are_bases rows.now) }
    ensures none_short { list_any
        (falls_short
        (leftover (space -ℤ gutters)
        (left_flexible (length rows.now) (space -ℤ gutters) rows.now))
        (weight_of (left_flexible (length rows.now) (space -ℤ gutters) rows.now)))
        (left_flexible (length rows.now) (space -ℤ gutters) rows.now) ≡ false }
    ensures none_below { NoneBelow rows.now (expanded (found rows.now gutters space) rows.now) }
{}

#[tactic(auto, using(crate::proofs::Frozen::all_frozen))]
/// All items of a flex line are frozen after as many turns as it has items, however the space was shared before.
pub fn all_items_are_frozen(grow: bool, main: i64, gap: i64, initial: i64, items: &[FlexItem])
    ensures { list_all (λ (p : Piece). is_some p.frozen)
        (resolved (length items.now) grow main gap initial (map (begin grow) items.now)) ≡ true }
{}

#[tactic(auto, using(crate::proofs::Placed::row_area_free, crate::proofs::Placed::next_area_free))]
/// The area that an item without a definite place gets overlaps none that is placed before: in a definite row, and for
/// the items that are left.
pub fn free_items_overlap_nothing()
    ensures in_rows { (dense : Bool) (placed mine : List Area) (column row : Spot) →
        IsFreeOf placed (row_area dense placed mine column row) }
    ensures left { (field : Field) (placed : List Area) (cursor : Position) (column row : Spot) →
        IsFreeOf placed (next_area field placed cursor column row) }
{}

#[tactic(auto, using(crate::proofs::Apart::no_overlap))]
/// The area of an item that is not definite in both axes overlaps no other area.
pub fn areas_are_apart(items: &[Wish], shape: Shape)
    ensures { NoOverlap items.now (placed items.now shape) }
{}

#[tactic(auto, using(crate::proofs::Placed::none_before))]
/// No place before the one that an item gets, from where its search begins, was free: a column in definite rows, a row in
/// definite columns, and a position by rows and then by columns. Such a position is within the columns where an item of its
/// width can be.
pub fn free_items_take_the_least_place()
    ensures column { (held : List Area) (k : ℕ) (rows : Span) (from x : ℤ) → from ≤ℤ x →
        x <ℤ free_column held k rows from →
        is_free (record { columns = to_end x k; rows = rows }) held ≡ false }
    ensures row { (held : List Area) (columns : Span) (l : ℕ) (from x : ℤ) → from ≤ℤ x →
        x <ℤ free_row held columns l from →
        is_free (record { columns = columns; rows = to_end x l }) held ≡ false }
    ensures position { (held : List Area) (columns : Span) (k l : ℕ) (from : Position) →
        IsLeast held columns k l from
        (free_position held columns k l (rows_to_search held from.row) from) }
    ensures inside { (held : List Area) (columns : Span) (k l : ℕ) (from : Position) →
        columns.start ≤ℤ from.column → (columns.start +ℤ pos k) ≤ℤ columns.end →
        IsInside columns k (free_position held columns k l (rows_to_search held from.row) from) }
{}

#[tactic(auto, using(crate::proofs::Repeats::by_division))]
/// One division gives as many repetitions as are counted.
pub fn division_counts_repetitions(fixed: &[Lu], repeated: &[Lu], gap: Lu, space: RepeatSpace)
    ensures { repetitions_by_division fixed.now repeated.now gap space ≡
        repetitions fixed.now repeated.now gap space }
{}

#[tactic(auto, using(crate::proofs::Groups::none_fitted))]
/// A group of spanning items that no item is in changes no size of tracks that are settled, so it may be passed over.
pub fn empty_groups_change_nothing<const AXIS: u8>(fit: Fit<AXIS>)
    ensures { (crossing : Bool) (ts : List Track) → AreSettled ts →
        group_fitted fit.entry.space fit.entry.gap crossing [] ts ≡ map unmarked ts }
{}
