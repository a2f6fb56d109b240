//! Laws of the definitions, each as the clause of a function that does nothing.
ghost use Rattle.std.specs.Prelude.{◌≡◌, ◌↔◌, pos, ◌+ℤ◌, ◌*ℤ◌, ◌≤ℤ◌, ◌<ℤ◌, ◌<◌, ◌++◌, length, IsTrue};
ghost use Rattle.lunit.specs.Areas.{areas_overlap, HaveCell};
ghost use Rattle.lunit.specs.Units.{floor_div};
ghost use Rattle.lunit.specs.Decimals.{all_digits, decimal_of, truncated, IsScale};

use crate::Area;

/// Two areas overlap exactly where some cell lies in both.
pub fn overlap_is_a_cell(a: Area, b: Area)
    ensures { IsTrue (areas_overlap a b) ↔ HaveCell a b }
{}

#[tactic(auto, using(crate::proofs::RoundedDown::floor_low, crate::proofs::RoundedDown::floor_high))]
/// Rounding down gives the greatest whole number that, times the divisor, is at most the number.
pub fn rounds_down(number: i64, by: u64)
    requires { 0 < by }
    ensures low { (floor_div number by *ℤ pos by) ≤ℤ number }
    ensures high { number <ℤ (floor_div number by *ℤ pos by +ℤ pos by) }
{}

#[tactic(auto, using(crate::proofs::SixDecimals::six_count))]
/// Digits past the sixth decimal are without effect on a number that is counted in parts of a millionth.
pub fn six_decimals_count(scale: u32, negative: bool, whole: &[u8], decimals: &[u8], more: &[u8])
    requires scale { IsScale scale }
    requires decimals { IsTrue (all_digits decimals.now) }
    requires six { length decimals.now ≡ 6 }
    requires more { IsTrue (all_digits more.now) }
    ensures { truncated scale (decimal_of negative whole.now (decimals.now ++ more.now)) ≡
        truncated scale (decimal_of negative whole.now decimals.now) }
{}
