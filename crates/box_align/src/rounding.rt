ghost use Rattle.std.specs.Prelude.{◌≡◌, ◌≤◌, ◌<◌, ◌^◌, pos, ◌-ℤ◌, ◌*ℤ◌, unsigned_abs};
ghost use Rattle.lunit.specs.Units.{floor_div};

use lunit::Wide;

/// Half of the space, rounded down, also below zero.
pub fn half(free: i64) -> i64
    requires { unsigned_abs free ≤ 2 ^ 56 }
    ensures { result ≡ floor_div free 2 }
{
    Wide::of(free as i128).floor_div(2).units()
}

/// The rest of the space beside that half.
pub fn other_half(free: i64) -> i64
    requires { unsigned_abs free ≤ 2 ^ 56 }
    ensures { result ≡ free -ℤ floor_div free 2 }
{
    let whole = Wide::of(free as i128);
    (whole - whole.floor_div(2)).units()
}

#[tactic(auto, using(crate::proofs::Parts::within))]
/// The length of `count` of the `of` equal parts of the space, rounded down, also below zero.
pub fn parts(free: i64, count: u64, of: u64) -> i64
    requires free { unsigned_abs free ≤ 2 ^ 56 }
    requires some { 0 < of }
    requires within { count ≤ of }
    ensures { result ≡ floor_div (free *ℤ pos count) of }
{
    Wide::of(free as i128).times(count).floor_div(of).units()
}
