//! Laws of the definitions, each as the clause of a function that does nothing.

ghost use Rattle.std.specs.Prelude.{◌≡◌, true};
ghost use Rattle.std.specs.Option.{option_map};
ghost use Rattle.std.specs.FinMap as map;
ghost use Rattle.style_types.specs.Computed.{computed_value, computed_style, is_px_alone, plain_style};

use crate::declared::Declared;
use crate::prop::Prop;
use lunit::Lu;

#[tactic(auto, using(crate::proofs::Computing::computing))]
/// A property has a computed value exactly where it is declared, and this is the computed value of the declared one.
pub fn computed_values(declared: &Declared, em: Lu, rem: Lu, p: Prop)
    ensures { map.get (computed_style em rem declared.now) p ≡
        option_map (computed_value em rem) (map.get declared.now p) }
{}

#[tactic(auto, using(crate::proofs::Computing::computing))]
/// A style whose lengths are all in px is computed to itself, whatever the font sizes are.
pub fn px_alone_stay(declared: &Declared, em: Lu, rem: Lu, p: Prop)
    requires { is_px_alone declared.now ≡ true }
    ensures style { computed_style em rem declared.now ≡ plain_style declared.now }
    ensures values { map.get (plain_style declared.now) p ≡
        option_map (λ d. d.value) (map.get declared.now p) }
{}
