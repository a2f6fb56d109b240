//! Track sizes with the units of their lengths.

ghost use Rattle.std.specs.Prelude.{◌≡◌};
ghost use Rattle.doc_writer.specs.Tracks.{next_unit, side_with, fit_with, track_with};

use std::marker::Model;
use style_types::{Breadth, TrackFn, Unit};
use track_text::{Side, Track};

/// The units of the lengths of a value that are left. Contracts see the list.
pub(crate) struct Units<'a> {
    left: &'a [Unit],
}

impl<'a> Model for Units<'a> {
    ghost use Rattle.std.specs.Prelude.{List};
    ghost use Rattle.style_types.specs.declared.unit.Unit.{Unit};

    ghost Value = { List Unit };

    ghost view = { λ a. a.left.now };
}

impl<'a> Drop for Units<'a> {
    fn drop(self) {
        let Units { left: _ } = self;
    }
}

impl<'a> Units<'a> {
    pub(crate) fn new(units: &'a [Unit]) -> Units<'a>
        ensures { result ≡ units.now }
    {
        Units { left: units }
    }

    /// These units once more.
    pub(crate) fn same(&self) -> Units<'a>
        ensures { result ≡ self.now }
    {
        Units { left: self.left }
    }

    /// The unit of the next length; px where none is left.
    pub(crate) fn next(&mut self) -> Unit
        ensures { (result, self.new) ≡ next_unit self.old }
    {
        match self.left.split_first() {
            None => Unit::Px,
            Some((unit, left)) => {
                self.left = left;
                *unit
            }
        }
    }

    /// The breadth with its unit.
    fn side(&mut self, breadth: Breadth) -> Side
        ensures { (result, self.new) ≡ side_with breadth self.old }
    {
        match breadth {
            Breadth::Length(px) => Side::Length(px, self.next()),
            Breadth::Percent(thousandths) => Side::Percent(thousandths),
            Breadth::Auto => Side::Auto,
            Breadth::MinContent => Side::MinContent,
            Breadth::MaxContent => Side::MaxContent,
            Breadth::Flex(thousandths) => Side::Flex(thousandths),
        }
    }

    fn fit(&mut self, fit: Option<Breadth>) -> Option<Side>
        ensures { (result, self.new) ≡ fit_with fit self.old }
    {
        match fit {
            Some(breadth) => Some(self.side(breadth)),
            None => None,
        }
    }

    /// The track size with the units of its lengths.
    pub(crate) fn track(&mut self, size: TrackFn) -> Track
        ensures { (result, self.new) ≡ track_with size self.old }
    {
        Track {
            least: self.side(size.least),
            most: self.side(size.most),
            fit: self.fit(size.fit),
        }
    }
}
