//! Track sizes as they are read, with the units of their lengths.

ghost use Rattle.std.specs.Prelude.{◌≡◌, ◌++◌, ◌∷◌, [], IfOk, OnOk};
ghost use Rattle.std.specs.Option.{option_map};
ghost use Rattle.track_text.specs.Sides.{breadth_of_side, track_of, sizes_of};

use lunit::{Copied, Lu, NameSet, NoMemory, Sequence};
use runs::Runs;
use std::alloc::Global;
use style_types::{Breadth, TrackFn, Unit};

/// One side of a track size as it is read (CSS Grid 2, section 7.2.1).
#[derive(Clone, Copy, Debug)]
pub enum Side {
    /// A length: its px in units of 1/64 px, which is 0 where the unit is relative, and its unit.
    Length(Lu, Unit),
    /// A percentage in thousandths of a percent.
    Percent(u32),
    /// `auto`.
    Auto,
    /// `min-content`.
    MinContent,
    /// `max-content`.
    MaxContent,
    /// A factor with `fr`, in thousandths (section 7.2.4).
    Flex(u32),
}

/// The size of a track as it is read (CSS Grid 2, section 7.2.1).
#[derive(Clone, Copy, Debug)]
pub struct Track {
    /// The min track sizing function; never a factor.
    pub least: Side,
    /// The max track sizing function.
    pub most: Side,
    /// The argument of `fit-content`.
    pub fit: Option<Side>,
}

/// An automatic repeat as it is read.
#[derive(Drop)]
pub struct ReadRepeat {
    /// How many tracks of the list stand before the repeat.
    pub before: u32,
    /// `auto-fit`, else `auto-fill`.
    pub auto_fit: bool,
    /// The tracks of one repetition.
    pub sizes: Sequence<Track>,
    /// The name sets of one repetition.
    pub names: Sequence<NameSet>,
}

/// A track list as it is read.
#[derive(Drop)]
pub struct ReadList {
    /// The tracks outside the automatic repeat.
    pub sizes: Runs<Track>,
    /// The name sets before, between and after these tracks.
    pub names: Runs<NameSet>,
    /// The automatic repeat.
    pub repeat: Option<ReadRepeat>,
}

impl Copied for Track {
    fn copy(&self, _alloc: Global) -> Result<Track, NoMemory> {
        Ok(*self)
    }
}

impl Side {
    /// The side without its unit.
    pub(crate) fn breadth(self) -> Breadth
        ensures { result ≡ breadth_of_side self }
    {
        match self {
            Side::Length(px, _) => Breadth::Length(px),
            Side::Percent(thousandths) => Breadth::Percent(thousandths),
            Side::Auto => Breadth::Auto,
            Side::MinContent => Breadth::MinContent,
            Side::MaxContent => Breadth::MaxContent,
            Side::Flex(factor) => Breadth::Flex(factor),
        }
    }
}

fn fit_breadth(fit: Option<Side>) -> Option<Breadth>
    ensures { result ≡ option_map breadth_of_side fit }
{
    match fit {
        Some(side) => Some(side.breadth()),
        None => None,
    }
}

/// Puts a size of these sides behind the others.
fn push_size(
    sizes: &mut Sequence<TrackFn>,
    least: Breadth,
    most: Breadth,
    fit: Option<Breadth>,
) -> Result<(), NoMemory>
    ensures { OnOk result (sizes.new ≡ sizes.old ++ track_of least most fit ∷ []) }
{
    sizes.push(TrackFn { least, most, fit })?;
    Ok(())
}

/// The sizes without their units.
pub(crate) fn sizes_of(alloc: Global, tracks: &[Track]) -> Result<Sequence<TrackFn>, NoMemory>
    ensures { IfOk result (λ sizes. sizes ≡ sizes_of tracks.now) }
{
    let mut sizes = Sequence::new(alloc);
    for track in tracks {
        let least = track.least.breadth();
        let most = track.most.breadth();
        let fit = fit_breadth(track.fit);
        push_size(&mut sizes, least, most, fit)?;
    }
    Ok(sizes)
}

#[tactic(auto, using(crate::proofs::Listed::sizes))]
/// The sizes of a list without their units.
pub(crate) fn listed_sizes(alloc: Global, tracks: &Runs<Track>) -> Result<Runs<TrackFn>, NoMemory>
    ensures { IfOk result (λ sizes. sizes ≡ sizes_of tracks.now) }
{
    let _ = tracks.len();
    let mut sizes = Runs::new(alloc);
    for (count, body) in tracks.parts() {
        let more = sizes_of(alloc, body.as_slice())?;
        sizes = sizes.with(*count, more)?;
    }
    Ok(sizes)
}
