//! Declared values with their lengths in px.

ghost use Rattle.std.specs.Prelude.{◌≡◌, IfOk};
ghost use Rattle.style_types.specs.Computed.{computed_breadth, computed_fit, computed_track, computed_tracks, computed_repeat, computed_list, computed_template, computed_size, computed_with, computed_value, values_mapped};

use crate::declared::DeclaredValue;
use crate::listed::value_in_parts;
use crate::prop::Prop;
use crate::track::{Breadth, Repeat, Template, TrackFn, TrackList};
use crate::unit_list::Units;
use crate::value::{Size, Value};
use lunit::{Copied, Lu, NoMemory, Sequence};
use runs::Runs;
use std::alloc::Global;

impl<'a> Units<'a> {
    fn breadth(&mut self, em: Lu, rem: Lu, breadth: Breadth) -> Breadth
        ensures { (result, self.new) ≡ computed_breadth em rem breadth self.old }
    {
        match breadth {
            Breadth::Length(px) => Breadth::Length(self.next_length(em, rem, px)),
            other => other,
        }
    }

    fn fit(&mut self, em: Lu, rem: Lu, fit: Option<Breadth>) -> Option<Breadth>
        ensures { (result, self.new) ≡ computed_fit em rem fit self.old }
    {
        match fit {
            Some(breadth) => Some(self.breadth(em, rem, breadth)),
            None => None,
        }
    }

    fn track(&mut self, em: Lu, rem: Lu, track: TrackFn) -> TrackFn
        ensures { (result, self.new) ≡ computed_track em rem track self.old }
    {
        TrackFn {
            least: self.breadth(em, rem, track.least),
            most: self.breadth(em, rem, track.most),
            fit: self.fit(em, rem, track.fit),
        }
    }

    pub(crate) fn tracks(
        &mut self,
        alloc: Global,
        em: Lu,
        rem: Lu,
        tracks: &[TrackFn],
    ) -> Result<Sequence<TrackFn>, NoMemory>
        ensures { IfOk result
            (λ made. (made, self.new) ≡ computed_tracks em rem tracks.now self.old) }
    {
        let mut made = Sequence::new(alloc);
        for track in tracks {
            made.push(self.track(em, rem, *track))?;
        }
        Ok(made)
    }

    /// The tracks of a list, which are written out for it.
    fn listed_tracks(
        &mut self,
        alloc: Global,
        em: Lu,
        rem: Lu,
        tracks: &Runs<TrackFn>,
    ) -> Result<Runs<TrackFn>, NoMemory>
        ensures { IfOk result
            (λ made. (made, self.new) ≡ computed_tracks em rem tracks.now self.old) }
    {
        let _ = tracks.len();
        let written = tracks.written(alloc)?;
        let made = self.tracks(alloc, em, rem, written.as_slice())?;
        Runs::of(alloc, made)
    }

    pub(crate) fn repeat(
        &mut self,
        alloc: Global,
        em: Lu,
        rem: Lu,
        repeat: &Option<Repeat>,
    ) -> Result<Option<Repeat>, NoMemory>
        ensures { IfOk result
            (λ made. (made, self.new) ≡ computed_repeat em rem repeat.now self.old) }
    {
        match repeat {
            Some(repeat) => Ok(Some(Repeat {
                before: repeat.before,
                auto_fit: repeat.auto_fit,
                sizes: self.tracks(alloc, em, rem, repeat.sizes.as_slice())?,
                names: repeat.names.copy(alloc)?,
            })),
            None => Ok(None),
        }
    }

    fn list(
        &mut self,
        alloc: Global,
        em: Lu,
        rem: Lu,
        list: &TrackList,
    ) -> Result<TrackList, NoMemory>
        ensures { IfOk result (λ made. made ≡ computed_list em rem list.now self.old) }
    {
        Ok(TrackList {
            sizes: self.listed_tracks(alloc, em, rem, &list.sizes)?,
            names: list.names.copy(alloc)?,
            repeat: self.repeat(alloc, em, rem, &list.repeat)?,
        })
    }

    fn template(
        &mut self,
        alloc: Global,
        em: Lu,
        rem: Lu,
        template: &Template,
    ) -> Result<Template, NoMemory>
        ensures { IfOk result (λ made. made ≡ computed_template em rem template.now self.old) }
    {
        match template {
            Template::Tracks(list) => Ok(Template::Tracks(self.list(alloc, em, rem, list)?)),
            other => other.copy(alloc),
        }
    }

    fn size(&mut self, em: Lu, rem: Lu, size: Size) -> Size
        ensures { result ≡ computed_size em rem size self.old }
    {
        match size {
            Size::Length(px) => Size::Length(self.next_length(em, rem, px)),
            other => other,
        }
    }

    pub(crate) fn value(
        &mut self,
        alloc: Global,
        em: Lu,
        rem: Lu,
        value: &Value,
    ) -> Result<Value, NoMemory>
        ensures { IfOk result (λ made. made ≡ computed_with em rem value.now self.old) }
    {
        match value {
            Value::Template(template) => {
                Ok(Value::Template(self.template(alloc, em, rem, template)?))
            }
            Value::Sizes(sizes) => {
                Ok(Value::Sizes(self.tracks(alloc, em, rem, sizes.as_slice())?))
            }
            Value::Size(size) => Ok(Value::Size(self.size(em, rem, *size))),
            other => other.copy(alloc),
        }
    }
}

/// The computed value of a declared one, whose units are written out for it.
fn written_value(
    alloc: Global,
    em: Lu,
    rem: Lu,
    declared: &DeclaredValue,
) -> Result<Value, NoMemory>
    ensures { IfOk result (λ value. value ≡ computed_value em rem declared.now) }
{
    let units = declared.units.written(alloc)?;
    Units::new(units.as_slice()).value(alloc, em, rem, &declared.value)
}

#[tactic(auto, using(crate::proofs::Computing::px_value))]
/// The computed value of a declared one, where the font size of the node is `em` and that of the root `rem`. A value
/// whose lengths are all in px is computed to itself.
fn computed_value(
    alloc: Global,
    em: Lu,
    rem: Lu,
    declared: &DeclaredValue,
) -> Result<Value, NoMemory>
    ensures { IfOk result (λ value. value ≡ computed_value em rem declared.now) }
{
    if declared.units.are_px() {
        return declared.value.copy(alloc);
    }
    match declared.units.in_parts() {
        Some((parts, others)) => value_in_parts(alloc, em, rem, &declared.value, parts, others),
        None => written_value(alloc, em, rem, declared),
    }
}

/// The entries with their computed values.
pub(crate) fn computed_entries(
    alloc: Global,
    em: Lu,
    rem: Lu,
    entries: &[(Prop, DeclaredValue)],
) -> Result<Vec<(Prop, Value)>, NoMemory>
    ensures { IfOk result (λ made. made.items ≡ values_mapped (computed_value em rem) entries.now) }
{
    let mut made = Vec::with_capacity(alloc, entries.len())?;
    for (p, declared) in entries {
        made.push((*p, computed_value(alloc, em, rem, declared)?))?;
    }
    Ok(made)
}
