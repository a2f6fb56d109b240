//! Styles of nodes: the properties, their values and initial values, and the map of those that are set.
#![tactic(auto)]

mod brief;
mod computed;
mod declared;
mod initial;
mod laws;
mod listed;
mod prop;
mod prop_map;
mod style;
mod track;
mod unit;
mod unit_list;
mod value;

pub use brief::Glance;
pub use declared::{Declared, DeclaredValue};
pub use initial::initial_of;
pub use laws::{computed_values, px_alone_stay};
pub use prop::{Class, Prop, class_of};
pub use style::Style;
pub use track::{Breadth, Repeat, Template, TrackFn, TrackList};
pub use unit::Unit;
pub use unit_list::UnitList;
pub use value::{Align, AlignMode, Areas, Scroll, Size, Value};
