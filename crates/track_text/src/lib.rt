//! Track lists: the values of the two templates of a grid, and what the values of all properties share.
#![tactic(auto)]

mod entry;
mod errors;
mod kept;
mod laws;
mod lists;
mod name_sets;
mod parts;
mod read;
mod side;
mod subgrids;
mod templates;
mod track_sizes;
mod unsupported;
mod values;
mod words;

pub use errors::{ReadError, Stop};
pub use laws::plain_text_reads_back;
pub use name_sets::line_name;
pub use read::{BAD_VALUE, UNSUPPORTED, is_relative, is_unsupported_template, read_tracks};
pub use side::{ReadList, ReadRepeat, Side, Track};
pub use templates::{auto_tracks, template_of};
pub use track_sizes::{length_or_percentage, track_from};
pub use unsupported::is_unsupported_before;
pub use values::{before, factor_of, flex_of, has_unit, integer_of, length_in, percentage_of};
pub use words::Words;
