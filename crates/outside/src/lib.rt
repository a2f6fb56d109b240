//! The outside as the layout engine sees it: a source that bytes are read from, a sink that bytes are written to, and a ruler
//! that measures leaves and may keep a log. Each is a trait, with forms in memory for tests and proofs, and forms over std.
#![tactic(auto)]

mod again;
mod event;
mod memory;
mod over_std;
mod ruler;
mod sink;
mod source;
mod sure;
mod tally;

pub use event::{Event, Width};
pub use memory::{MemorySink, MemorySource};
pub use over_std::{StdSink, StdSource};
pub use ruler::{LogRuler, Ruler, WordRuler};
pub use sink::{Sink, SinkError, write_all};
pub use source::{Failed, Source};
pub use sure::{SureSink, SureSource};
pub use tally::Tally;
pub use word_leaf::Content;
