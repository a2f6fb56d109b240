ghost use Rattle.std.specs.Prelude.{◌≡◌, List, [], Option, Some, None, IsOk, IfOk};
ghost use Rattle.word_leaf.specs.Leaves.{IsMeasurable};
ghost use Rattle.outside.specs.Logging.{Logs};
ghost use Rattle.outside.specs.Measuring.{measured};
ghost use Rattle.outside.specs.declared.event.Event.{Event};
ghost use Rattle.outside.specs.declared.event.Event.TheVariants.{Begin, Measured};

use crate::event::{Event, Width};
use lunit::{Lu, Name, NoMemory};
use std::alloc::Global;
use std::marker::Model;
use word_leaf::{Content, height_at, narrowest, widest};

/// What measures leaves, and may keep a log of what it was asked.
pub trait Ruler {
    /// What was asked and answered, the oldest first, where it tells it.
    ghost log: { Self → Option (List Event) };

    /// The layout with the number `k` begins. Ok logs `Event::Begin(k)`, and `NoMemory`, which is want of memory for the log,
    /// logs nothing.
    fn begin(&mut self, k: u32) -> Result<(), NoMemory>
        ensures log { Logs (log self.old) (log self.new) (Event.Begin k) result };

    /// The narrowest width of the leaf's content, its widest width, or its height at a content width. Ok logs
    /// `Event::Measured` of the name and what was asked, and `NoMemory`, which is want of memory for the log, logs nothing.
    /// There is no other error.
    fn measure(&mut self, leaf: &Name, content: &Content, width: Width) -> Result<Lu, NoMemory>
        requires { IsMeasurable content.now }
        ensures log { Logs (log self.old) (log self.new) (Event.Measured leaf.now width) result }
        ensures value { IfOk result (λ size. size ≡ measured content.now width) };
}

/// What a leaf measures, by its words.
fn measured(content: &Content, width: Width) -> Lu
    requires { IsMeasurable content.now }
    ensures { result ≡ measured content.now width }
{
    match width {
        Width::Narrowest => narrowest(content),
        Width::Widest => widest(content),
        Width::At(width) => height_at(content, width),
    }
}

/// Logs that a leaf was measured; changes nothing where memory is wanting.
fn log_measured(events: &mut Vec<Event>, leaf: &Name, width: &Width) -> Result<(), NoMemory>
    ensures { Logs (Some events.old.items) (Some events.new.items)
        (Event.Measured leaf.now width.now) result }
{
    events.extend_from_slice(&[Event::Measured(*leaf, *width)])?;
    Ok(())
}

/// A ruler that tells its log. Contracts see the events.
#[derive(Drop)]
pub struct LogRuler {
    events: Vec<Event>,
}

impl Model for LogRuler {
    ghost use Rattle.std.specs.Prelude.{List};
    ghost use Rattle.outside.specs.declared.event.Event.{Event};

    ghost Value = { List Event };

    ghost view = { λ a. a.events.items };
}

impl LogRuler {
    /// A ruler that was asked nothing. Takes no memory.
    pub fn new(alloc: Global) -> LogRuler
        ensures { result ≡ [] }
    {
        LogRuler {
            events: Vec::new(alloc),
        }
    }

    /// What was logged, the oldest first.
    pub fn events(&self) -> &[Event]
        ensures { result.now ≡ self.now }
    {
        &self.events
    }
}

impl Ruler for LogRuler {
    ghost log = { λ events. Some events };

    fn begin(&mut self, k: u32) -> Result<(), NoMemory> {
        self.events.extend_from_slice(&[Event::Begin(k)])?;
        Ok(())
    }

    fn measure(&mut self, leaf: &Name, content: &Content, width: Width) -> Result<Lu, NoMemory> {
        log_measured(&mut self.events, leaf, &width)?;
        Ok(measured(content, width))
    }
}

/// A ruler that keeps no log and takes no memory.
#[derive(Clone, Copy, Debug, Default, PartialEq, Eq)]
pub struct WordRuler;

impl WordRuler {
    /// A ruler that tells no log. Takes no memory.
    pub fn new() -> WordRuler
        ensures { ⟦<WordRuler as Ruler>⟧.log result ≡ None }
    {
        WordRuler
    }
}

impl Ruler for WordRuler {
    ghost log = { λ _. None };

    /// Answers Ok always.
    fn begin(&mut self, k: u32) -> Result<(), NoMemory>
        ensures log { Logs None None (Event.Begin k) result }
        ensures sure { IsOk result }
    {
        Ok(())
    }

    /// Answers Ok always.
    fn measure(&mut self, leaf: &Name, content: &Content, width: Width) -> Result<Lu, NoMemory>
        requires { IsMeasurable content.now }
        ensures log { Logs None None (Event.Measured leaf.now width) result }
        ensures value { IfOk result (λ size. size ≡ measured content.now width) }
        ensures sure { IsOk result }
    {
        Ok(measured(content, width))
    }
}
