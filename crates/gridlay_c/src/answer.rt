//! What the program writes for an input.
ghost use Rattle.std.specs.Prelude.{◌≡◌, ◌<◌, [], false, Some, IfOk};
ghost use Rattle.command_words.specs.declared.Command.TheVariants.{Layout};
ghost use Rattle.session.specs.Words.{asked};
ghost use Rattle.gridlay_c.specs.Program.{HasAnswered, IsAnswer};

use crate::answers::MEMORY;
use crate::rooms::fill_as;
use lunit::Steps;
use outside::{SureSink, SureSource, WordRuler};
use session::{Status, run};
use std::alloc::{AllocError, Global};
use std::marker::Brand;
use std::sync::ledger::{Blank, Ledger};

/// The words that the program is started with.
fn layout_words(alloc: Global) -> Result<Vec<String>, AllocError>
    ensures { IfOk result (λ words. asked words.items ≡ Some (Layout false)) }
{
    let mut words = Vec::new(alloc);
    words.push(String::from_str(alloc, "layout")?)?;
    Ok(words)
}

/// Runs the program on what a source has left, over a sink with nothing written.
fn run_layout<L: Ledger>(
    alloc: Global,
    words: Vec<String>,
    source: &mut SureSource,
    sink: &mut SureSink,
    passes: &mut Steps<L>,
) -> Status
    requires words { asked words.items ≡ Some (Layout false) }
    requires empty { sink.old ≡ [] }
    ensures { IsAnswer source.old.left sink.new result }
{
    let mut ruler = WordRuler::new();
    run(alloc, words, source, sink, &mut ruler, passes)
}

/// Runs the program on an input.
fn run_on<L: Ledger>(alloc: Global, input: &[u8], sink: &mut SureSink, blank: Blank) -> Status
    requires name { blank.name ≡ L.name }
    requires parts { blank.parts ≡ L.parts }
    requires some { 0 < blank.parts }
    requires empty { sink.old ≡ [] }
    ensures { IsAnswer input.now sink.new result }
{
    let Ok(words) = layout_words(alloc) else {
        return Status::NoMemory;
    };
    let Ok(bytes) = Vec::from_slice(alloc, input) else {
        return Status::NoMemory;
    };
    let mut source = SureSource::new(bytes);
    let mut passes: Steps<L> = Steps::new(blank);
    run_layout(alloc, words, &mut source, sink, &mut passes)
}

/// Tells what the program writes for an input, and answers its status.
pub(crate) fn answer(alloc: Global, input: &[u8], room: &mut [u8], length: &mut usize) -> u8
    ensures { HasAnswered input.now room.old room.new length.new result }
{
    let mut sink = SureSink::new(alloc);
    match run_on::<Brand>(alloc, input, &mut sink, Blank::new(1)) {
        Status::NoMemory => MEMORY,
        status => fill_as(status.code(), sink.bytes(), room, length),
    }
}
