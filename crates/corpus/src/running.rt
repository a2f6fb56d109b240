use lunit::Steps;
use outside::{MemorySink, MemorySource, WordRuler};
use session::run;
use std::alloc::{AllocError, Global};
use std::sync::ledger::Ledger;

/// The words of a run, parted by spaces, and the most bytes that a piece of its input and of its output has; `None` for all at once.
#[derive(Clone, Copy)]
pub struct Way<'a> {
    pub words: &'a str,
    pub piece: Option<usize>,
}

/// How a run ended, and what it wrote.
#[derive(Drop)]
pub struct Ran {
    pub status: u8,
    pub written: Vec<u8>,
}

fn words_of(alloc: Global, words: &str) -> Result<Vec<String>, AllocError> {
    let mut list = Vec::new(alloc);
    for word in words.split_ascii_whitespace() {
        list.push(String::from_str(alloc, word)?)?;
    }
    Ok(list)
}

/// Runs the top call on an input in memory.
pub fn run_on<L: Ledger>(
    alloc: Global,
    way: &Way<'_>,
    input: &[u8],
    passes: &mut Steps<L>,
) -> Result<Ran, AllocError> {
    let (pieces, most) = match way.piece {
        Some(piece) => (vec![in alloc; piece; input.len()]?, piece),
        None => (Vec::new(alloc), usize::MAX),
    };
    let bytes = Vec::from_slice(alloc, input)?;
    let mut source = MemorySource::new(bytes, pieces, Vec::new(alloc));
    let mut sink = MemorySink::new(alloc, most, Vec::new(alloc));
    let mut ruler = WordRuler::new();
    let list = words_of(alloc, way.words)?;
    let status = run(alloc, list, &mut source, &mut sink, &mut ruler, passes);
    Ok(Ran {
        status: status.code(),
        written: Vec::from_slice(alloc, sink.bytes())?,
    })
}
