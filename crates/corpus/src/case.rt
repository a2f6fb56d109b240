use std::rt::Files;
use std::{fs, io, str};

/// What has to be written.
#[derive(Drop)]
pub enum Output {
    /// These bytes.
    Whole(Vec<u8>),
    /// These lines, in this order, perhaps among others.
    Among(Vec<u8>),
}

/// How a run has to end, and what it has to write.
#[derive(Drop)]
pub struct Due {
    pub status: u8,
    pub output: Output,
}

/// A case of the corpus, as its files tell it.
#[derive(Drop)]
pub struct Case {
    pub input: Vec<u8>,
    pub words: String,
    pub due: Due,
    /// What is due under the word `write`, where the case tells it.
    pub due_of_write: Option<Due>,
}

/// The bytes of one file of a case.
fn part(rt: &(impl Files + AllocGlobal), case: &str, ending: &str) -> io::Result<Vec<u8>> {
    let path = format!(in rt.alloc(); "{case}.{ending}")?;
    fs::read(rt, path.as_str())
}

/// The bytes of a file that a case may lack.
fn part_if_there(
    rt: &(impl Files + AllocGlobal),
    case: &str,
    ending: &str,
) -> io::Result<Option<Vec<u8>>> {
    match part(rt, case, ending) {
        Ok(bytes) => Ok(Some(bytes)),
        Err(error) if error.kind() == io::ErrorKind::NotFound => Ok(None),
        Err(error) => Err(error),
    }
}

fn text_of(bytes: &[u8]) -> io::Result<&str> {
    match str::from_utf8(bytes) {
        Ok(text) => Ok(text.trim_ascii()),
        Err(_) => Err(io::Error::from(io::ErrorKind::InvalidData)),
    }
}

fn status_of(bytes: &[u8]) -> io::Result<u8> {
    match text_of(bytes)?.parse::<u8>() {
        Ok(status) => Ok(status),
        Err(_) => Err(io::Error::from(io::ErrorKind::InvalidData)),
    }
}

/// The words in `NAME.words`, or `layout` where there is no such file.
fn words_of(rt: &(impl Files + AllocGlobal), case: &str) -> io::Result<String> {
    match part_if_there(rt, case, "words")? {
        Some(bytes) => Ok(String::from_str(rt.alloc(), text_of(&bytes)?)?),
        None => Ok(String::from_str(rt.alloc(), "layout")?),
    }
}

/// What is due: `NAME.status`, with the whole output in `NAME.out` or lines of it in `NAME.some`.
fn due_of(rt: &(impl Files + AllocGlobal), case: &str) -> io::Result<Due> {
    let status = status_of(&part(rt, case, "status")?)?;
    let output = match part_if_there(rt, case, "out")? {
        Some(bytes) => Output::Whole(bytes),
        None => Output::Among(part(rt, case, "some")?),
    };
    Ok(Due { status, output })
}

/// What is due under `write`: the whole output in `NAME.write`, and `NAME.write-status`.
fn due_of_write(rt: &(impl Files + AllocGlobal), case: &str) -> io::Result<Option<Due>> {
    let Some(bytes) = part_if_there(rt, case, "write")? else {
        return Ok(None);
    };
    let status = status_of(&part(rt, case, "write-status")?)?;
    let output = Output::Whole(bytes);
    Ok(Some(Due { status, output }))
}

/// Reads the files of a case, whose path is told without their endings.
pub fn read_case(rt: &(impl Files + AllocGlobal), case: &str) -> io::Result<Case> {
    Ok(Case {
        input: part(rt, case, "in")?,
        words: words_of(rt, case)?,
        due: due_of(rt, case)?,
        due_of_write: due_of_write(rt, case)?,
    })
}
