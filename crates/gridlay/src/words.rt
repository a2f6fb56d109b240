use session::Status;
use std::alloc::Global;
use std::env::{Env, FillError};
use std::str;

/// More bytes than any word that the program takes.
const ROOM: usize = 256;

/// More words than the program takes, with its name.
const MOST: usize = 16;

/// The bytes as a text. `BadWords` where they are not UTF-8.
fn text_of(alloc: Global, bytes: &[u8]) -> Result<String, Status> {
    match str::from_utf8(bytes) {
        Ok(text) => match String::from_str(alloc, text) {
            Ok(word) => Ok(word),
            Err(_) => Err(Status::NoMemory),
        },
        Err(_) => Err(Status::BadWords),
    }
}

/// The word of this number, 0 being the program's name; `None` after the last. `BadWords` where it is not UTF-8, or longer
/// than any word that the program takes.
fn word<E: Env>(env: &E, alloc: Global, number: usize) -> Result<Option<String>, Status> {
    let mut room = [0; ROOM];
    match env.arg(number, &mut room) {
        Ok(length) => match text_of(alloc, &room[..length]) {
            Ok(word) => Ok(Some(word)),
            Err(status) => Err(status),
        },
        Err(FillError::NotPresent) => Ok(None),
        Err(FillError::TooLong) => Err(Status::BadWords),
    }
}

/// The words after the program's name, which is not looked at, so that any name will do. `BadWords` where a word is not UTF-8
/// or there are more than the program takes, `NoMemory` for want of memory.
pub fn words_of<E: Env>(env: &E, alloc: Global) -> Result<Vec<String>, Status> {
    let mut words = Vec::new(alloc);
    for number in 1..MOST {
        match word(env, alloc, number) {
            Ok(Some(word)) => {
                if words.push(word).is_err() {
                    return Err(Status::NoMemory);
                }
            }
            Ok(None) => return Ok(words),
            Err(status) => return Err(status),
        }
    }
    Err(Status::BadWords)
}

#[cfg(test)]
mod tests {
    use super::*;

    /// A program that was called with these words, its name first.
    #[derive(Drop)]
    struct Called<'a> {
        words: &'a [&'a [u8]],
    }

    impl Env for Called<'_> {
        fn arg(&self, i: usize, buf: &mut [u8]) -> Result<usize, FillError> {
            let word = match self.words.get(i) {
                Some(word) => *word,
                None => return Err(FillError::NotPresent),
            };
            if word.len() > buf.len() {
                return Err(FillError::TooLong);
            }
            buf[..word.len()].copy_from_slice(word);
            Ok(word.len())
        }

        fn var(&self, _name: &str, _buf: &mut [u8]) -> Result<usize, FillError> {
            Err(FillError::NotPresent)
        }

        fn var_at(&self, _i: usize, _buf: &mut [u8]) -> Result<usize, FillError> {
            Err(FillError::NotPresent)
        }
    }

    /// How many words there are, or why not.
    fn count_of(alloc: Global, words: &[&[u8]]) -> Result<usize, Status> {
        match words_of(&Called { words }, alloc) {
            Ok(words) => Ok(words.len()),
            Err(status) => Err(status),
        }
    }

    /// Whether the words after the program's name are these, in their order.
    fn are_read(alloc: Global, called: &[&[u8]], want: &[&str]) -> bool {
        match words_of(&Called { words: called }, alloc) {
            Ok(words) => {
                words.len() == want.len()
                    && (0..want.len()).all(|index| words[index].as_str() == want[index])
            }
            Err(_) => false,
        }
    }

    #[test]
    fn all_words_of_a_command_are_read_as_they_are(rt: HostRuntime) {
        let alloc = rt.alloc();
        assert!(rt;
            are_read(
                alloc,
                &[b"gridlay", b"layout", b"--stats"],
                &["layout", "--stats"]
            )
        );
        assert!(rt;
            are_read(
                alloc,
                &[b"gridlay", b"make", b"--seed", b"1", b"--nodes", b"2"],
                &["make", "--seed", "1", "--nodes", "2"],
            )
        );
        assert!(rt; are_read(alloc, &[b"gridlay"], &[]));
    }

    #[test]
    fn words_that_are_no_text_are_bad_words(rt: HostRuntime) {
        let alloc = rt.alloc();
        assert!(rt; count_of(alloc, &[b"gridlay", b"layout"]) == Ok(1));
        assert!(rt; count_of(alloc, &[b"\xff", b"layout"]) == Ok(1));
        assert!(rt; count_of(alloc, &[b"gridlay"]) == Ok(0));
        assert!(rt; count_of(alloc, &[b"gridlay", b"lay\xff"]) == Err(Status::BadWords));
        assert!(rt; count_of(alloc, &[b"gridlay", [b'a'; 256].as_slice()]) == Ok(1));
        assert!(rt;
            count_of(alloc, &[b"gridlay", [b'a'; 257].as_slice()]) == Err(Status::BadWords)
        );
        assert!(rt; count_of(alloc, [b"w".as_slice(); 16].as_slice()) == Err(Status::BadWords));
    }
}
