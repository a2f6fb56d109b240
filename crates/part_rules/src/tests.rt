use crate::Content;
use lunit::{Copied, Lu, NoMemory, Sequence};

#[derive(Debug, Drop)]
struct Fail;

impl From<NoMemory> for Fail {
    fn from(_error: NoMemory) -> Fail {
        Fail
    }
}

#[test]
fn a_copy_of_words_has_them_in_order(rt: HostRuntime) -> Result<(), Fail> {
    let words = Sequence::from_slice(rt.alloc(), &[Lu::of(40), Lu::of(7)])?;
    let content = Content::Words {
        line: Lu::of(20),
        space: Lu::of(4),
        words,
    };
    let copy = content.copy(rt.alloc())?;
    assert_eq!(rt; &copy, &content);
    Ok(())
}
