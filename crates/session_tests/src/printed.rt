//! What an engine counts and lays out, and the text of its boxes, where there is memory.

ghost use Rattle.std.specs.Prelude.{◌≡◌, ◌<◌};

use crate::engines::{AT, emptied};
use doc_text::{Edit, Named};
use lunit::{Name, NoMemory, Steps};
use outside::LogRuler;
use session::{Engine, print_boxes};
use std::alloc::Global;
use std::marker::Brand;
use std::process::Abort;
use std::sync::ledger::{Blank, Ledger};
use std::test::Fail;

/// A row of three children, of which the second is a row of one: all are as high as the highest.
static PRINTED: &[u8] = b"layout 7
main 0 0 100 10
a 0 0 20 10
b 20 0 5 10
x 20 0 5 10
c 25 0 10 10
";

/// The boxes of an engine as they are printed with the number 7.
fn printed<L: Ledger>(alloc: Global, engine: &mut Engine, blank: Blank) -> Result<Vec<u8>, NoMemory>
    requires name { blank.name ≡ L.name }
    requires parts { blank.parts ≡ L.parts }
    requires some { 0 < blank.parts }
{
    let mut ruler = LogRuler::new(alloc);
    let mut passes: Steps<L> = Steps::new(blank);
    let layout = engine.layout(7, &mut ruler, &mut passes)?;
    print_boxes(alloc, 7, layout.boxes.as_slice())
}

#[test]
fn boxes_are_laid_out_and_printed(rt: HostRuntime) -> Result<(), Fail> {
    let mut engine = emptied(rt.alloc())?;
    engine.apply(Edit::Undo(3, AT))?;
    let text = printed::<Brand>(rt.alloc(), &mut engine, Blank::new(1))?;
    assert_eq!(rt; text.as_slice(), PRINTED);
    Ok(())
}

/// Three edits were made, and one more is refused.
#[test]
fn refused_calls_are_counted_too(rt: HostRuntime) -> Result<(), Fail> {
    let mut engine = emptied(rt.alloc())?;
    let name = Name::read(b"main")?;
    let refused = engine.apply(Edit::Remove(Named { name, at: AT })).is_err();
    assert_eq!(rt; (refused, engine.calls()), (true, 4));
    Ok(())
}
