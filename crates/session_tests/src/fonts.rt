//! What is measured again where the font size is edited.

use crate::logs::{measured_in, times};
use crate::running::{WHOLE, run_logged};
use outside::{Event, LogRuler};
use std::process::Abort;
use std::test::Fail;

const EDITED: &[u8] = b"gridlay 2
viewport 300 100
main grid { font-size: 20px; grid-template-columns: 2em 1rem; column-gap: 0.5em }
  a leaf 0 10 { font-size: 0.5em; margin-left: 1em }
  b leaf 0 10
---
set main font-size: 10px
";

/// The two leaves are measured for the document, and again for the edit of its root.
fn check_events(rt: &impl Abort, events: &[Event]) {
    for k in 0..2 {
        let measured = measured_in(events, k);
        assert!(rt;
            times(measured, b"a") > 0 && times(measured, b"b") > 0,
            "layout {k}"
        );
    }
}

#[test]
fn an_edit_of_the_font_size_measures_what_is_below_again(rt: HostRuntime) -> Result<(), Fail> {
    let mut ruler = LogRuler::new(rt.alloc());
    run_logged(rt.alloc(), &["layout"], EDITED, WHOLE, &mut ruler)?;
    check_events(&rt, ruler.events());
    Ok(())
}
