//! The sure devices, which a run does not have, and counts at their end. Devices that fail and logs
//! stand in `session_tests`.

ghost use Rattle.std.specs.Prelude.{◌≢◌, Err};

use outside::{Sink, SinkError, Source, SureSink, SureSource, Tally, write_all};
use std::test::Fail;

/// A generic call over the sure sink has no fault to answer, by the sink's count alone.
fn write_surely(sink: &mut SureSink, bytes: &[u8]) -> Result<(), SinkError>
    ensures { result ≢ Err SinkError.Failed }
{
    write_all(sink, bytes)
}

#[test]
fn a_sure_source_does_not_fail(rt: HostRuntime) -> Result<(), Fail> {
    let mut source = SureSource::new(Vec::from_slice(rt.alloc(), b"hello")?);
    let mut room = [0; 3];
    assert_eq!(rt; source.read_piece(&mut room), Ok(3));
    assert_eq!(rt; source.read_piece(&mut room), Ok(2));
    assert_eq!(rt; source.read_piece(&mut room), Ok(0));
    assert_eq!(rt; room.as_slice(), b"lol".as_slice());
    Ok(())
}

#[test]
fn a_sure_sink_does_not_fail(rt: HostRuntime) -> Result<(), Fail> {
    let mut sink = SureSink::new(rt.alloc());
    assert_eq!(rt; write_surely(&mut sink, b"hello"), Ok(()));
    assert_eq!(rt; sink.write_piece(b", you"), Ok(5));
    assert_eq!(rt; sink.bytes(), b"hello, you".as_slice());
    Ok(())
}

#[test]
fn counts_stand_still_at_their_end(rt: HostRuntime) {
    let mut tally = Tally {
        measured: u64::MAX - 1,
        added: 0,
        lost: false,
    };
    for _ in 0..2 {
        tally.count_measured();
        tally.count_added(false);
    }
    assert_eq!(rt; (tally.measured, tally.added), (u64::MAX, 2));
    assert!(rt; !tally.lost);
    assert_eq!(rt;
        Tally::new(),
        Tally {
            measured: 0,
            added: 0,
            lost: false
        }
    );
}
