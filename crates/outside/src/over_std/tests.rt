use super::*;
use std::io;
use std::test::Fail;

/// Fails at its second read, and has no byte left after its third. Takes nothing at its second write, fails at its third, and at its second flush.
#[derive(Drop)]
struct Device {
    calls: u8,
    flushes: u8,
}

impl Read for Device {
    fn read(&mut self, room: &mut [u8]) -> io::Result<usize> {
        self.calls = self.calls.saturating_add(1);
        if self.calls == 2 {
            return Err(io::Error::from(io::ErrorKind::TimedOut));
        }
        if room.is_empty() || self.calls > 3 {
            return Ok(0);
        }
        room[0] = self.calls;
        Ok(1)
    }
}

impl Write for Device {
    fn write(&mut self, piece: &[u8]) -> io::Result<usize> {
        self.calls = self.calls.saturating_add(1);
        match self.calls {
            2 => Ok(0),
            3 => Err(io::Error::from(io::ErrorKind::TimedOut)),
            _ => Ok(piece.len()),
        }
    }

    fn flush(&mut self) -> io::Result<()> {
        self.flushes = self.flushes.saturating_add(1);
        if self.flushes == 2 {
            return Err(io::Error::from(io::ErrorKind::TimedOut));
        }
        Ok(())
    }
}

const NEW: Device = Device {
    calls: 0,
    flushes: 0,
};

#[test]
fn counts_each_fault_and_flushes_each_piece(rt: HostRuntime) -> Result<(), Fail> {
    let mut source = StdSource::new(NEW);
    let mut room = [0; 4];
    assert_eq!(rt; source.read_piece(&mut room), Ok(1));
    assert_eq!(rt; source.read_piece(&mut room), Err(Failed));
    assert_eq!(rt; source.faults, 1);
    assert_eq!(rt; source.read_piece(&mut room), Ok(1));
    assert_eq!(rt; (room[0], source.faults), (3, 1));
    assert_eq!(rt; source.read_piece(&mut room), Ok(0));
    assert_eq!(rt; (source.faults, source.asked), (1, 4));

    let mut sink = StdSink::new(NEW);
    assert_eq!(rt; sink.write_piece(b"abc"), Ok(3));
    for faults in [1, 2, 3] {
        assert_eq!(rt; sink.write_piece(b"abc"), Err(SinkError::Failed));
        assert_eq!(rt; sink.faults, faults);
    }
    assert_eq!(rt; sink.write_piece(b"de"), Ok(2));
    assert_eq!(rt; sink.write_piece(b""), Ok(0));
    assert_eq!(rt; (sink.writer.flushes, sink.faults), (4, 3));
    Ok(())
}

/// Is interrupted at so many reads or writes, and at so many flushes, before it reads or takes one
/// byte, or flushes.
#[derive(Drop)]
struct Interrupted {
    calls: u32,
    flushes: u32,
}

/// Whether the system interrupts once more.
fn once_more(times: &mut u32) -> io::Result<()> {
    if *times == 0 {
        return Ok(());
    }
    *times -= 1;
    Err(io::Error::from(io::ErrorKind::Interrupted))
}

impl Read for Interrupted {
    fn read(&mut self, room: &mut [u8]) -> io::Result<usize> {
        once_more(&mut self.calls)?;
        if room.is_empty() {
            return Ok(0);
        }
        room[0] = 7;
        Ok(1)
    }
}

impl Write for Interrupted {
    fn write(&mut self, piece: &[u8]) -> io::Result<usize> {
        once_more(&mut self.calls)?;
        Ok(piece.len().min(1))
    }

    fn flush(&mut self) -> io::Result<()> {
        once_more(&mut self.flushes)
    }
}

const PATIENT: Interrupted = Interrupted {
    calls: 1000,
    flushes: 1000,
};

#[test]
fn interrupted_calls_are_made_again(rt: HostRuntime) -> Result<(), Fail> {
    let mut source = StdSource::new(PATIENT);
    let mut room = [0; 4];
    assert_eq!(rt; source.read_piece(&mut room), Ok(1));
    assert_eq!(rt; (room[0], source.faults, source.asked), (7, 0, 1));
    source.reader.calls = 1001;
    assert_eq!(rt; source.read_piece(&mut room), Err(Failed));
    assert_eq!(rt; (source.faults, source.asked), (1, 2));

    let mut sink = StdSink::new(PATIENT);
    assert_eq!(rt; sink.write_piece(b"abc"), Ok(1));
    sink.writer.calls = 1001;
    assert_eq!(rt; sink.write_piece(b"abc"), Err(SinkError::Failed));
    sink.writer.flushes = 1001;
    assert_eq!(rt; sink.write_piece(b"abc"), Err(SinkError::Failed));
    assert_eq!(rt; sink.faults, 2);
    Ok(())
}
