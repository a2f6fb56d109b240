use crate::Runs;
use lunit::{Copied, NameSet, NoMemory, Sequence};

#[derive(Debug, Drop)]
struct Fail;

impl From<NoMemory> for Fail {
    fn from(_error: NoMemory) -> Fail {
        Fail
    }
}

/// Two sets of no names, five times, as far as seven have room, and one behind them.
#[test]
fn a_part_of_a_time_is_kept(rt: HostRuntime) -> Result<(), Fail> {
    let alloc = rt.alloc();
    let mut body = Sequence::new(alloc);
    body.push(NameSet::new(alloc)).map_err(|_| NoMemory)?;
    body.push(NameSet::new(alloc)).map_err(|_| NoMemory)?;
    let runs = Runs::new(alloc).with_times(alloc, 7, 5, body)?;
    assert_eq!(rt; runs.len(), 7);
    assert_eq!(rt; runs.get(6).is_some(), true);
    assert_eq!(rt; runs.get(7).is_some(), false);
    let mut one = Sequence::new(alloc);
    one.push(NameSet::new(alloc)).map_err(|_| NoMemory)?;
    let both = runs.joined(Runs::of(alloc, one)?)?;
    assert_eq!(rt; both.copy(alloc)? == both, true);
    assert_eq!(rt; both.written(alloc)?.len(), 8);
    Ok(())
}
