//! The line of the counts of a layout.

ghost use Rattle.std.specs.Prelude.{◌≡◌, ◌++◌, OnOk, decimal};
ghost use Rattle.session.specs.Printing.{counts, stats_line};

use itoa::Buffer;
use lunit::NoMemory;

pub(crate) fn append(out: &mut Vec<u8>, text: &[u8]) -> Result<(), NoMemory>
    ensures ok { OnOk result (out.new.items ≡ out.old.items ++ text.now) }
{
    out.extend_from_slice(text)?;
    Ok(())
}

pub(crate) fn append_count(out: &mut Vec<u8>, count: u64) -> Result<(), NoMemory>
    ensures ok { OnOk result (out.new.items ≡ out.old.items ++ decimal count) }
{
    let mut buffer = Buffer::new();
    append(out, buffer.format(count).as_bytes())
}

#[tactic(auto, unfolding(crate::specs::Printing::stats_line))]
fn append_stats(out: &mut Vec<u8>, measured: u64, added: u64) -> Result<(), NoMemory>
    ensures ok { OnOk result (out.new.items ≡ out.old.items ++ stats_line measured added) }
{
    append(out, b"stats ")?;
    append_count(out, measured)?;
    append(out, b" ")?;
    append_count(out, added)?;
    append(out, b"\n")
}

/// Adds the line `stats M A` of the counts of a layout, where it is wanted.
pub(crate) fn append_counts(
    out: &mut Vec<u8>,
    stats: bool,
    measured: u64,
    added: u64,
) -> Result<(), NoMemory>
    ensures ok { OnOk result (out.new.items ≡ out.old.items ++ counts stats measured added) }
{
    if stats {
        append_stats(out, measured, added)
    } else {
        Ok(())
    }
}
