ghost use Rattle.std.specs.Prelude.{◌≡◌};
ghost use Rattle.session.specs.FaultNames.{fault_name};

use text_scan::{BAD_BYTE, LINE_TOO_LONG};
use track_text::{BAD_VALUE, UNSUPPORTED};
use value_text::UNKNOWN_PROPERTY;

const BAD_HEADER: u8 = 3;

const BAD_INDENT: u8 = 4;

const BAD_NAME: u8 = 5;

const DUPLICATE_NAME: u8 = 6;

const UNKNOWN_KIND: u8 = 7;

const DUPLICATE_PROPERTY: u8 = 10;

const TOO_DEEP: u8 = 12;

const TOO_MANY_NODES: u8 = 13;

const LEAF_HAS_CHILDREN: u8 = 14;

const SECOND_ROOT: u8 = 15;

const NO_ROOT: u8 = 16;

const UNKNOWN_EDIT: u8 = 20;

const UNKNOWN_NAME: u8 = 21;

const ROOT: u8 = 22;

const CYCLE: u8 = 23;

const BAD_INDEX: u8 = 24;

pub(crate) const NOTHING_TO_UNDO: u8 = 25;

pub(crate) const NOTHING_TO_REDO: u8 = 26;

#[tactic(auto, unfolding(crate::specs::FaultNames::fault_name))]
/// The name of the fault of a number, as it is printed.
pub(crate) fn fault_name(number: u8) -> &'static [u8]
    ensures { result.now ≡ fault_name number }
{
    match number {
        BAD_BYTE => b"bad-byte",
        LINE_TOO_LONG => b"line-too-long",
        BAD_HEADER => b"bad-header",
        BAD_INDENT => b"bad-indent",
        BAD_NAME => b"bad-name",
        DUPLICATE_NAME => b"duplicate-name",
        UNKNOWN_KIND => b"unknown-kind",
        UNKNOWN_PROPERTY => b"unknown-property",
        BAD_VALUE => b"bad-value",
        DUPLICATE_PROPERTY => b"duplicate-property",
        UNSUPPORTED => b"unsupported",
        TOO_DEEP => b"too-deep",
        TOO_MANY_NODES => b"too-many-nodes",
        LEAF_HAS_CHILDREN => b"leaf-has-children",
        SECOND_ROOT => b"second-root",
        NO_ROOT => b"no-root",
        UNKNOWN_EDIT => b"unknown-edit",
        UNKNOWN_NAME => b"unknown-name",
        ROOT => b"root",
        CYCLE => b"cycle",
        BAD_INDEX => b"bad-index",
        NOTHING_TO_UNDO => b"nothing-to-undo",
        NOTHING_TO_REDO => b"nothing-to-redo",
        _ => b"",
    }
}
