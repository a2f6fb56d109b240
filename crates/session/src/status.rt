ghost use Rattle.std.specs.Prelude.{◌≡◌};
ghost use Rattle.session.specs.Words.{code_of};

use lunit::NoMemory;
use outside::{Failed, SinkError};

/// How a run ended.
#[derive(Clone, Copy, Debug, PartialEq, Eq)]
pub enum Status {
    /// The input was read to its end, and everything in it was done.
    Done,
    /// The document has a fault, or a form that is not built.
    BadDocument,
    /// The input was read to its end, and some edit was refused.
    SomeRefused,
    /// The source failed: its count of faults rose.
    ReadFault,
    /// The sink failed: its count of faults rose.
    WriteFault,
    /// Want of memory.
    NoMemory,
    /// The input has more than 2^26 bytes.
    InputLimit,
    /// The line of a node would have more than 65,536 bytes, under `write`.
    TooLong,
    /// The words are none that the program knows.
    BadWords,
}

impl Status {
    /// The number that the program ends with: 0, 2 to 8 and 64, in the order of the enum.
    pub fn code(&self) -> u8
        ensures { result ≡ code_of self.now }
    {
        match self {
            Status::Done => 0,
            Status::BadDocument => 2,
            Status::SomeRefused => 3,
            Status::ReadFault => 4,
            Status::WriteFault => 5,
            Status::NoMemory => 6,
            Status::InputLimit => 7,
            Status::TooLong => 8,
            Status::BadWords => 64,
        }
    }
}

impl From<NoMemory> for Status {
    ghost use Rattle.std.specs.Prelude.{◌≡◌};
    ghost use Rattle.session.specs.declared.status.Status.TheVariants.{NoMemory};

    ghost from_gives = { λ _ status. status ≡ NoMemory };

    fn from(_error: NoMemory) -> Status {
        Status::NoMemory
    }
}

impl From<Failed> for Status {
    ghost use Rattle.std.specs.Prelude.{◌≡◌};
    ghost use Rattle.session.specs.declared.status.Status.TheVariants.{ReadFault};

    ghost from_gives = { λ _ status. status ≡ ReadFault };

    fn from(_error: Failed) -> Status {
        Status::ReadFault
    }
}

impl From<SinkError> for Status {
    ghost use Rattle.std.specs.Prelude.{◌≡◌};
    ghost use Rattle.session.specs.Words.{status_of};

    ghost from_gives = { λ error status. status ≡ status_of error };

    fn from(error: SinkError) -> Status {
        match error {
            SinkError::Failed => Status::WriteFault,
            SinkError::NoMemory => Status::NoMemory,
        }
    }
}
