ghost use Rattle.std.specs.Prelude.{◌≡◌};
ghost use Rattle.session.specs.Script.{is_refusal};

use lunit::Name;
use text_scan::Fault;

/// What is said of a line of the script for which nothing is laid out.
#[derive(Clone, Copy, Debug, PartialEq, Eq)]
pub(crate) enum Said {
    /// The line is refused, for this fault.
    Refused(Fault),
    /// The box of this name lies under the point of a hit, or none does.
    Found(Option<Name>),
}

impl Said {
    /// Whether it is a refusal.
    pub(crate) fn is_refusal(&self) -> bool
        ensures { result ≡ is_refusal self.now }
    {
        match self {
            Said::Refused(_) => true,
            Said::Found(_) => false,
        }
    }
}
