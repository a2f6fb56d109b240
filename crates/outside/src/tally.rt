ghost use Rattle.std.specs.Prelude.{◌≡◌, ◌||◌, false};
ghost use Rattle.outside.specs.Faults.{one_more};

/// How often a layout measured a leaf, how many answers it kept, and whether others went for these. A count that reached 2^64 - 1
/// stands still.
#[derive(Clone, Copy, Debug, Default, PartialEq, Eq)]
pub struct Tally {
    /// The events of measuring.
    pub measured: u64,
    /// The answers that were put.
    pub added: u64,
    /// Whether an answer went since its list was full.
    pub lost: bool,
}

impl Tally {
    /// Counts nothing yet.
    pub fn new() -> Tally
        ensures { result ≡ record { measured = 0; added = 0; lost = false } }
    {
        Tally {
            measured: 0,
            added: 0,
            lost: false,
        }
    }

    /// Counts one more event of measuring.
    pub fn count_measured(&mut self)
        ensures { self.new ≡ record self.old { measured = one_more self.old.measured } }
    {
        self.measured = self.measured.saturating_add(1);
    }

    /// Counts one more answer, and notes whether an older one went for it.
    pub fn count_added(&mut self, gone: bool)
        ensures { self.new ≡
            record self.old { added = one_more self.old.added; lost = self.old.lost || gone } }
    {
        self.added = self.added.saturating_add(1);
        self.lost = self.lost || gone;
    }
}
