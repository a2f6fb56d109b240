ghost use Rattle.std.specs.Prelude.{◌≡◌, Bool};

/// What a node of the arena tells of itself where answers are kept.
pub trait Linked {
    ghost subgrid: { Self → Bool };

    ghost forgotten: { Self → Self };

    /// Whether it is a grid with `subgrid` as at least one of its templates (CSS Grid 2, section 9).
    fn is_subgrid(&self) -> bool
        ensures { result ≡ subgrid self.now };

    /// Lets its kept answers go.
    fn forget(&mut self)
        ensures { self.new ≡ forgotten self.old };
}
