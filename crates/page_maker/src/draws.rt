ghost use Rattle.std.specs.Prelude.{◌≡◌, ◌<◌};
ghost use Rattle.page_maker.specs.Draws.{stepped, drawn};

/// Numbers that are drawn one after another (own rule).
#[derive(Clone, Copy, Debug)]
pub struct Draws {
    /// The state, which each draw steps first. The seed is the first state.
    pub state: u64,
}

#[tactic(auto, unfolding(crate::specs::Draws::stepped))]
/// The state after this one.
fn stepped(state: u64) -> u64
    ensures { result ≡ stepped state }
{
    let sum = state as u128 * 6_364_136_223_846_793_005 + 1_442_695_040_888_963_407;
    (sum % (1 << 64)) as u64
}

impl Draws {
    #[tactic(auto, unfolding(crate::specs::Draws::drawn))]
    /// Draws a number below `below`.
    pub fn draw(&mut self, below: u64) -> u64
        requires { 0 < below }
        ensures value { result ≡ drawn below (stepped self.old.state) }
        ensures state { self.new.state ≡ stepped self.old.state }
        ensures less { result < below }
    {
        let next = stepped(self.state);
        let number = next / (1 << 33) % below;
        self.state = next;
        number
    }
}
