//! Draws of numbers.
ghost use Rattle.std.specs.Prelude.{◌≡◌, ◌<◌, ◌%◌};
ghost use Rattle.made_laws.specs.Draws.{next_state, upper};

/// The state from which numbers are drawn: a linear congruential generator over 64 bits, of which the upper 32 are used.
#[derive(Drop)]
pub struct Draws {
    pub state: u64,
}

impl Draws {
    /// The state from which the first number is drawn.
    pub fn from_seed(seed: u32) -> Self
        ensures { result.state ≡ seed }
    {
        Draws {
            state: u64::from(seed),
        }
    }

    /// A number below `below`.
    pub fn draw(&mut self, below: u32) -> u32
        requires { 0 < below }
        ensures state { self.new.state ≡ next_state self.old.state }
        ensures value { result ≡ upper self.new.state % below }
        ensures within { result < below }
    {
        let state = self
            .state
            .wrapping_mul(6_364_136_223_846_793_005)
            .wrapping_add(1_442_695_040_888_963_407);
        self.state = state;
        (state >> 32) as u32 % below
    }
}
