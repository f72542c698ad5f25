//! The draws of the generator.
ghost use Rattle.std.specs.Prelude.{◌≡◌, ◌<◌, ◌≤◌, ◌^◌};
ghost use Rattle.rc_config.specs.Generator.{next_state, drawn};

use std::marker::Model;

/// The state of the draws, a number below 2^31.
#[derive(Drop)]
pub(crate) struct Draws {
    state: u32,
}

impl Model for Draws {
    ghost use Rattle.std.specs.Prelude.{ℕ, ◌<◌, ◌^◌};

    ghost Value = { ℕ };

    ghost view = { λ d. d.state };

    ghost invariant = { λ d. d.state < 2 ^ 31 };
}

/// The state after one more draw.
fn next(state: u32) -> u32
    requires { state < 2 ^ 31 }
    ensures value { result ≡ next_state state }
    ensures range { result < 2 ^ 31 }
{
    ((1_103_515_245 * u64::from(state) + 12_345) % (1 << 31)) as u32
}

impl Draws {
    /// The draws from this state on.
    pub(crate) fn new(state: u32) -> Draws
        requires { state < 2 ^ 31 }
        ensures { result ≡ state }
    {
        Draws { state }
    }

    /// The next draw below the limit.
    pub(crate) fn below(&mut self, limit: u32) -> u32
        requires { 1 ≤ limit }
        ensures state { self.new ≡ next_state self.old }
        ensures draw { result ≡ drawn limit self.new }
        ensures range { result < limit }
    {
        self.state = next(self.state);
        self.state / 65_536 % limit
    }
}
