//! The draws of a generated load.

ghost use Rattle.std.specs.Prelude.{◌≡◌, ◌<◌};
ghost use Rattle.bd_script.specs.Generated.{next_state, state_after, number_below};

/// What a draw multiplies its state by.
const MULTIPLIER: u64 = 6_364_136_223_846_793_005;

/// What it then adds.
const INCREMENT: u64 = 1_442_695_040_888_963_407;

/// Numbers that are drawn one after the other, each a function of the state.
#[derive(Clone, Copy, Debug)]
pub(crate) struct Draws {
    state: u64,
}

impl Draws {
    /// The draws from a seed on.
    pub(crate) fn new(seed: u32) -> Draws
        ensures { result.state ≡ seed }
    {
        Draws {
            state: u64::from(seed),
        }
    }

    /// Makes a draw, which gives a number below `n`.
    pub(crate) fn below(&mut self, n: u16) -> u16
        requires { 0 < n }
        ensures state { self.new.state ≡ next_state self.old.state }
        ensures number { result ≡ number_below n self.new.state }
        ensures bound { result < n }
    {
        self.step();
        ((self.state >> 33) % u64::from(n)) as u16
    }

    /// These draws after so many more.
    pub(crate) fn after(self, count: u64) -> Draws
        ensures { result.state ≡ state_after self.state count }
    {
        let mut draws = self;
        for _ in 0..count {
            draws.step();
        }
        draws
    }

    /// Goes on by one draw.
    #[tactic(auto, unfolding(crate::specs::Generated::next_state))]
    fn step(&mut self)
        ensures { self.new.state ≡ next_state self.old.state }
    {
        self.state = self.state.wrapping_mul(MULTIPLIER).wrapping_add(INCREMENT);
    }
}
