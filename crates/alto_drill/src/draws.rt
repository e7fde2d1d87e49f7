ghost use Rattle.std.specs.Prelude.{◌≡◌};
ghost use Rattle.alto_drill.specs.Draws.{draw_of, next_state};

/// The factor and the summand by which the generator steps.
const FACTOR: u64 = 6_364_136_223_846_793_005;

const SUMMAND: u64 = 1_442_695_040_888_963_407;

/// How many low bits a draw leaves out.
const LOW_BITS: u32 = 33;

/// A generator of numbers, by its state.
#[derive(Drop)]
pub(crate) struct Draws {
    pub(crate) state: u64,
}

impl Draws {
    /// A generator that begins at a number.
    pub(crate) fn new(number: u32) -> Draws
        ensures { result.state ≡ number }
    {
        Draws {
            state: u64::from(number),
        }
    }

    /// The next draw, a number of 31 bits.
    #[tactic(auto, unfolding(crate::specs::Draws::next_state))]
    pub(crate) fn next(&mut self) -> u64
        ensures state { self.new.state ≡ next_state self.old.state }
        ensures draw { result ≡ draw_of self.new.state }
    {
        self.state = self.state.wrapping_mul(FACTOR).wrapping_add(SUMMAND);
        self.state >> LOW_BITS
    }
}
