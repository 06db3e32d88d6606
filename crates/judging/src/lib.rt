// One step of all records, on values: the ticks of implicit clocks are worked out, every constraint is judged, and every word moved, with the words
// from before the step.
#![tactic(auto)]

mod step;

use limit::{Place, Refusal};
pub use step::judge;

// Why a step that was judged is not taken: the record at a place, from 1, is the first that fails; or the word of the record at a place would leave
// its million.
#[derive(Clone, Copy, Debug, PartialEq, Eq)]
pub enum NotHeld {
    Failed(Place),
    PastMillion(Place),
}

// Why a single step is not taken: it is violated, with the first record that fails, from 1; or refused.
#[derive(Clone, Copy, Debug, PartialEq, Eq)]
pub enum Stopped {
    Violated(Place),
    Refused(Refusal),
}

impl From<Refusal> for Stopped {
    ghost use Rattle.std.specs.Prelude.{◌≡◌};
    ghost use Rattle.judging.specs.declared.Stopped.TheVariants.{Refused};

    ghost from_gives = { λ refusal stopped. stopped ≡ Refused refusal };

    fn from(refusal: Refusal) -> Self {
        Stopped::Refused(refusal)
    }
}
