// The whole run of a recording against a table: verdict, accepted steps, configuration.
#![tactic(auto)]

mod whole_run;

use constraint::Configuration;
use limit::{Place, Refusal};
use recording::Time;
pub use whole_run::run;

// The number of accepted steps.
#[derive(Clone, Copy, Debug, PartialEq, Eq)]
pub struct Steps(pub u64);

// What a run says of a recording: every step is accepted; a constraint, by its table line, fails in the step at a time; or a limit is
// broken at a place.
#[derive(Clone, Copy, Debug, PartialEq, Eq)]
pub enum Verdict {
    Accepted,
    Violated(Place, Time),
    Refused(Refusal),
}

impl From<Refusal> for Verdict {
    ghost use Rattle.std.specs.Prelude.{◌≡◌};
    ghost use Rattle.run.specs.declared.Verdict.TheVariants.{Refused};

    ghost from_gives = { λ refusal verdict. verdict ≡ Refused refusal };

    fn from(refusal: Refusal) -> Verdict {
        Verdict::Refused(refusal)
    }
}

// What a run gives. The constraints are as many as the table has, 0 where it was refused; the configuration is that after the last
// accepted step.
#[derive(Clone, Copy, Debug, PartialEq, Eq)]
pub struct Report {
    pub verdict: Verdict,
    pub steps: Steps,
    pub constraints: usize,
    pub configuration: Configuration,
}
