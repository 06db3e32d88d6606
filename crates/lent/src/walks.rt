// The single step and the same-place question on lent records, each a walk over them, and the lent monitor.
ghost use Rattle.std.specs.Prelude.{◌≡◌};
ghost use Rattle.constraint.specs.SamePlace.{answer, Answered};
ghost use Rattle.lent.specs.Lent.{moved_to};
ghost use Rattle.judging.specs.Single.{step_told, step_of};

use super::{Comparison, Monitor, Survey};
use constraint::{Clocks, Configuration, Constraint, Likeness, TickSet};
use judging::Stopped;
use limit::{Place, Refusal};

// The single step: each record of the first 64 is looked at with its word, which is moved where it stands.
#[tactic(auto, unfolding(crate::specs::Survey::surveyed))]
pub fn step(
    records: &[Constraint],
    clocks: Clocks,
    configuration: Configuration,
    ticks: TickSet,
) -> Result<Configuration, Stopped>
    ensures { step_told configuration result ≡ step_of clocks records.now configuration ticks }
{
    let mut survey = Survey::new(clocks, ticks);
    let mut after = configuration;
    let first = &records[..records.len().min(64)];
    for (i, constraint) in first.iter().enumerate() {
        after.words[i] = survey.visit(Place(i + 1), constraint, after.words[i]);
    }
    survey.conclude(records.len(), &configuration)?;
    Ok(after)
}

// The same-place question: each record of the first 64 is looked at with its two words.
#[tactic(auto, unfolding(crate::specs::Compare::compared_all))]
pub fn same_place(
    records: &[Constraint],
    clocks: Clocks,
    first: Configuration,
    second: Configuration,
) -> Result<Likeness, Refusal>
    ensures { Answered clocks records.now first.words second.words (answer result) }
{
    let mut comparison = Comparison::new(clocks);
    let compared = &records[..records.len().min(64)];
    for (i, constraint) in compared.iter().enumerate() {
        comparison.compare(Place(i + 1), constraint, first.words[i], second.words[i]);
    }
    comparison.conclude(records.len(), &first, &second)
}

impl Monitor {
    // Moved forward where it stands. After a refusal or a violation it holds what it held.
    pub fn advance(
        &mut self,
        records: &[Constraint],
        clocks: Clocks,
        ticks: TickSet,
    ) -> Result<(), Stopped>
        ensures { moved_to result self.new ≡ step_of clocks records.now self.old.configuration ticks }
    {
        self.configuration = step(records, clocks, self.configuration, ticks)?;
        Ok(())
    }
}
