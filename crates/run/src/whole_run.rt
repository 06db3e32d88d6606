// The whole run: the table, the recording's header, and its steps one by one.
ghost use Rattle.std.specs.Prelude.{◌≡◌, ◌+◌, ◌≤◌, ◌<◌, ◌^◌, get_or, length};
ghost use Rattle.constraint.specs.Lists.{empty, start_words, slots};
ghost use Rattle.grammar.specs.Building.{clocks_in};
ghost use Rattle.judging.specs.Code.{Ready};
ghost use Rattle.judging.specs.Single.{all_ticks};
ghost use Rattle.judging.specs.Step.{judged_as, judged};
ghost use Rattle.recording.specs.Answers.{naming_of};
ghost use Rattle.recording.specs.Body.{reading};
ghost use Rattle.recording.specs.Left.{steps_left};
ghost use Rattle.run.specs.StepByStep as f;
ghost use Rattle.run.specs.Run as s;
ghost use Rattle.table.specs.Reader.{Passes};

use super::{Report, Steps as Count, Verdict};
use constraint::{Clocks, Configuration, Constraint, TickSet, Word};
use grammar::Table;
use judging::{NotHeld, judge};
use limit::{Limit, Place};
use recording::{Naming, Step, Steps, UnknownNames, read_header};

// The table line of the record at a place, from 1.
fn line_of(records: &[Constraint], place: Place) -> Place
    ensures { result.0 ≡ s.line_of records.now place }
{
    match records.get(place.0.saturating_sub(1)) {
        Some(constraint) => constraint.line,
        None => Place(0),
    }
}

// The verdict on a step that is not taken.
fn verdict_of(records: &[Constraint], step: Step, reason: NotHeld) -> Verdict
    ensures { result ≡ f.verdict_of records.now step reason }
{
    match reason {
        NotHeld::Failed(place) => Verdict::Violated(line_of(records, place), step.time),
        NotHeld::PastMillion(_) => Verdict::Refused(Limit::Million.at(step.mark)),
    }
}

// A table's clocks.
fn clocks_of(table: &Table) -> Clocks
    requires { (clocks_in table.now).count ≤ 32 }
    ensures { result ≡ clocks_in table.now }
{
    Clocks {
        named: table.names.len() as u8,
        count: (table.names.len() + table.implicit) as u8,
    }
}

// Judges the ticks of a step. Without any every record holds, and no word moves.
#[tactic(auto, using(crate::proofs::RunLaws::quiet))]
fn judge_ticks(
    records: &[Constraint],
    clocks: Clocks,
    configuration: &mut Configuration,
    ticks: TickSet,
) -> Result<(), NotHeld>
    requires { Ready clocks records.now configuration.old.words }
    ensures { judged_as result configuration.new ≡ judged (all_ticks clocks records.now configuration.old.words ticks) records.now configuration.old }
{
    if ticks == TickSet::EMPTY {
        return Ok(());
    }
    judge(records, clocks, configuration, ticks)
}

// What was judged so far: the number of accepted steps, and the configuration after them.
#[derive(Clone, Copy)]
struct Progress {
    steps: u64,
    configuration: Configuration,
}

impl Progress {
    // Judges a step, and counts it where it is accepted; else the verdict says what it is.
    #[tactic(auto, using(crate::proofs::RunLaws::taken, crate::proofs::RunLaws::stopped, crate::proofs::RunLaws::still_inside))]
    fn take(&mut self, records: &[Constraint], clocks: Clocks, step: Step) -> Result<(), Verdict>
        requires { Ready clocks records.now self.old.configuration.words × (self.old.steps + 1 < 2 ^ 64) }
        ensures { f.Takes clocks.named records.now self.old step result self.new }
    {
        if let Err(reason) = judge_ticks(records, clocks, &mut self.configuration, step.ticks) {
            return Err(verdict_of(records, step, reason));
        }
        self.steps += 1;
        Ok(())
    }

    // Judges the steps of a recording, as far as they are accepted; what ends that before the recording's end is the verdict.
    #[tactic(auto, using(crate::proofs::RunLaws::refused_on, crate::proofs::RunLaws::ended_on, crate::proofs::RunLaws::few_steps_in), unfolding(recording::specs::Body::onward))]
    fn judge<'a>(
        &mut self,
        records: &[Constraint],
        clocks: Clocks,
        naming: Naming<'a>,
        recording: &[u8],
    ) -> Result<(), Verdict>
        requires { Ready clocks records.now self.old.configuration.words × (self.old.steps ≡ 0) }
        ensures { f.came_to result self.new ≡ f.judge_on clocks.named records.now self.old (reading (naming_of naming.entry) recording.now) }
    {
        // With `?` this method gets no proof, since `Variables` is `Copy`.
        let header = match read_header(naming, recording) {
            Ok(header) => header,
            Err(refusal) => return Err(refusal.into()),
        };
        for step in Steps::new(&header.variables, header.body) {
            self.take(records, clocks, step?)?;
        }
        Ok(())
    }
}

// The run of a recording against a table, with a choice what becomes of names that the table lacks: document 01, "What the monitor
// does", and document 02, M-103.
pub fn run(table: &[u8], recording: &[u8], unknown: UnknownNames) -> Report
    ensures { s.told result ≡ s.run_of table.now recording.now unknown }
{
    match table::read_table(table) {
        Err(refusal) => Report {
            verdict: Verdict::Refused(refusal),
            steps: Count(0),
            constraints: 0,
            configuration: Configuration {
                words: [Word {
                    first: 0,
                    second: 0,
                }; 64],
            },
        },
        Ok(read) => {
            let records = read.constraints();
            let naming = Naming {
                table,
                names: &read.names,
                unknown,
            };
            let mut progress = Progress {
                steps: 0,
                configuration: Configuration::start(records),
            };
            let verdict = match progress.judge(records, clocks_of(&read), naming, recording) {
                Ok(()) => Verdict::Accepted,
                Err(verdict) => verdict,
            };
            Report {
                verdict,
                steps: Count(progress.steps),
                constraints: records.len(),
                configuration: progress.configuration,
            }
        }
    }
}
