// What C is told, and what it chooses, as numbers.
ghost use Rattle.std.specs.Prelude.{◌≡◌};
ghost use Rattle.constraint.specs.SamePlace as place;
ghost use Rattle.judging.specs.Single as single;
ghost use Rattle.run.specs.Run as run;
ghost use Rattle.limit.specs.Limit.{number_of};
ghost use Rattle.table.specs.Reader.{said};
ghost use Rattle.monitor_c.specs.declared.Status.TheVariants.{StepsShort};
ghost use Rattle.monitor_c.specs.Calls.{choice};
ghost use Rattle.monitor_c.specs.Numbers.{answer_numbers, of_run, of_table, of_step, of_place};

use super::{AnswerNumbers, Status};
use constraint::Likeness;
use judging::Stopped;
use limit::Refusal;
use reading::NoRoom;
use recording::UnknownNames;
use run::Verdict;

// The choice that a number stands for: 0, which is the default, refuses names that the table lacks, and 1 ignores them.
pub fn choice(number: u32) -> Result<UnknownNames, Status>
    ensures { result ≡ choice number }
{
    match number {
        0 => Ok(UnknownNames::Refused),
        1 => Ok(UnknownNames::Ignored),
        _ => Err(Status::ChoiceInvalid),
    }
}

// Some list has too few places for the steps.
impl From<NoRoom> for Status {
    ghost from_gives = { λ _ status. status ≡ StepsShort };

    fn from(_: NoRoom) -> Self {
        Status::StepsShort
    }
}

impl AnswerNumbers {
    // Accepted, read, started, the same place, listed.
    pub const ACCEPTED: AnswerNumbers = AnswerNumbers {
        said: 0,
        first: 0,
        second: 0,
    };

    // Different places.
    pub const DIFFERENT: AnswerNumbers = AnswerNumbers {
        said: 1,
        first: 0,
        second: 0,
    };

    // Violated: a table line and a time, or a record and 0.
    fn violated(first: u64, second: u64) -> Self
        ensures { result ≡ answer_numbers 1 first second }
    {
        AnswerNumbers {
            said: 1,
            first,
            second,
        }
    }
}

impl From<Refusal> for AnswerNumbers {
    ghost from_gives = { λ refusal numbers. numbers ≡ answer_numbers 2 (number_of refusal.limit) refusal.place.0 };

    fn from(refusal: Refusal) -> Self {
        AnswerNumbers {
            said: 2,
            first: u64::from(refusal.limit.number()),
            second: refusal.place.0 as u64,
        }
    }
}

// The verdict of a run.
impl From<Verdict> for AnswerNumbers {
    ghost from_gives = { λ verdict numbers. numbers ≡ of_run (run.said verdict) };

    fn from(verdict: Verdict) -> Self {
        match verdict {
            Verdict::Accepted => AnswerNumbers::ACCEPTED,
            Verdict::Violated(line, time) => AnswerNumbers::violated(line.0 as u64, time.0),
            Verdict::Refused(refusal) => refusal.into(),
        }
    }
}

// How reading a recording ended.
impl From<Result<(), Refusal>> for AnswerNumbers {
    ghost from_gives = { λ outcome numbers. numbers ≡ of_table (said outcome) };

    fn from(outcome: Result<(), Refusal>) -> Self {
        match outcome {
            Ok(()) => AnswerNumbers::ACCEPTED,
            Err(refusal) => refusal.into(),
        }
    }
}

// Why a single step is not taken.
impl From<Stopped> for AnswerNumbers {
    ghost from_gives = { λ stopped numbers. numbers ≡ of_step (single.stopped_said stopped) };

    fn from(stopped: Stopped) -> Self {
        match stopped {
            Stopped::Violated(record) => AnswerNumbers::violated(record.0 as u64, 0),
            Stopped::Refused(refusal) => refusal.into(),
        }
    }
}

// What the same-place question answers.
impl From<Result<Likeness, Refusal>> for AnswerNumbers {
    ghost from_gives = { λ answer numbers. numbers ≡ of_place (place.answer answer) };

    fn from(answer: Result<Likeness, Refusal>) -> Self {
        match answer {
            Ok(Likeness::Same) => AnswerNumbers::ACCEPTED,
            Ok(Likeness::Different) => AnswerNumbers::DIFFERENT,
            Err(refusal) => refusal.into(),
        }
    }
}
