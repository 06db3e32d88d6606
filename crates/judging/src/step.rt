// One step of all records, on values.
ghost use Rattle.std.specs.Prelude.{◌≡◌, ◌≤◌, None, length};
ghost use Rattle.constraint.specs.Implicit.{completed};
ghost use Rattle.constraint.specs.Lists.{broken_word};
ghost use Rattle.constraint.specs.Ticks.{bits};
ghost use Rattle.judging.specs.Code as k;
ghost use Rattle.judging.specs.Single.{all_ticks};
ghost use Rattle.judging.specs.Step as s;

use super::NotHeld;
use constraint::{Clocks, Configuration, Constraint, Seen, TickSet, Word, with_implied};
use limit::Place;

// The tick set with the implicit clocks that tick with it: record by record, each with its word from before the step.
fn complete(
    named: u8,
    records: &[Constraint],
    configuration: &Configuration,
    ticks: TickSet,
) -> TickSet
    ensures { result ≡ completed named records.now configuration.now.words ticks }
{
    let mut all = ticks;
    for (constraint, word) in records.iter().zip(&configuration.words) {
        all = with_implied(named, constraint, *word, all);
    }
    all
}

// The word, number by number: so it is written quicker than at once, just after its numbers were.
#[inline(always)]
fn by_numbers(word: Word) -> Word
    ensures { result ≡ word }
{
    Word {
        first: word.first,
        second: word.second,
    }
}

// Record by record: the first that fails ends it; the first whose word leaves its million is remembered. Each word is moved where it stands, so that
// words are moved too where the step turns out not to be taken.
#[inline(always)]
fn judge_each(records: &[Constraint], words: &mut [Word; 64], ticks: TickSet) -> Result<(), NotHeld>
    requires { length records.now ≤ 64 }
    ensures { k.words_of (k.taken result words.new) ≡ k.walked (bits ticks) 1 None records.now words.old }
{
    let mut past = None;
    for (i, constraint) in records.iter().enumerate() {
        match constraint.look(words[i], ticks) {
            Seen::Moves(word) => words[i] = by_numbers(word),
            Seen::Leaves(word) => {
                words[i] = word;
                past = past.or(Some(Place(i + 1)));
            }
            Seen::Out | Seen::Fails => return Err(NotHeld::Failed(Place(i + 1))),
        }
    }
    match past {
        Some(place) => Err(NotHeld::PastMillion(place)),
        None => Ok(()),
    }
}

// The step with a tick set of named clocks, from records and a configuration that limits 59 and 60 let pass (its clause says so of what is lent, which
// no type of this crate's own can hold): each word is moved where it stands, or,
// where the step is not taken, none is. Where all clocks are named, there are no ticks to work out.
pub fn judge(
    records: &[Constraint],
    clocks: Clocks,
    configuration: &mut Configuration,
    ticks: TickSet,
) -> Result<(), NotHeld>
    requires { k.Ready clocks records.now configuration.old.words }
    ensures { s.judged_as result configuration.new ≡ s.judged (all_ticks clocks records.now configuration.old.words ticks) records.now configuration.old }
{
    let all = if clocks.named == clocks.count {
        ticks
    } else {
        complete(clocks.named, records, configuration, ticks)
    };
    let before = *configuration;
    if let Err(reason) = judge_each(records, &mut configuration.words, all) {
        *configuration = before;
        return Err(reason);
    }
    Ok(())
}
