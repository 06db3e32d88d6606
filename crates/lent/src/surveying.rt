// The single step as a walk over records: what each record adds, and the answer at the end.
ghost use Rattle.std.specs.Prelude.{◌≡◌};
ghost use Rattle.constraint.specs.declared.Configuration.{Configuration as Words};
ghost use Rattle.judging.specs.Single.{beyond_clocks};
ghost use Rattle.lent.specs.Survey as s;

use super::Survey;
use super::places::{lowest, out_at, refuse_at, unfit_at};
use constraint::{Clocks, Configuration, Constraint, Fitted, Seen, TickSet, Word, with_implied};
use judging::Stopped;
use limit::{Limit, Place};

impl Survey {
    // Before the first record.
    pub(crate) fn new(clocks: Clocks, ticks: TickSet) -> Self
        ensures { result ≡ s.begins clocks ticks }
    {
        Survey {
            clocks,
            given: ticks,
            ticks,
            earlier: TickSet::EMPTY,
            unfit: None,
            out: None,
            failing: None,
            past: None,
        }
    }

    // What a record adds, by how it fits and what the step comes to for it; and its word after the step, which is w where it is not moved.
    #[inline(always)]
    fn add(&mut self, place: Place, fitted: Fitted, seen: Seen, w: Word) -> Word
        ensures { s.turn self.new result ≡ s.added self.old place fitted seen w }
    {
        self.earlier = fitted.defined;
        lowest(&mut self.unfit, fitted.fits, place);
        match seen {
            Seen::Out => {
                self.out = self.out.or(Some(place));
                w
            }
            Seen::Fails => {
                self.failing = self.failing.or(Some(place));
                w
            }
            Seen::Leaves(v) => {
                self.past = self.past.or(Some(place));
                v
            }
            Seen::Moves(v) => v,
        }
    }

    // What a record and its word add, and the word after the step. A record that fits among the named clocks makes no implicit clock tick; any other
    // is looked at with the tick of the implicit clock that it defines.
    #[inline(always)]
    #[tactic(auto, unfolding(crate::specs::Survey::visited))]
    pub(crate) fn visit(&mut self, place: Place, constraint: &Constraint, w: Word) -> Word
        ensures { s.turn self.new result ≡ s.visited self.old place constraint.now w }
    {
        let mut fitted = constraint.fits_among(self.clocks.named, self.earlier);
        if !fitted.fits {
            fitted = constraint.fits_clocks(self.clocks, self.earlier);
            self.ticks = with_implied(self.clocks.named, constraint, w, self.ticks);
        }
        let seen = constraint.look(w, self.ticks);
        self.add(place, fitted, seen, w)
    }

    // The single step's answer, after the last of count records, whatever the words after it are.
    #[tactic(auto, unfolding(crate::specs::Survey::concluded))]
    pub(crate) fn conclude(self, count: usize, before: &Configuration) -> Result<(), Stopped>
        ensures { (after : Words) → s.ended before.now after result ≡ s.concluded self count before.now after }
    {
        refuse_at(Limit::Records, unfit_at(self.clocks, self.unfit, count))?;
        refuse_at(Limit::ConfigurationWord, out_at(self.out, count, before))?;
        refuse_at(Limit::TickSet, beyond_clocks(self.clocks, self.given))?;
        if let Some(place) = self.failing {
            return Err(Stopped::Violated(place));
        }
        refuse_at(Limit::Million, self.past)?;
        Ok(())
    }
}

// Limit 61: a bit at or above the named count.
fn beyond_clocks(clocks: Clocks, ticks: TickSet) -> Option<Place>
    ensures { result ≡ beyond_clocks clocks ticks }
{
    let named = clocks.named;
    if ticks.bits().unbounded_shr(named.into()) != 0 {
        return Some(Place(0));
    }
    None
}
