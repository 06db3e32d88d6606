// The same-place question as a walk over records: what each record adds, and the answer at the end. No step is judged.
ghost use Rattle.std.specs.Prelude.{◌≡◌};
ghost use Rattle.constraint.specs.SamePlace.{answer};
ghost use Rattle.lent.specs.Compare as c;

use super::Comparison;
use super::places::{lowest, out_at, refuse_at, unfit_at};
use constraint::{Clocks, Configuration, Constraint, Likeness, TickSet, Word};
use limit::{Limit, Place, Refusal};

impl Comparison {
    // Before the first record.
    pub(crate) fn new(clocks: Clocks) -> Self
        ensures { result ≡ c.begins_same clocks }
    {
        Comparison {
            clocks,
            earlier: TickSet::EMPTY,
            unfit: None,
            first: None,
            second: None,
            same: true,
        }
    }

    // What a record and its two words add.
    #[inline(always)]
    #[tactic(auto, unfolding(crate::specs::Compare::compared))]
    pub(crate) fn compare(&mut self, place: Place, constraint: &Constraint, w: Word, v: Word)
        ensures { self.new ≡ c.compared self.old place constraint.now w v }
    {
        let mut fitted = constraint.fits_among(self.clocks.named, self.earlier);
        if !fitted.fits {
            fitted = constraint.fits_clocks(self.clocks, self.earlier);
        }
        self.earlier = fitted.defined;
        lowest(&mut self.unfit, fitted.fits, place);
        lowest(&mut self.first, constraint.is_in_range(w), place);
        lowest(&mut self.second, constraint.is_in_range(v), place);
        self.same &= w == v;
    }

    // The same-place question's answer, after the last of count records. Words beyond the records are 0 where limit 60 lets them pass.
    #[tactic(auto, unfolding(crate::specs::Compare::concluded_same))]
    pub(crate) fn conclude(
        self,
        count: usize,
        one: &Configuration,
        other: &Configuration,
    ) -> Result<Likeness, Refusal>
        ensures { answer result ≡ c.concluded_same self count one.now.words other.now.words }
    {
        refuse_at(Limit::Records, unfit_at(self.clocks, self.unfit, count))?;
        refuse_at(Limit::ConfigurationWord, out_at(self.first, count, one))?;
        refuse_at(Limit::ConfigurationWord, out_at(self.second, count, other))?;
        if self.same {
            Ok(Likeness::Same)
        } else {
            Ok(Likeness::Different)
        }
    }
}
