// Implicit clocks: those behind the named ones, whose ticks each step works out.
ghost use Rattle.std.specs.Prelude.{◌≡◌};
ghost use Rattle.constraint.specs.Implicit.{implied_of};
ghost use Rattle.constraint.specs.Ticks.{bits, with_ticks};

use super::{Constraint, Kind, TickSet, Word};

// The tick set with the implicit clock that the record defines, where it is due.
#[inline(always)]
pub fn with_implied(named: u8, constraint: &Constraint, w: Word, ticks: TickSet) -> TickSet
    ensures { result ≡ with_ticks ticks (implied_of named constraint.now w (bits ticks)) }
{
    let Kind::Defines(definition) = &constraint.kind else {
        return ticks;
    };
    let c = constraint.defined;
    if c < named {
        return ticks;
    }
    let a = ticks.contains(constraint.first);
    let b = ticks.contains(constraint.second);
    if definition.is_due(w, a, b) {
        ticks.with(c)
    } else {
        ticks
    }
}
