// A list of constraints that has room for so many, without a heap. Clauses see it as the list, where an `ArrayVec` would stand between a table and its
// list in each definition that speaks of records. Behind the last, slots are empty, so that equal lists are equal values; so it can be copied.
ghost use Rattle.std.specs.Prelude.{◌≡◌, ◌<◌, ◌≤◌, ◌++◌, ◌∷◌, [], length};

use constraint::Constraint;
use std::marker::Model;

#[derive(Clone, Copy)]
pub struct Constraints<const ROOM: usize> {
    slots: [Constraint; ROOM],
    count: usize,
}

impl<const ROOM: usize> Model for Constraints<ROOM> {
    ghost use Rattle.std.specs.Prelude.{List, length, take};
    ghost use Rattle.std.proofs.Common.{sym};
    ghost use mathlib.Core.Path.{ap₂};
    ghost use Rattle.constraint.specs.Lists.{empty};
    ghost use Rattle.constraint.specs.declared.Constraint.{Constraint};
    ghost use Rattle.grammar.specs.Fields.{padded, IsPadded};

    ghost Value = { List Constraint };

    ghost view = { λ c. take c.count c.slots };

    ghost invariant = { λ c. IsPadded ROOM empty c.count c.slots };

    ghost inverse = { λ rs. record { slots = padded ROOM empty rs; count = length rs } };

    ghost inverse_ok = { λ c h. ap₂ (λ rs n. record { slots = rs; count = n }) (sym h.2) h.1 };
}

impl<const ROOM: usize> Constraints<ROOM> {
    // No constraint yet.
    #[inline(always)]
    pub fn new() -> Self
        ensures { result ≡ [] }
    {
        Constraints {
            slots: [Constraint::EMPTY; ROOM],
            count: 0,
        }
    }

    // The constraints, in order.
    #[inline(always)]
    pub fn as_slice(&self) -> &[Constraint]
        ensures value { result.now ≡ self.now }
        ensures fits { length result.now ≤ ROOM }
    {
        &self.slots[..self.count]
    }

    #[inline(always)]
    pub fn len(&self) -> usize
        ensures value { result ≡ length self.now }
        ensures fits { result ≤ ROOM }
    {
        self.as_slice().len()
    }

    // Puts a constraint behind the others.
    #[inline(always)]
    pub fn push(&mut self, constraint: Constraint)
        requires { length self.old < ROOM }
        ensures { self.new ≡ self.old ++ constraint ∷ [] }
    {
        self.slots[self.count] = constraint;
        self.count += 1;
    }
}
