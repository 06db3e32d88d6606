// The table that is being built, and its implicit clocks.
ghost use Rattle.std.specs.Prelude.{◌≡◌};
ghost use Rattle.grammar.specs.Building as d;

use super::{Builder, Constraints, Inner, Names, Table};
use constraint::{Constraint, TickSet};
use limit::Place;

impl Table {
    // A table with no constraint and no name.
    fn new() -> Self
        ensures { result ≡ d.empty_table }
    {
        Table {
            records: Constraints::new(),
            names: Names::new(),
            implicit: 0,
        }
    }

    // The constraints, in table order.
    pub fn constraints(&self) -> &[Constraint]
        ensures { result.now ≡ d.constraints_in self.now }
    {
        self.records.as_slice()
    }
}

// A constraint that defines a clock.
fn defining(clock: u8, constraint: Constraint) -> Constraint
    ensures { result ≡ d.defining clock constraint }
{
    let mut own = constraint;
    own.defined = clock;
    own
}

impl Inner {
    // Before a line's first implicit clock, where the lines above have this many.
    pub fn new(implicit: usize) -> Self
        ensures { result ≡ d.no_inner implicit }
    {
        Inner {
            clocks: implicit,
            definitions: Constraints::new(),
        }
    }

    // One implicit clock more, which a right side defines; and its number, until all names are known.
    pub fn insert(&mut self, constraint: Constraint) -> u8
        ensures clock { result ≡ d.provisional self.old.clocks }
        ensures more { self.new ≡ d.with_implicit self.old constraint }
    {
        let clock = provisional(self.clocks);
        self.clocks = counted(self.clocks);
        if self.definitions.len() < 32 {
            self.definitions.push(defining(clock, constraint));
        }
        clock
    }
}

// The number of the next implicit clock, until all names are known.
fn provisional(clocks: usize) -> u8
    ensures { result ≡ d.provisional clocks }
{
    if clocks < 33 {
        return 32 + clocks as u8;
    }
    65
}

// Implicit clocks, counted to 33.
fn counted(clocks: usize) -> usize
    ensures { result ≡ d.counted clocks }
{
    if clocks < 33 {
        return clocks + 1;
    }
    clocks
}

impl Builder {
    // Before the first line.
    pub fn new() -> Self
        ensures { result ≡ d.start }
    {
        Builder {
            table: Table::new(),
            defined: TickSet::EMPTY,
        }
    }

    // One constraint more, on its line; a full table stays as it is.
    fn push(&mut self, place: Place, constraint: Constraint)
        ensures { self.new ≡ d.with_constraint place.0 self.old constraint }
    {
        if 64 <= self.table.records.len() {
            return;
        }
        let mut own = constraint;
        own.line = place;
        self.defined = own.with_defined(self.defined);
        self.table.records.push(own);
    }

    // The constraints of a line: the definitions of its implicit clocks, and its own; the names have those of the line.
    #[tactic(auto, unfolding(crate::specs::Building::with_constraints))]
    pub fn insert(&mut self, place: Place, inner: Inner, constraint: Constraint)
        ensures { self.new ≡ d.with_line place.0 self.old self.old.table.names inner constraint }
    {
        self.table.implicit = inner.clocks;
        for definition in inner.definitions.as_slice() {
            self.push(place, *definition);
        }
        self.push(place, constraint);
    }

    // The table once its last line is read.
    pub fn finish(self) -> Table
        ensures { result ≡ d.finish self }
    {
        let named = self.table.names.len();
        let mut records = Constraints::new();
        for constraint in self.table.records.as_slice() {
            records.push(renumbered(named, constraint));
        }
        Table {
            records,
            names: self.table.names,
            implicit: self.table.implicit,
        }
    }
}

// A clock's number behind this many names.
fn renumber(named: usize, clock: u8) -> u8
    ensures { result ≡ d.renumber named clock }
{
    if clock < 32 || 32 <= named {
        return clock;
    }
    clock - (32 - named as u8)
}

// A constraint with its clocks' numbers behind this many names, however many these are.
pub fn renumbered(named: usize, constraint: &Constraint) -> Constraint
    ensures { result ≡ d.renumbered named constraint.now }
{
    Constraint {
        kind: constraint.kind,
        defined: renumber(named, constraint.defined),
        first: renumber(named, constraint.first),
        second: renumber(named, constraint.second),
        line: constraint.line,
    }
}
