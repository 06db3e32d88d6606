// One constraint of a table: its record and its word, and what a step means for it. Lists of records: which of them are let pass, and which
// configurations are. The same-place question, of which this crate has the definition and what its answer means.
#![tactic(auto)]

mod delays;
mod implicit;
mod place;
mod rule;
mod tick_set;

pub use delays::Delays;
pub use implicit::with_implied;
use limit::Place;
pub use place::{broken_record, broken_word, same_word};
pub use tick_set::TickSet;

// The relations, in the order of document 01's table: `a = b`, `a # b`, `a isSubClockOf b`, `a strictly precedes b`,
// `a precedes b`.
#[derive(Clone, Copy, Debug, PartialEq, Eq)]
pub enum Relation {
    Coincides,
    Excludes,
    SubClock,
    StrictlyPrecedes,
    Precedes,
}

// The right sides of `c clockDef`, in the order of document 01's table: `a clockUnion b`, `a clockInter b`, `a lub b`,
// `a glb b`, `await n a`, `a strictly sampled b`, `a sampled b`, `a upto b`; and document 02's `a deferred b for n ..`. An await has its number
// and a delay its list.
#[derive(Clone, Copy, Debug, PartialEq, Eq)]
pub enum Definition {
    Union,
    Inter,
    Lub,
    Glb,
    Await(u64),
    StrictlySampled,
    Sampled,
    Upto,
    Deferred(Delays),
}

// The form of a constraint: one of the 14, or none, in a slot that has no constraint.
#[derive(Clone, Copy, Debug, PartialEq, Eq)]
pub enum Kind {
    Empty,
    Relates(Relation),
    Defines(Definition),
}

// A constraint, with the numbers of its clocks: c, which it defines, a and b. A form looks only at those that it names. The clocks stand beside the
// form and not in it: document 01's record has them so, and C hands in all three with every form.
#[derive(Clone, Copy, Debug, PartialEq, Eq)]
pub struct Constraint {
    pub kind: Kind,
    pub defined: u8,
    pub first: u8,
    pub second: u8,
    pub line: Place,
}

// How many clocks of the records are named, which have the lowest numbers, and how many clocks there are, with the implicit ones behind them.
#[derive(Clone, Copy, Debug, PartialEq, Eq)]
pub struct Clocks {
    pub named: u8,
    pub count: u8,
}

// A constraint's part of a configuration, which is two words: w of document 01's table and 0; of a delay the pending ticks, bit k - 1 for the
// k-th next tick of b, and how many numbers of its list are used.
#[derive(Clone, Copy, Debug, PartialEq, Eq)]
pub struct Word {
    pub first: i64,
    pub second: i64,
}

// The two words of each constraint in table order; the rest are 0.
#[derive(Clone, Copy, Debug, PartialEq, Eq)]
pub struct Configuration {
    pub words: [Word; 64],
}

// How a form counts in its word: the third column of document 01's table, named there row by row, so that no closure is plainer.
#[derive(Clone, Copy, Debug, PartialEq, Eq)]
pub enum Counter {
    Fixed,
    Gap,
    Lead,
    Countdown(u64),
    StrictSample,
    Sample,
    Until,
    Pending(Delays),
}

// A counter's start, its first word's range from low to high, and its second word's from 0.
#[derive(Clone, Copy, Debug, PartialEq, Eq)]
pub struct Range {
    pub start: i64,
    pub low: i64,
    pub high: i64,
    pub most_used: i64,
}

// What a step comes to for a record and its word: the word is out of range; the record fails; or it holds, and this is the word after the
// step, past its million or within it. Two of the four have a word, so that a Result is no plainer.
#[derive(Clone, Copy, Debug, PartialEq, Eq)]
pub enum Seen {
    Out,
    Fails,
    Leaves(Word),
    Moves(Word),
}

// Whether a record fits the clock counts and the records before it, and the clocks that it or they define. The clocks are needed whether it fits
// or not, so that an Option is no plainer.
#[derive(Clone, Copy, Debug, PartialEq, Eq)]
pub struct Fitted {
    pub fits: bool,
    pub defined: TickSet,
}

// Where the same-place question is not refused: whether the configurations are one place.
#[derive(Clone, Copy, Debug, PartialEq, Eq)]
pub enum Likeness {
    Same,
    Different,
}
