// The single step and the same-place question on lent records, and the monitor that is lent and moved forward where it stands.
#![tactic(auto)]

mod comparing;
mod places;
mod start;
mod surveying;
mod walks;

use constraint::{Clocks, Configuration, TickSet};
use limit::Place;
pub use walks::{same_place, step};

// What a step knows of the first records: the tick set that it was given, and the same with the implicit clocks that tick by now; the clocks that
// the records define; and the lowest place, from 1, of a record that does not fit, of a word out of range, of a record that fails, and of a word
// that leaves its million.
#[derive(Clone, Copy, Debug, PartialEq, Eq)]
pub struct Survey {
    pub clocks: Clocks,
    pub given: TickSet,
    pub ticks: TickSet,
    pub earlier: TickSet,
    pub unfit: Option<Place>,
    pub out: Option<Place>,
    pub failing: Option<Place>,
    pub past: Option<Place>,
}

// What the same-place question knows of the first records: the clocks that they define; the lowest place of a record that does not fit, and of a
// word of the first and of the second configuration that is out of range; and whether their words are the same. It shares the clocks and two places
// with a survey, and no step; one type for both would have fields that one of them never asks.
#[derive(Clone, Copy, Debug, PartialEq, Eq)]
pub struct Comparison {
    pub clocks: Clocks,
    pub earlier: TickSet,
    pub unfit: Option<Place>,
    pub first: Option<Place>,
    pub second: Option<Place>,
    pub same: bool,
}

// A monitor: where it stands.
#[derive(Clone, Copy, Debug, PartialEq, Eq)]
pub struct Monitor {
    pub configuration: Configuration,
}
