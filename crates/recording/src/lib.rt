// The recording: its header into variables, and its body into steps, each closed by the mark behind it or by the end; or the first
// refusal of 30 to 44: document 01, "Recording", with the values of document 02, M-100, and 38 of M-103.
#![tactic(auto)]

mod body;
mod header;
mod steps;
mod variables;
mod words;

pub use body::read_mark;
use constraint::TickSet;
pub use header::{Header, Naming, read_header};
use limit::Place;
pub use steps::Steps;
pub use variables::Variables;
pub use words::Words;

// The number of no clock, which a variable has whose name the table lacks.
const NO_CLOCK: u8 = 32;

// The recorded time of a mark.
#[derive(Clone, Copy, Debug, PartialEq, Eq)]
pub struct Time(pub u64);

// What becomes of a variable whose name the table lacks: document 02, M-103. It is refused, or, where told so, ignored.
#[derive(Clone, Copy, Debug, PartialEq, Eq)]
pub enum UnknownNames {
    Refused,
    Ignored,
}

// What the word at the front of a command opens: a command that is skipped, `$var`, `$enddefinitions`, or none.
#[derive(Clone, Copy, Debug, PartialEq, Eq)]
pub enum Command {
    Skipped,
    Declaration,
    Definitions,
    Unknown,
}

// A step: the offset of its mark, its time, and the clocks that tick in it.
#[derive(Clone, Copy, Debug, PartialEq, Eq)]
pub struct Step {
    pub mark: Place,
    pub time: Time,
    pub ticks: TickSet,
}
