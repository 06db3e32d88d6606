// The steps that a recording has, read by the names of a table and not judged, into lists of the caller's; and how reading ended.
#![tactic(auto)]

mod steps;

use limit::Refusal;
pub use steps::read_recording;

// What reading a recording into lists answers: how reading ended, the table's refusal included; and how many steps were written.
#[derive(Clone, Copy, Debug, PartialEq, Eq)]
pub struct RecordingRead {
    pub outcome: Result<(), Refusal>,
    pub steps: usize,
}

// Some list has fewer places than the recording has bytes: nothing is read, and nothing is written.
#[derive(Clone, Copy, Debug, PartialEq, Eq)]
pub struct NoRoom;
