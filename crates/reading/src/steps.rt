// The steps of a recording, each written where it is closed: by the mark behind it, or by the end.
ghost use Rattle.std.specs.Prelude.{◌≡◌, Ok};
ghost use Rattle.recording.specs.Answers.{naming_of};
ghost use Rattle.recording.specs.Body.{reading};
ghost use Rattle.reading.specs.Filling.{Room};
ghost use Rattle.reading.specs.Recorded as s;

use super::{NoRoom, RecordingRead};
use limit::Refusal;
use recording::{Naming, Steps, UnknownNames, read_header};
use table::read_table;

// Writes the steps of a recording, one behind the other, and counts them.
#[tactic(auto, using(crate::proofs::FillingLaws::onto_closing, crate::proofs::FillingLaws::ends_read, crate::proofs::FillingLaws::ends_refused, crate::proofs::RecordedLaws::header_refused, run::proofs::RunLaws::one_fewer))]
fn write_steps<'a>(
    naming: Naming<'a>,
    recording: &[u8],
    times: &mut [u64],
    marks: &mut [u64],
    ticks: &mut [u32],
    count: &mut usize,
) -> Result<(), Refusal>
    requires { Room recording.now times.old marks.old ticks.old × (count.old ≡ 0) }
    ensures { s.left (Ok (record { outcome = result; steps = count.new })) times.new marks.new ticks.new ≡ s.filled (s.recorded (reading (naming_of naming.entry) recording.now)) times.old marks.old ticks.old }
{
    // With `?` this function gets no proof, since `Variables` is `Copy`.
    let header = match read_header(naming, recording) {
        Ok(header) => header,
        Err(refusal) => return Err(refusal),
    };
    for step in Steps::new(&header.variables, header.body) {
        let step = step?;
        times[*count] = step.time.0;
        marks[*count] = step.mark.0 as u64;
        ticks[*count] = step.ticks.bits();
        *count += 1;
    }
    Ok(())
}

// Reads a recording by the names of a table, with a choice what becomes of names that the table lacks: times, offsets of marks and tick sets
// of the steps that reading gives.
#[tactic(auto, using(crate::proofs::RecordedLaws::no_room, crate::proofs::RecordedLaws::in_room, crate::proofs::RecordedLaws::room, crate::proofs::RecordedLaws::table_refused, crate::proofs::RecordedLaws::table_read))]
pub fn read_recording(
    table: &[u8],
    recording: &[u8],
    unknown: UnknownNames,
    times: &mut [u64],
    marks: &mut [u64],
    ticks: &mut [u32],
) -> Result<RecordingRead, NoRoom>
    ensures { s.left result times.new marks.new ticks.new ≡ s.recorded_into table.now recording.now unknown times.old marks.old ticks.old }
{
    let room = recording.len();
    if times.len() < room || marks.len() < room || ticks.len() < room {
        return Err(NoRoom);
    }
    let mut steps = 0;
    let outcome = match read_table(table) {
        Err(refusal) => Err(refusal),
        Ok(read) => {
            let naming = Naming {
                table,
                names: &read.names,
                unknown,
            };
            write_steps(naming, recording, times, marks, ticks, &mut steps)
        }
    };
    Ok(RecordingRead { outcome, steps })
}
