// What each call does: it asks the shape of its lists first, in the order of the statuses, and writes only behind that. Its parameters are those of
// the C prototype.
ghost use Rattle.std.specs.Prelude.{◌≡◌};
ghost use Rattle.monitor_c.specs.Calls.{left, run_into, steps_left, recording_into, table_left, read_into, start_into, step_into, answer_left, place_into, order_left, order_into, returned, room};

use super::lists::{put_answer, put_names, put_order, put_records, put_words};
use super::numbers::choice;
use super::records::{clocks_of, configuration_of, records_of, shape};
use super::{AnswerNumbers, Status};
use constraint::{TickSet, Word};
use lent::Monitor;

// What stands where there is no record's word.
const NO_WORD: Word = Word {
    first: 0,
    second: 0,
};

// Whether a list has so many numbers.
fn room(length: usize, least: usize, short: Status) -> Result<(), Status>
    ensures { result ≡ room length least short }
{
    if length < least { Err(short) } else { Ok(()) }
}

#[tactic(auto, unfolding(crate::specs::Calls::run_into))]
pub fn run_into(
    table: &[u8],
    recording: &[u8],
    unknown: u32,
    answer: &mut [u64],
    words: &mut [i64],
) -> Result<(), Status>
    ensures { left (returned result) answer.new words.new ≡ run_into table.now recording.now unknown answer.old words.old }
{
    room(answer.len(), 5, Status::AnswerShort)?;
    room(words.len(), 128, Status::WordsShort)?;
    let unknown = choice(unknown)?;
    let report = run::run(table, recording, unknown);
    put_answer(
        answer,
        report.verdict.into(),
        &[report.steps.0, report.constraints as u64],
    );
    put_words(words, &report.configuration.words);
    Ok(())
}

#[tactic(auto, unfolding(crate::specs::Calls::read_into))]
pub fn read_into(
    text: &[u8],
    answer: &mut [u64],
    records: &mut [u64],
    names: &mut [u64],
) -> Result<(), Status>
    ensures { table_left (returned result) answer.new records.new names.new ≡ read_into text.now answer.old records.old names.old }
{
    room(answer.len(), 6, Status::AnswerShort)?;
    room(records.len(), 512, Status::RecordsShort)?;
    room(names.len(), 64, Status::NamesShort)?;
    match table::read_table(text) {
        Ok(table) => {
            let constraints = table.constraints();
            let named = table.names.len();
            let clocks = named + table.implicit;
            put_answer(
                answer,
                AnswerNumbers::ACCEPTED,
                &[constraints.len() as u64, clocks as u64, named as u64],
            );
            put_records(records, constraints);
            put_names(names, table.names.as_slice());
        }
        Err(refusal) => {
            put_answer(answer, refusal.into(), &[0, 0, 0]);
            put_records(records, &[]);
            put_names(names, &[]);
        }
    }
    Ok(())
}

#[tactic(auto, unfolding(crate::specs::Calls::on_records))]
pub fn start_into(
    records: &[u64],
    named: u32,
    clocks: u32,
    words: &mut [i64],
    answer: &mut [u64],
) -> Result<(), Status>
    ensures { left (returned result) answer.new words.new ≡ start_into records.now named clocks answer.old words.old }
{
    room(answer.len(), 3, Status::AnswerShort)?;
    room(words.len(), 128, Status::WordsShort)?;
    shape(records)?;
    let read = records_of(records);
    let records = read.as_slice();
    match Monitor::start(records, clocks_of(named, clocks)) {
        Ok(monitor) => {
            put_answer(answer, AnswerNumbers::ACCEPTED, &[]);
            put_words(words, &monitor.configuration.words);
        }
        Err(refusal) => {
            put_answer(answer, refusal.into(), &[]);
            put_words(words, &[NO_WORD; 64]);
        }
    }
    Ok(())
}

#[tactic(auto, unfolding(crate::specs::Calls::on_records))]
pub fn step_into(
    records: &[u64],
    named: u32,
    clocks: u32,
    words: &mut [i64],
    ticks: u32,
    answer: &mut [u64],
) -> Result<(), Status>
    ensures { left (returned result) answer.new words.new ≡ step_into records.now named clocks ticks answer.old words.old }
{
    room(answer.len(), 3, Status::AnswerShort)?;
    room(words.len(), 128, Status::WordsShort)?;
    shape(records)?;
    let read = records_of(records);
    let records = read.as_slice();
    let before = configuration_of(words);
    let ticks = TickSet::from_bits(ticks);
    match lent::step(records, clocks_of(named, clocks), before, ticks) {
        Ok(after) => {
            put_answer(answer, AnswerNumbers::ACCEPTED, &[]);
            put_words(words, &after.words);
        }
        Err(stopped) => put_answer(answer, stopped.into(), &[]),
    }
    Ok(())
}

#[tactic(auto, unfolding(crate::specs::Calls::place_into))]
pub fn place_into(
    records: &[u64],
    named: u32,
    clocks: u32,
    first: &[i64],
    second: &[i64],
    answer: &mut [u64],
) -> Result<(), Status>
    ensures { answer_left (returned result) answer.new ≡ place_into records.now named clocks first.now second.now answer.old }
{
    room(answer.len(), 3, Status::AnswerShort)?;
    room(first.len(), 128, Status::WordsShort)?;
    room(second.len(), 128, Status::WordsShort)?;
    shape(records)?;
    let read = records_of(records);
    let records = read.as_slice();
    let likeness = lent::same_place(
        records,
        clocks_of(named, clocks),
        configuration_of(first),
        configuration_of(second),
    );
    put_answer(answer, likeness.into(), &[]);
    Ok(())
}

#[tactic(auto, unfolding(crate::specs::Calls::order_into))]
pub fn order_into(
    records: &[u64],
    named: u32,
    clocks: u32,
    answer: &mut [u64],
    order: &mut [u64],
) -> Result<(), Status>
    ensures { order_left (returned result) answer.new order.new ≡ order_into records.now named clocks answer.old order.old }
{
    room(answer.len(), 4, Status::AnswerShort)?;
    shape(records)?;
    room(order.len(), 32, Status::OrderShort)?;
    let read = records_of(records);
    let records = read.as_slice();
    match order::definition_order(records, clocks_of(named, clocks)) {
        Ok(listed) => {
            put_answer(answer, AnswerNumbers::ACCEPTED, &[listed.len() as u64]);
            put_order(order, listed.as_slice());
        }
        Err(refusal) => {
            put_answer(answer, refusal.into(), &[0]);
            put_order(order, &[]);
        }
    }
    Ok(())
}

#[tactic(auto, unfolding(crate::specs::Calls::recording_into))]
pub fn recording_into(
    table: &[u8],
    recording: &[u8],
    unknown: u32,
    answer: &mut [u64],
    times: &mut [u64],
    marks: &mut [u64],
    ticks: &mut [u32],
) -> Result<(), Status>
    ensures { steps_left (returned result) answer.new times.new marks.new ticks.new ≡ recording_into table.now recording.now unknown answer.old times.old marks.old ticks.old }
{
    room(answer.len(), 4, Status::AnswerShort)?;
    let unknown = choice(unknown)?;
    let read = reading::read_recording(table, recording, unknown, times, marks, ticks)?;
    put_answer(answer, read.outcome.into(), &[read.steps as u64]);
    Ok(())
}
