// The checker for C and Rust: `include/ccsl_monitor.h` says what each call takes and writes. Lists of numbers come in and go out; a list
// that has not the shape that a call asks for is answered by a status, and nothing is written.
#![tactic(auto)]

mod calls;
mod kinds;
mod lists;
mod numbers;
mod records;

ghost use Rattle.std.specs.Prelude.{◌≡◌};
ghost use Rattle.monitor_c.specs.Calls.{layout, left, run_into, steps_left, recording_into, table_left, read_into, start_into, step_into, answer_left, place_into, order_left, order_into, returned};

// What every call returns, in the order of the checks; the numbers are those of the header.
#[derive(Clone, Copy, Debug, PartialEq, Eq)]
pub enum Status {
    Done = 0,
    AnswerShort = 1,
    WordsShort = 2,
    RecordsShort = 3,
    NamesShort = 4,
    RecordsRagged = 5,
    KindUnknown = 6,
    OrderShort = 7,
    ChoiceInvalid = 8,
    StepsShort = 9,
}

// The layout of records and configurations: eight numbers a record, two words a record.
pub const LAYOUT: u32 = 2;

// An answer: what is said, and its two numbers, 0 where it has none. Numbers, since C has them so.
#[derive(Clone, Copy, Debug, PartialEq, Eq)]
pub struct AnswerNumbers {
    pub said: u64,
    pub first: u64,
    pub second: u64,
}

// The number that a call returns.
fn returned(outcome: Result<(), Status>) -> u32
    ensures { result ≡ returned outcome }
{
    match outcome {
        Ok(()) => Status::Done as u32,
        Err(status) => status as u32,
    }
}

// The number of the layout of records and configurations.
#[unsafe(no_mangle)]
pub extern "C" fn ccsl_layout() -> u32
    ensures { result ≡ layout }
{
    LAYOUT
}

// Judges a recording by a table.
#[unsafe(no_mangle)]
pub extern "C" fn ccsl_run(
    table: &[u8],
    recording: &[u8],
    unknown: u32,
    answer: &mut [u64],
    words: &mut [i64],
) -> u32
    ensures { left result answer.new words.new ≡ run_into table.now recording.now unknown answer.old words.old }
{
    returned(calls::run_into(table, recording, unknown, answer, words))
}

// Reads a table.
#[unsafe(no_mangle)]
pub extern "C" fn ccsl_read_table(
    text: &[u8],
    answer: &mut [u64],
    records: &mut [u64],
    names: &mut [u64],
) -> u32
    ensures { table_left result answer.new records.new names.new ≡ read_into text.now answer.old records.old names.old }
{
    returned(calls::read_into(text, answer, records, names))
}

// The start words of records: where single steps begin.
#[unsafe(no_mangle)]
pub extern "C" fn ccsl_start_words(
    records: &[u64],
    named: u32,
    clocks: u32,
    words: &mut [i64],
    answer: &mut [u64],
) -> u32
    ensures { left result answer.new words.new ≡ start_into records.now named clocks answer.old words.old }
{
    returned(calls::start_into(records, named, clocks, words, answer))
}

// One step of a monitor, whose words are moved where they stand if it is accepted, and left alone else.
#[unsafe(no_mangle)]
pub extern "C" fn ccsl_step(
    records: &[u64],
    named: u32,
    clocks: u32,
    words: &mut [i64],
    ticks: u32,
    answer: &mut [u64],
) -> u32
    ensures { left result answer.new words.new ≡ step_into records.now named clocks ticks answer.old words.old }
{
    returned(calls::step_into(records, named, clocks, words, ticks, answer))
}

// Whether two configurations stand at the same place.
#[unsafe(no_mangle)]
pub extern "C" fn ccsl_same_place(
    records: &[u64],
    named: u32,
    clocks: u32,
    first: &[i64],
    second: &[i64],
    answer: &mut [u64],
) -> u32
    ensures { answer_left result answer.new ≡ place_into records.now named clocks first.now second.now answer.old }
{
    returned(calls::place_into(records, named, clocks, first, second, answer))
}

// The definitions of records in working order.
#[unsafe(no_mangle)]
pub extern "C" fn ccsl_definition_order(
    records: &[u64],
    named: u32,
    clocks: u32,
    answer: &mut [u64],
    order: &mut [u64],
) -> u32
    ensures { order_left result answer.new order.new ≡ order_into records.now named clocks answer.old order.old }
{
    returned(calls::order_into(records, named, clocks, answer, order))
}

// Reads a recording by the names of a table: the steps that reading gives, with nothing judged, and how it ended.
#[unsafe(no_mangle)]
pub extern "C" fn ccsl_read_recording(
    table: &[u8],
    recording: &[u8],
    unknown: u32,
    answer: &mut [u64],
    times: &mut [u64],
    marks: &mut [u64],
    ticks: &mut [u32],
) -> u32
    ensures { steps_left result answer.new times.new marks.new ticks.new ≡ recording_into table.now recording.now unknown answer.old times.old marks.old ticks.old }
{
    returned(calls::recording_into(table, recording, unknown, answer, times, marks, ticks))
}
