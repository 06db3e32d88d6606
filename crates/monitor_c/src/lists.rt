// Lists of numbers that are written, into room that C lends. Each walk has its own two lines: a function that takes them would be longer.
ghost use Rattle.std.specs.Prelude.{◌≡◌, ◌*◌, ◌+◌, ◌-◌, ◌≤◌, ◌++◌, length, replicate};
ghost use Rattle.reading.specs.Written.{written};
ghost use Rattle.monitor_c.specs.Numbers.{answer_and, pair_numbers, record_numbers, name_numbers, numbers_of, padded};

use super::AnswerNumbers;
use super::kinds::{await_number, delay_list, kind_number, packed};
use constraint::{Constraint, Word};
use text::Span;

// Writes zeros into the first places.
fn clear(numbers: &mut [u64], count: usize)
    requires { count ≤ length numbers.old }
    ensures { numbers.new ≡ written (replicate count 0) numbers.old }
{
    numbers[..count].fill(0);
}

// Writes an answer, and other numbers behind it.
pub fn put_answer(answer: &mut [u64], numbers: AnswerNumbers, more: &[u64])
    requires { 3 + length more.now ≤ length answer.old }
    ensures { answer.new ≡ written (answer_and numbers more.now) answer.old }
{
    answer[..3].copy_from_slice(&[numbers.said, numbers.first, numbers.second]);
    answer[3..3 + more.len()].copy_from_slice(more);
}

// Writes the pairs of a configuration.
pub fn put_words(words: &mut [i64], pairs: &[Word])
    requires { 2 * length pairs.now ≤ length words.old }
    ensures { words.new ≡ written (pair_numbers pairs.now) words.old }
{
    for (i, pair) in pairs.iter().enumerate() {
        words[2 * i] = pair.first;
        words[2 * i + 1] = pair.second;
    }
}

// Writes where names stand into 64 places, 0 behind the last.
pub fn put_names(numbers: &mut [u64], spans: &[Span])
    requires room { 64 ≤ length numbers.old }
    requires few { length spans.now ≤ 32 }
    ensures { numbers.new ≡ written (padded 64 (name_numbers spans.now)) numbers.old }
{
    clear(numbers, 64);
    for (i, span) in spans.iter().enumerate() {
        numbers[2 * i] = span.start as u64;
        numbers[2 * i + 1] = span.end as u64;
    }
}

// The eight numbers of a constraint.
fn numbers_of(constraint: &Constraint) -> [u64; 8]
    ensures { result ≡ numbers_of constraint.now }
{
    let kind = &constraint.kind;
    let list = delay_list(kind);
    [
        kind_number(kind),
        u64::from(constraint.defined),
        u64::from(constraint.first),
        u64::from(constraint.second),
        await_number(kind),
        constraint.line.0 as u64,
        packed(&list),
        list.len() as u64,
    ]
}

// Writes the numbers of records, eight a record, into 512 places, 0 behind the last.
pub fn put_records(numbers: &mut [u64], records: &[Constraint])
    requires room { 512 ≤ length numbers.old }
    requires few { length records.now ≤ 64 }
    ensures { numbers.new ≡ written (padded 512 (record_numbers records.now)) numbers.old }
{
    clear(numbers, 512);
    for (i, constraint) in records.iter().enumerate() {
        numbers[8 * i..8 * i + 8].copy_from_slice(&numbers_of(constraint));
    }
}

// Writes the numbers of listed records into 32 places, 0 behind the last.
pub fn put_order(numbers: &mut [u64], records: &[usize])
    requires room { 32 ≤ length numbers.old }
    requires few { length records.now ≤ 32 }
    ensures { numbers.new ≡ written (padded 32 records.now) numbers.old }
{
    clear(numbers, 32);
    for (i, record) in records.iter().enumerate() {
        numbers[i] = *record as u64;
    }
}
