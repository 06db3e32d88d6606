// Records and configurations as C hands them in, in numbers. Functions, since `From` between types of other crates is not allowed.
ghost use Rattle.std.specs.Prelude.{◌≡◌, ◌+◌, ◌≤◌, length, take};
ghost use Rattle.std.specs.List.{list_all};
ghost use Rattle.monitor_c.specs.Calls.{shape};
ghost use Rattle.monitor_c.specs.Numbers.{clock_of, clocks_of, configuration_of, kind_known, record_of, records_of, row_at};

use super::Status;
use super::kinds::{clock_of, kind_of};
use constraint::{Clocks, Configuration, Constraint, Word};
use grammar::Constraints;
use limit::Place;

// How many clocks are named, and how many there are.
#[inline(always)]
pub fn clocks_of(named: u32, clocks: u32) -> Clocks
    ensures { result ≡ clocks_of named clocks }
{
    Clocks {
        named: clock_of(u64::from(named)),
        count: clock_of(u64::from(clocks)),
    }
}

// The record that eight numbers stand for.
#[inline(always)]
fn record_of(row: &[u64; 8]) -> Constraint
    ensures { result ≡ record_of (row_at row.now 0) }
{
    let [kind, c, a, b, n, line, numbers, count] = *row;
    Constraint {
        kind: kind_of(kind, n, numbers, count),
        defined: clock_of(c),
        first: clock_of(a),
        second: clock_of(b),
        line: Place(line as usize),
    }
}

// Whether every record's kind is one.
fn kinds_known(rows: &[[u64; 8]]) -> bool
    ensures { result ≡ list_all kind_known rows.now }
{
    rows.iter().all(|row| row[0] <= 14)
}

// Whether the numbers have the shape of records: they come in eights, and each record's kind is one.
pub fn shape(numbers: &[u64]) -> Result<(), Status>
    ensures { result ≡ shape numbers.now }
{
    let (rows, rest) = numbers.as_chunks::<8>();
    if !rest.is_empty() {
        return Err(Status::RecordsRagged);
    }
    if !kinds_known(rows) {
        return Err(Status::KindUnknown);
    }
    Ok(())
}

// The records that the numbers stand for, the first 65 of them, since more than 64 are refused at the 65th.
#[inline(always)]
pub fn records_of(numbers: &[u64]) -> Constraints<65>
    ensures { result ≡ take 65 (records_of numbers.now) }
{
    let (rows, _) = numbers.as_chunks::<8>();
    let first = &rows[..rows.len().min(65)];
    let mut records = Constraints::new();
    for row in first {
        records.push(record_of(row));
    }
    records
}

// The configuration with the first 64 pairs of words.
#[inline(always)]
pub fn configuration_of(words: &[i64]) -> Configuration
    requires { 128 ≤ length words.now }
    ensures { result ≡ configuration_of words.now }
{
    let mut pairs = [Word {
        first: 0,
        second: 0,
    }; 64];
    for i in 0..64 {
        pairs[i] = Word {
            first: words[2 * i],
            second: words[2 * i + 1],
        };
    }
    Configuration { words: pairs }
}
