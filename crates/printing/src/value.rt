// The values of a line, each behind a space. Steps and times, places, limits and words have a function each, so that none is put as
// another. A value has at most 20 bytes.
ghost use Rattle.std.specs.Prelude.{◌∷◌, ◌++◌, ◌+◌, ◌≤◌, length};
ghost use Rattle.constraint.specs.Pairs.{first, second};
ghost use Rattle.limit.specs.Limit.{number_of};
ghost use Rattle.text.specs.Digits.{digits};
ghost use Rattle.printing.specs.Decimal.{signed};
ghost use Rattle.printing.specs.Put.{Short};

use super::put::{put_number, put_text};
use constraint::Word;
use limit::{Limit, Place};
use recording::Time;
use run::Steps;

// A number behind a space.
fn spaced(out: &mut [u8], at: usize, n: u64) -> usize
    requires { at + 21 ≤ length out.old }
    ensures { Short 21 out.old at (32 ∷ digits n) out.new result }
{
    out[at] = b' ';
    put_number(out, at + 1, n)
}

// The number of accepted steps.
pub fn put_steps(out: &mut [u8], at: usize, steps: Steps) -> usize
    requires { at + 21 ≤ length out.old }
    ensures { Short 21 out.old at (32 ∷ digits steps.0) out.new result }
{
    spaced(out, at, steps.0)
}

// A recorded time.
pub fn put_time(out: &mut [u8], at: usize, time: Time) -> usize
    requires { at + 21 ≤ length out.old }
    ensures { Short 21 out.old at (32 ∷ digits time.0) out.new result }
{
    spaced(out, at, time.0)
}

// A line of the table, or the place of a refusal.
pub fn put_place(out: &mut [u8], at: usize, place: Place) -> usize
    requires { at + 21 ≤ length out.old }
    ensures { Short 21 out.old at (32 ∷ digits place.0) out.new result }
{
    spaced(out, at, place.0 as u64)
}

// The number of a limit.
pub fn put_limit(out: &mut [u8], at: usize, limit: Limit) -> usize
    requires { at + 21 ≤ length out.old }
    ensures { Short 21 out.old at (32 ∷ digits (number_of limit)) out.new result }
{
    spaced(out, at, limit.number() as u64)
}

// A word, with a minus sign where it is negative.
fn put_word(out: &mut [u8], at: usize, z: i64) -> usize
    requires { at + 21 ≤ length out.old }
    ensures { Short 21 out.old at (32 ∷ signed z) out.new result }
{
    let n = z.unsigned_abs();
    if z < 0 {
        let to = put_text(out, at, b" -");
        return put_number(out, to, n);
    }
    spaced(out, at, n)
}

// Both words of a constraint.
pub fn put_pair(out: &mut [u8], at: usize, w: Word) -> usize
    requires { at + 42 ≤ length out.old }
    ensures { Short 42 out.old at (32 ∷ signed (first w) ++ 32 ∷ signed (second w)) out.new result }
{
    let to = put_word(out, at, w.first);
    put_word(out, to, w.second)
}
