// The three lines of document 01, "The program", as bytes in a buffer: verdict, `steps n`, `config` and two words for each constraint.
ghost use Rattle.std.specs.Prelude.{map, ◌+◌, ◌≤◌, length};
ghost use Rattle.limit.specs.Limit.{number_of};
ghost use Rattle.run.specs.Run as run;
ghost use Rattle.printing.specs.Decimal.{signed};
ghost use Rattle.printing.specs.Printed as p;
ghost use Rattle.printing.specs.Put.{Short};

use super::put::put_text;
use super::value::{put_limit, put_pair, put_place, put_steps, put_time};
use super::{ROOM, shown};
use constraint::Word;
use limit::{Place, Refusal};
use recording::{Time, UnknownNames};
use run::{Report, Steps, Verdict};

// `violated`, table line and time.
fn violated(out: &mut [u8], at: usize, line: Place, time: Time) -> usize
    requires { at + 51 ≤ length out.old }
    ensures { Short 51 out.old at (p.verdict_line (run.violated line.0 time.0)) out.new result }
{
    let a = put_text(out, at, b"violated");
    let b = put_place(out, a, line);
    let c = put_time(out, b, time);
    put_text(out, c, b"\n")
}

// `refused`, number and place.
fn refused(out: &mut [u8], at: usize, refusal: Refusal) -> usize
    requires { at + 51 ≤ length out.old }
    ensures { Short 51 out.old at (p.verdict_line (run.refused (number_of refusal.limit) refusal.place.0)) out.new result }
{
    let limit = refusal.limit;
    let a = put_text(out, at, b"refused");
    let b = put_limit(out, a, limit);
    let c = put_place(out, b, refusal.place);
    put_text(out, c, b"\n")
}

fn verdict_line(out: &mut [u8], at: usize, verdict: Verdict) -> usize
    requires { at + 51 ≤ length out.old }
    ensures { Short 51 out.old at (p.verdict_line (run.said verdict)) out.new result }
{
    match verdict {
        Verdict::Accepted => put_text(out, at, b"accepted\n"),
        Verdict::Violated(line, time) => violated(out, at, line, time),
        Verdict::Refused(refusal) => refused(out, at, refusal),
    }
}

fn steps_line(out: &mut [u8], at: usize, steps: Steps) -> usize
    requires { at + 27 ≤ length out.old }
    ensures { Short 27 out.old at (p.steps_line steps.0) out.new result }
{
    let a = put_text(out, at, b"steps");
    let b = put_steps(out, a, steps);
    put_text(out, b, b"\n")
}

// Both words of each constraint, each behind a space, and the line's end.
fn put_words(out: &mut [u8], at: usize, words: &[Word]) -> usize
    requires few { length words.now ≤ 64 }
    requires room { at + 2689 ≤ length out.old }
    ensures { Short 2689 out.old at (p.rest (map signed (p.both words.now))) out.new result }
{
    let mut to = at;
    let mut i = 0;
    while i < words.len() {
        to = put_pair(out, to, words[i]);
        i += 1;
    }
    out[to] = b'\n';
    to + 1
}

fn config_line(out: &mut [u8], at: usize, words: &[Word]) -> usize
    requires few { length words.now ≤ 64 }
    requires room { at + 2695 ≤ length out.old }
    ensures { Short 2695 out.old at (p.config_line words.now) out.new result }
{
    let a = put_text(out, at, b"config");
    put_words(out, a, words)
}

// Puts the three lines of a report at the front of a buffer, and answers how many bytes they have.
pub fn report_text(report: &Report, buffer: &mut [u8; ROOM]) -> usize
    ensures { p.Begins buffer.old (p.printed (run.told report.now)) buffer.new result }
{
    let verdict = report.verdict;
    let a = verdict_line(buffer, 0, verdict);
    let b = steps_line(buffer, a, report.steps);
    config_line(buffer, b, shown(report))
}

// Puts what the program prints of a table and a recording, with a choice what becomes of names that the table lacks, at the front of a
// buffer, and answers how many bytes that are.
pub fn run_text(
    table: &[u8],
    recording: &[u8],
    unknown: UnknownNames,
    buffer: &mut [u8; ROOM],
) -> usize
    ensures { p.Begins buffer.old (p.printed (run.run_of table.now recording.now unknown)) buffer.new result }
{
    report_text(&run::run(table, recording, unknown), buffer)
}
