// What the program prints: document 01, "The program", three lines: verdict, `steps n`, `config` and two words for each constraint.
#![tactic(auto)]

ghost use Rattle.std.specs.Prelude.{◌≡◌, ◌≤◌, length, Some, MatchOption, ⊤};
ghost use Rattle.run.specs.Run as run;
ghost use Rattle.text.specs.Digits.{digits};
ghost use Rattle.printing.specs.Decimal.{signed};
ghost use Rattle.printing.specs.Printed as p;

mod put;
mod report;
mod value;

use arrayvec::ArrayString;
use constraint::Word;
pub use report::{report_text, run_text};
use run::{Report, Steps, Verdict};
use std::fmt;
use std::fmt::Write;

// A number in decimal digits.
#[derive(Clone, Copy, Debug)]
struct Number(u64);

impl fmt::Display for Number {
    ghost output = { λ n. Some (digits n.0) };

    #[tactic(auto, using(limit::proofs::Digits::digits_decimal))]
    fn fmt<W: fmt::Write>(&self, f: &mut fmt::Formatter<W>) -> fmt::Result {
        let number = self.0;
        write!(f, "{number}")
    }
}

// The first line: `accepted`, or `violated` with table line and time, or `refused` with number and place.
#[derive(Clone, Copy, Debug)]
struct VerdictLine<'a>(&'a Verdict);

impl<'a> fmt::Display for VerdictLine<'a> {
    ghost output = { λ l. Some (p.verdict_line (run.said l.0.now)) };

    fn fmt<W: fmt::Write>(&self, f: &mut fmt::Formatter<W>) -> fmt::Result {
        match self.0 {
            Verdict::Accepted => writeln!(f, "accepted"),
            Verdict::Violated(line, time) => writeln!(f, "violated {line} {}", Number(time.0)),
            Verdict::Refused(refusal) => writeln!(f, "{refusal}"),
        }
    }
}

// The second line: `steps` and how many were accepted.
#[derive(Clone, Copy, Debug)]
struct StepsLine(Steps);

impl fmt::Display for StepsLine {
    ghost output = { λ l. Some (p.steps_line l.0.0) };

    fn fmt<W: fmt::Write>(&self, f: &mut fmt::Formatter<W>) -> fmt::Result {
        writeln!(f, "steps {}", Number(self.0.0))
    }
}

// A number in decimal digits, with a minus sign where it is negative.
#[derive(Clone, Copy, Debug)]
struct Signed(i64);

impl fmt::Display for Signed {
    ghost output = { λ n. Some (signed n.0) };

    #[tactic(auto, using(crate::proofs::DecimalLaws::signed_decimal_is))]
    fn fmt<W: fmt::Write>(&self, f: &mut fmt::Formatter<W>) -> fmt::Result {
        let value = self.0;
        write!(f, "{value}")
    }
}

// The third line: `config` and both words of each constraint.
#[derive(Clone, Copy, Debug)]
struct ConfigLine<'a>(&'a [Word]);

impl<'a> fmt::Display for ConfigLine<'a> {
    ghost output = { λ l. Some (p.config_line l.0.now) };

    fn fmt<W: fmt::Write>(&self, f: &mut fmt::Formatter<W>) -> fmt::Result {
        write!(f, "config")?;
        for word in self.0 {
            write!(f, " {} {}", Signed(word.first), Signed(word.second))?;
        }
        writeln!(f)
    }
}

// The words of as many constraints as the table has; a configuration has those of 64.
fn shown(report: &Report) -> &[Word]
    ensures words { result.now ≡ p.shown (run.told report.now) }
    ensures few { length result.now ≤ 64 }
{
    let words = &report.configuration.words[..];
    words.get(..report.constraints).unwrap_or(words)
}

// The three lines of a report. Of the configuration are shown the words of as many constraints as the table has.
#[derive(Clone, Copy, Debug)]
pub struct ThreeLines<'a>(pub &'a Report);

impl<'a> fmt::Display for ThreeLines<'a> {
    ghost output = { λ t. Some (p.printed (run.told t.0.now)) };

    fn fmt<W: fmt::Write>(&self, f: &mut fmt::Formatter<W>) -> fmt::Result {
        let report = self.0;
        let verdict = VerdictLine(&report.verdict);
        let steps = StepsLine(report.steps);
        write!(f, "{verdict}{steps}{}", ConfigLine(shown(report)))
    }
}

// Room for the longest text. The verdict's line has at most 51 bytes (`violated`, two spaces, two numbers of 20 digits, a line end), that of
// the steps 27, and that of the configuration 2,695 (`config`, 128 spaces and words of 20 bytes, a line end).
pub const ROOM: usize = 2773;

// The three lines of a report as a text, written by `Display`. A formatter may fail, for all that its contract says; then there is none. `report_text`
// beside it can't fail, and is what the programs print.
pub fn text_of(report: &Report) -> Option<ArrayString<ROOM>>
    ensures { MatchOption result ⊤ (λ text. text.bytes ≡ p.printed (run.told report.now)) }
{
    let mut text = ArrayString::new();
    match write!(text, "{}", ThreeLines(report)) {
        Ok(()) => Some(text),
        Err(_) => None,
    }
}
