// The words of the body: marks and changes, and what they do to the open step.
ghost use Rattle.std.specs.Prelude.{◌≡◌, Ok};
ghost use Rattle.limit.specs.Checked.{checked};
ghost use Rattle.text.specs.Split.{bytes_of};
ghost use Rattle.recording.specs.Body as b;

use super::{Step, Time, Variables};
use constraint::TickSet;
use limit::{Limit, Place, Refusal};
use text::{Span, Spoilt, read_decimal};

// Whether a word opens with `#`.
#[inline(always)]
pub fn opens_mark(word: &[u8]) -> bool
    ensures { result ≡ b.opens_mark word.now }
{
    word.first() == Some(&b'#')
}

// A mark at a time.
#[inline(always)]
fn timed(current: Option<Step>, at: Place, time: u64) -> Result<Step, Refusal>
    ensures { checked result ≡ b.time_turn current at.0 (Ok time) }
{
    if let Some(step) = current {
        if time <= step.time.0 {
            return Err(Limit::MarkTime.at(at));
        }
    }
    Ok(Step {
        mark: at,
        time: Time(time),
        ticks: TickSet::EMPTY,
    })
}

// A word that opens with `#`, behind the step that it closes, where there is one.
#[inline(always)]
#[tactic(auto, using(crate::proofs::BodyLaws::mark_room, crate::proofs::BodyLaws::other_within, crate::proofs::BodyLaws::large_within), unfolding(crate::specs::Body::mark_turn))]
pub fn read_mark(recording: &[u8], current: Option<Step>, word: Span) -> Result<Step, Refusal>
    ensures { checked result ≡ b.mark_turn current word.start (bytes_of recording.now word) }
{
    let at = Place(word.start);
    let Some((_, digits)) = word.of(recording).split_first() else {
        return Err(Limit::BodyWord.at(at));
    };
    match read_decimal(digits) {
        Err(Spoilt::NotDigit(i)) => Err(Limit::BodyWord.at(Place(word.start + 1 + i))),
        Err(Spoilt::TooLarge(i)) => Err(Limit::MarkTime.at(Place(word.start + 1 + i))),
        Ok(time) => timed(current, at, time),
    }
}

// Whether a byte is the value of a change.
#[inline(always)]
fn is_value(byte: u8) -> bool
    ensures { result ≡ b.is_value byte }
{
    matches!(byte, b'0' | b'1' | b'x' | b'X' | b'z' | b'Z')
}

// A tick of the variable with an id.
#[inline(always)]
fn tick(variables: &Variables, current: Option<Step>, at: Place, id: &[u8]) -> Result<Step, Refusal>
    ensures { checked result ≡ b.variable_turn variables.now current at.0 id.now }
{
    let step = current.ok_or(Limit::ChangeBeforeMark.at(at))?;
    let clock = variables.find(id).ok_or(Limit::IdUndeclared.at(at))?;
    if step.ticks.contains(clock) {
        return Err(Limit::TickTwice.at(at));
    }
    Ok(Step {
        mark: step.mark,
        time: step.time,
        ticks: step.ticks.with(clock),
    })
}

// A word that opens no mark, at an offset.
#[inline(always)]
#[tactic(auto, unfolding(crate::specs::Body::change_turn))]
pub fn read_change(
    variables: &Variables,
    current: Option<Step>,
    at: Place,
    word: &[u8],
) -> Result<Step, Refusal>
    ensures { checked result ≡ b.change_turn variables.now current at.0 word.now }
{
    let Some((value, id)) = word.split_first() else {
        return Err(Limit::BodyWord.at(at));
    };
    if id.is_empty() || !is_value(*value) {
        return Err(Limit::BodyWord.at(at));
    }
    tick(variables, current, at, id)
}
