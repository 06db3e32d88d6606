// The questions, and what the calls answer. Behind a step stand the words of which a part is not 0, as place and word.
use super::line::{Line, ROOM, SLOTS};
use super::word::{byte_of, set_of};
use console::Part;
use constraint::{
    Configuration, Constraint, Likeness, Seen, TickSet, Word, broken_record, broken_word,
};
use judging::Stopped;
use lent::Monitor;
use limit::Place;
use std::{fmt, io, str};

// What a line asks, by its first word.
#[derive(Clone, Copy)]
pub enum Question {
    Step,
    Advance,
    SamePlace,
    Rule,
    Range,
    Fits,
    BrokenRecord,
    BrokenWord,
    WithTick,
    Start,
}

// ` yes` or ` no`.
fn yes_or_no(yes: bool) -> &'static str {
    if yes { " yes" } else { " no" }
}

// The words of which a part is not 0, each behind its place.
#[derive(Clone, Copy)]
struct Moved<'a>(&'a Configuration);

impl<'a> fmt::Display for Moved<'a> {
    fn fmt<W: fmt::Write>(&self, f: &mut fmt::Formatter<W>) -> fmt::Result {
        for (i, word) in self.0.words.iter().enumerate() {
            if word.first != 0 || word.second != 0 {
                write!(f, " {}:{}", i + 1, Part(*word))?;
            }
        }
        Ok(())
    }
}

// The answer of a step, and the words after it.
fn say_step(rt: &impl Print, stopped: Option<Stopped>, after: &Configuration) -> io::Result<()> {
    match stopped {
        None => print!(rt; " accepted{}", Moved(after)),
        Some(Stopped::Violated(place)) => print!(rt; " violated {place}{}", Moved(after)),
        Some(Stopped::Refused(refusal)) => print!(rt; " {refusal}{}", Moved(after)),
    }
}

fn say_broken(rt: &impl Print, broken: Option<Place>) -> io::Result<()> {
    match broken {
        None => print!(rt; " passes"),
        Some(place) => print!(rt; " {place}"),
    }
}

// A dot where the record does not allow a step with this tick set, else its word after it, past its million too.
fn say_cell(rt: &impl Print, record: &Constraint, word: Word, ticks: TickSet) -> io::Result<()> {
    match record.look(word, ticks) {
        Seen::Out => print!(rt; " ?"),
        Seen::Fails => print!(rt; " ."),
        Seen::Leaves(after) | Seen::Moves(after) => print!(rt; " {}", Part(after)),
    }
}

impl Question {
    pub fn of(word: &[u8]) -> Option<Question> {
        let question = match str::from_utf8(word).ok()? {
            "step" => Question::Step,
            "advance" => Question::Advance,
            "same_place" => Question::SamePlace,
            "rule" => Question::Rule,
            "range" => Question::Range,
            "fits" => Question::Fits,
            "broken_record" => Question::BrokenRecord,
            "broken_word" => Question::BrokenWord,
            "with_tick" => Question::WithTick,
            "start" => Question::Start,
            _ => return None,
        };
        Some(question)
    }

    // Asks the call, and prints its answer.
    pub fn ask(self, rt: &impl Print, line: &Line<'_>) -> io::Result<()> {
        match self {
            Question::Step => step(rt, line),
            Question::Advance => advance(rt, line),
            Question::SamePlace => same_place(rt, line),
            Question::Rule => rule(rt, line),
            Question::Range => range(rt, line),
            Question::Fits => fits(rt, line),
            Question::BrokenRecord => {
                let mut room = [Constraint::EMPTY; ROOM];
                let records = line.records(&SLOTS[..3], &mut room);
                say_broken(rt, broken_record(records, line.clocks()))
            }
            Question::BrokenWord => {
                let mut room = [Constraint::EMPTY; ROOM];
                let records = line.records(&SLOTS[..3], &mut room);
                say_broken(
                    rt,
                    broken_word(records, &line.configuration("words", "used")),
                )
            }
            Question::WithTick => with_tick(rt, line),
            Question::Start => start(rt, line),
        }
    }
}

// The single step.
fn step(rt: &impl Print, line: &Line<'_>) -> io::Result<()> {
    let mut room = [Constraint::EMPTY; ROOM];
    let records = line.records(&SLOTS, &mut room);
    let before = line.configuration("words", "used");
    match lent::step(records, line.clocks(), before, line.set("step")) {
        Ok(after) => say_step(rt, None, &after),
        Err(stopped) => say_step(rt, Some(stopped), &before),
    }
}

// The lent monitor, moved forward from where the words say that it stands.
fn advance(rt: &impl Print, line: &Line<'_>) -> io::Result<()> {
    let mut room = [Constraint::EMPTY; ROOM];
    let records = line.records(&SLOTS, &mut room);
    let mut monitor = Monitor {
        configuration: line.configuration("words", "used"),
    };
    let stopped = monitor
        .advance(records, line.clocks(), line.set("advance"))
        .err();
    say_step(rt, stopped, &monitor.configuration)
}

// The same-place question.
fn same_place(rt: &impl Print, line: &Line<'_>) -> io::Result<()> {
    let mut room = [Constraint::EMPTY; ROOM];
    let records = line.records(&SLOTS, &mut room);
    let first = line.configuration("words", "used");
    let second = line.configuration("second", "second_used");
    match lent::same_place(records, line.clocks(), first, second) {
        Ok(Likeness::Same) => print!(rt; " same"),
        Ok(Likeness::Different) => print!(rt; " different"),
        Err(refusal) => print!(rt; " {refusal}"),
    }
}

// The monitor that the records start with.
fn start(rt: &impl Print, line: &Line<'_>) -> io::Result<()> {
    let mut room = [Constraint::EMPTY; ROOM];
    let records = line.records(&SLOTS, &mut room);
    match Monitor::start(records, line.clocks()) {
        Ok(monitor) => print!(rt; " started{}", Moved(&monitor.configuration)),
        Err(refusal) => print!(rt; " {refusal}"),
    }
}

// The record from the first word, on {}, {a}, {b}, {a, b}, {c}, {a, c}, {b, c}, {a, b, c}.
fn rule(rt: &impl Print, line: &Line<'_>) -> io::Result<()> {
    let record = line.every();
    let word = line.configuration("words", "used").words[0];
    for bits in 0..8 {
        say_cell(rt, &record, word, TickSet::from_bits(bits))?;
    }
    Ok(())
}

// The start word of the record, and whether each of four words is in its range.
fn range(rt: &impl Print, line: &Line<'_>) -> io::Result<()> {
    let record = line.every();
    print!(rt; " starts at {},", Part(record.start()))?;
    for word in &line.configuration("range", "used").words[..4] {
        print!(rt; "{}", yes_or_no(record.is_in_range(*word)))?;
    }
    Ok(())
}

// Whether the record is well-formed, and whether it defines a clock.
fn fits(rt: &impl Print, line: &Line<'_>) -> io::Result<()> {
    let record = line.every();
    let fitted = record.fits_clocks(line.clocks(), TickSet::EMPTY);
    let earlier = TickSet::EMPTY.with(line.clock("fits"));
    print!(rt; "{}", yes_or_no(fitted.fits))?;
    print!(rt; "{}", yes_or_no(record.defines_again(earlier)))
}

// A tick set with a clock put in, and whether each of four clocks is in it then.
fn with_tick(rt: &impl Print, line: &Line<'_>) -> io::Result<()> {
    let all = line.list("with_tick");
    let set = set_of(all[0]).with(byte_of(all[1]));
    print!(rt; " {}", set.bits())?;
    for member in &all[2..6] {
        print!(rt; "{}", yes_or_no(set.contains(byte_of(*member))))?;
    }
    Ok(())
}
