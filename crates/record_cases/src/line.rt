// A line's words, and what stands behind those that name something: numbers, configurations and records.
use super::ask::Question;
use super::word::{Item, byte_of, item_of, kind_of, part_of, set_of};
use constraint::{Clocks, Configuration, Constraint, Kind, TickSet};
use limit::Place;
use std::array;
use text::{Class, Words};

// The words that say what stands behind them, beside those of SLOTS.
const KEYS: [&str; 8] = [
    "clocks",
    "named",
    "count",
    "words",
    "used",
    "second",
    "second_used",
    "every",
];

// The words in front of the record of one slot, with the slot's index. Limits 59 and 60 are asked with the first three alone.
pub const SLOTS: [(&str, usize); 5] = [
    ("1st", 0),
    ("2nd", 1),
    ("3rd", 2),
    ("64th", 63),
    ("66th", 65),
];

// As many records as a line can count.
pub const ROOM: usize = 66;

// Whether a word is one that a line may have.
fn is_known(word: &[u8]) -> bool {
    item_of(word).is_some()
        || Question::of(word).is_some()
        || kind_of(word, &[]).is_some()
        || KEYS.iter().any(|key| key.as_bytes() == word)
        || SLOTS.iter().any(|(key, _)| key.as_bytes() == word)
}

// The numbers in front of the first word that is none; each of the 64 that is left out is another number. An index, since dots go on with the last.
fn numbers(words: Words<'_>, other: i64) -> [i64; 64] {
    let mut all = [other; 64];
    let mut next = 0;
    for word in words {
        match item_of(word.bytes) {
            Some(Item::Number(n)) => {
                if let Some(place) = all.get_mut(next) {
                    *place = n;
                    next += 1;
                }
            }
            Some(Item::Dots) => next = 63,
            None => return all,
        }
    }
    all
}

// The words of a line behind its colon, each time walked over from the first on.
#[derive(Clone, Copy)]
pub struct Line<'a> {
    pub words: Words<'a>,
}

impl<'a> Line<'a> {
    pub fn of(text: &'a [u8]) -> Line<'a> {
        Line {
            words: Words::new(Class::Space, text),
        }
    }

    // Whether every word is one that a line may have.
    pub fn is_known(&self) -> bool {
        let mut words = self.words;
        words.all(|word| is_known(word.bytes))
    }

    // The words behind a word, if the line has it.
    fn behind(&self, key: &str) -> Option<Words<'a>> {
        let mut words = self.words;
        words.find(|word| word.bytes == key.as_bytes())?;
        Some(words)
    }

    // The numbers behind a word; each that is left out, and all where the line lacks the word, is another number.
    fn numbers(&self, key: &str, other: i64) -> [i64; 64] {
        match self.behind(key) {
            Some(words) => numbers(words, other),
            None => [other; 64],
        }
    }

    // The numbers behind a word, 0 where they are left out.
    pub fn list(&self, key: &str) -> [i64; 64] {
        self.numbers(key, 0)
    }

    // The number behind a word; another one where the line lacks it.
    fn number(&self, key: &str, other: i64) -> i64 {
        self.numbers(key, other)[0]
    }

    // The number of a clock behind a word.
    pub fn clock(&self, key: &str) -> u8 {
        byte_of(self.number(key, 0))
    }

    // The tick set behind a word.
    pub fn set(&self, key: &str) -> TickSet {
        set_of(self.number(key, 0))
    }

    // The clock count, 3 where the line does not say it, and the named count, all of them where it does not say that.
    pub fn clocks(&self) -> Clocks {
        let count = byte_of(self.number("clocks", 3));
        let named = byte_of(self.number("named", count as i64));
        Clocks { named, count }
    }

    // The configuration whose first words stand behind a word, and its second words behind another.
    pub fn configuration(&self, first: &str, second: &str) -> Configuration {
        let firsts = self.list(first);
        let seconds = self.list(second);
        Configuration {
            words: array::from_fn(|i| part_of(firsts[i], seconds[i])),
        }
    }

    // The record behind a word: a form, and the numbers of a, b, c and n, or of a delay's list instead of n.
    fn record(&self, key: &str) -> Option<Constraint> {
        let mut words = self.behind(key)?;
        let Some(form) = words.next() else {
            return Some(Constraint::EMPTY);
        };
        let all = numbers(words, 4_000_000_000);
        Some(Constraint {
            kind: kind_of(form.bytes, &all[3..]).unwrap_or(Kind::Empty),
            defined: byte_of(all[2]),
            first: byte_of(all[0]),
            second: byte_of(all[1]),
            line: Place(7),
        })
    }

    // The record behind `every`; an empty one where the line lacks it.
    pub fn every(&self) -> Constraint {
        match self.record("every") {
            Some(record) => record,
            None => Constraint::EMPTY,
        }
    }

    // As many records as the line counts, 1 where it does not say it: each the one behind `every`, but where the line says another. They stand in the
    // caller's room, since there is no heap.
    pub fn records<'r>(
        &self,
        slots: &[(&str, usize)],
        room: &'r mut [Constraint; ROOM],
    ) -> &'r [Constraint] {
        let count = self.number("count", 1).unsigned_abs().min(ROOM as u64) as usize;
        let records = &mut room[..count];
        records.fill(self.every());
        for (key, i) in slots {
            if let Some(slot) = records.get_mut(*i) {
                *slot = self.record(key).unwrap_or(*slot);
            }
        }
        records
    }
}
