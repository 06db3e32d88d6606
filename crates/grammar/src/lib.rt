// A line of a table: its words told apart, the names of clocks with their numbers, the table so far, and the forms of a line as a reader of
// its words (document 01, "Table text"; document 02, M-101 and M-105).
#![tactic(auto)]

mod building;
mod line;
mod list;
mod listed;
mod name_list;
mod naming;
mod words;

pub use building::renumbered;
use constraint::{Kind, TickSet};
pub use list::{delay_list, number_up_to};
pub use listed::Constraints;
use std::marker::Model;
use text::{Span, Words};

// What a word is to the line reader: a word of a form, a clock's name, digits, a parenthesis, any other word, or none at a line's end.
#[derive(Clone, Copy, Debug, PartialEq, Eq)]
pub enum Token {
    End,
    Other,
    Name,
    Digits,
    ClockDef,
    Await,
    Strictly,
    Form(Kind),
    Open,
    Close,
    For,
}

// Where the names of the table's clocks first stand, in the order of their numbers, and whether a 33rd was named; in
// clauses a list and a flag, which an `ArrayVec` beside the flag would be no plainer for. Behind the last, spans are empty: see `Constraints`.
#[derive(Clone, Copy)]
pub struct Names {
    spans: [Span; 32],
    count: usize,
    over: bool,
}

impl Model for Names {
    ghost use Rattle.std.specs.Prelude.{length, take};
    ghost use Rattle.std.proofs.Common.{sym};
    ghost use mathlib.Core.Path.{ap₂};
    ghost use Rattle.text.specs.Split.{span};
    ghost use Rattle.grammar.specs.Fields.{padded, IsPadded};
    ghost use Rattle.grammar.specs.NameList.{NameList};

    ghost Value = { NameList };

    ghost view = { λ n. record { spans = take n.count n.spans; over = n.over } };

    ghost invariant = { λ n. IsPadded 32 (span 0 0) n.count n.spans };

    ghost inverse = { λ ns. record { spans = padded 32 (span 0 0) ns.spans; count = length ns.spans; over = ns.over } };

    ghost inverse_ok = { λ n h. ap₂ (λ ps k. record { spans = ps; count = k; over = n.over }) (sym h.2) h.1 };
}

// The records in table order, the names of their clocks, and how many implicit clocks there are.
#[derive(Clone, Copy)]
pub struct Table {
    pub records: Constraints<64>,
    pub names: Names,
    pub implicit: usize,
}

// The table so far, and the named clocks that it defines.
#[derive(Clone, Copy)]
pub struct Builder {
    pub table: Table,
    pub defined: TickSet,
}

// How many implicit clocks there are so far, in the lines above and in the line at hand, and the definitions of those that the line has.
#[derive(Clone, Copy)]
pub struct Inner {
    pub clocks: usize,
    pub definitions: Constraints<32>,
}

// The reader of a line's form: the words of the text up to the line's end that are left, the names of the table's clocks, and the implicit clocks so far.
#[derive(Drop)]
pub struct LineReader<'a> {
    pub words: Words<'a>,
    pub names: &'a Names,
    pub inner: Inner,
}
