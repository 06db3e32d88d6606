// Table text into records and names, or the first refusal of 10 to 20 and 22: document 01, "Table text" and the first two rows of
// "Where each refusal is checked"; document 02, M-101 and M-105.
#![tactic(auto)]

mod checks;
mod keys;
mod reader;
mod splitting;

pub use reader::read_table;

// Which of the checks 19 and 20 a line fails: over sixteen parentheses stand open; one has no partner. Flags, since one walk asks both.
#[derive(Clone, Copy, Debug, PartialEq, Eq)]
pub struct Pairing {
    pub deep: bool,
    pub unpaired: bool,
}

// Which of the checks 13, 14, 22 and 15 some words fail: a name over 16 bytes, an await number outside, a list of delays out of range, a clock
// named twice. Flags, since one walk asks all four.
#[derive(Clone, Copy, Debug, PartialEq, Eq)]
pub struct Flaws {
    pub long: bool,
    pub bad: bool,
    pub list: bool,
    pub twice: bool,
}

// The lines of a text from an offset on; past the text's end there is none.
#[derive(Clone, Copy)]
pub struct Lines<'a> {
    pub text: &'a [u8],
    pub at: usize,
}
