// Variables: their ids as numbers, and the look-up of ids and clocks.
ghost use Rattle.std.specs.Prelude.{◌≡◌, ◌∷◌, [], ◌++◌, ◌≤◌, ◌<◌, length, drop, leb};
ghost use Rattle.recording.specs.Index as x;
ghost use Rattle.recording.specs.Variables as v;

use super::NO_CLOCK;
use std::marker::Model;

// At most 128 variables, in the order of their declarations: the numbers that stand for their ids, and the numbers of their clocks, 32 where
// the table has none of that name. Ids are parted into buckets; a search for one begins where its bucket starts. Clauses see the list of variables,
// which gives the fields back: behind the last, numbers are 0, and a bucket starts at the first of its variables, or at 128.
#[derive(Clone, Copy)]
pub struct Variables {
    ids: [u64; 128],
    clocks: [u8; 128],
    count: usize,
    starts: [u8; 241],
}

impl Model for Variables {
    ghost use Rattle.std.specs.Prelude.{List};
    ghost use Rattle.recording.specs.Variables.{Variable};

    ghost Value = { List Variable };

    ghost use Rattle.recording.specs.Index.{declared, Indexed, fields, fields_back};

    ghost view = { declared };

    ghost invariant = { Indexed };

    ghost inverse = { fields };

    ghost inverse_ok = { fields_back };
}

// The digit of the byte at an index, 0 past the end.
#[inline(always)]
fn digit_at(id: &[u8], i: usize) -> u64
    ensures { (result ≡ x.digit_of (drop i id.now)) × (result ≤ 256) }
{
    match id.get(i) {
        Some(byte) => *byte as u64 + 1,
        None => 0,
    }
}

// The number that stands for an id.
#[inline(always)]
#[tactic(auto, using(crate::proofs::VariableLaws::code_digits, crate::proofs::VariableLaws::bytes_digits))]
fn code(id: &[u8]) -> u64
    requires { length id.now ≤ 4 }
    ensures { (result ≡ x.code_of id.now) × x.Bytes id.now }
{
    let a = digit_at(id, 0);
    let b = digit_at(id, 1);
    let c = digit_at(id, 2);
    let d = digit_at(id, 3);
    a + 256 * (b + 256 * (c + 256 * d))
}

// The bucket of an id's number, below 241.
#[inline(always)]
fn bucket(code: u64) -> usize
    ensures { (result ≡ x.bucket_of code) × (result < 241) }
{
    (code % 241) as usize
}

impl Variables {
    // No variables: every bucket starts behind all that may come.
    #[tactic(auto, unfolding(crate::specs::Index::variables_of, crate::specs::Index::fields, crate::specs::Index::starts_with))]
    pub fn new() -> Self
        ensures { result ≡ [] }
    {
        Variables {
            ids: [0; 128],
            clocks: [0; 128],
            count: 0,
            starts: [128; 241],
        }
    }

    // Whether there is no room for another.
    pub fn is_full(&self) -> bool
        ensures { result ≡ leb 128 (length self.now) }
    {
        128 <= self.count
    }

    // The clock of the variable with an id.
    #[inline(always)]
    #[tactic(auto, using(crate::proofs::VariableLaws::id_stop, crate::proofs::VariableLaws::id_on, crate::proofs::VariableLaws::id_done, crate::proofs::VariableLaws::starts_skip, crate::proofs::VariableLaws::look_of))]
    pub fn find(&self, id: &[u8]) -> Option<u8>
        ensures { result ≡ v.look_up self.now id.now }
    {
        if 4 < id.len() {
            return None;
        }
        let sought = code(id);
        for i in self.starts[bucket(sought)] as usize..self.count {
            if self.ids[i] == sought {
                return Some(self.clocks[i]);
            }
        }
        None
    }

    // Whether an id was declared.
    pub fn is_declared(&self, id: &[u8]) -> bool
        ensures { result ≡ v.is_declared (v.look_up self.now id.now) }
    {
        self.find(id).is_some()
    }

    // Whether a clock was declared.
    #[tactic(auto, using(crate::proofs::VariableLaws::clock_among))]
    fn has_clock(&self, clock: u8) -> bool
        ensures { result ≡ v.has_clock self.now clock }
    {
        self.clocks[..self.count].contains(&clock)
    }

    // Whether a clock of the table was declared.
    pub fn clock_again(&self, clock: u8) -> bool
        ensures { result ≡ v.clock_again self.now clock }
    {
        clock != NO_CLOCK && self.has_clock(clock)
    }

    // Whether all clocks below a number were declared.
    #[tactic(auto, using(crate::proofs::VariableLaws::all_stop, crate::proofs::VariableLaws::all_on, crate::proofs::VariableLaws::all_done))]
    pub fn all_declared(&self, clocks: u8) -> bool
        ensures { result ≡ v.all_declared self.now clocks }
    {
        for clock in (0..clocks).rev() {
            if !self.has_clock(clock) {
                return false;
            }
        }
        true
    }

    // Puts a variable behind the others, where there is room.
    #[tactic(auto, using(crate::proofs::VariableLaws::room, crate::proofs::VariableLaws::variables_more, crate::proofs::VariableLaws::declared_more))]
    pub fn declare(&mut self, id: &[u8], clock: u8)
        requires { (length id.now ≤ 4) × (length self.old < 128) }
        ensures { self.new ≡ self.old ++ record { id = id.now; clock = clock } ∷ [] }
    {
        let code = code(id);
        let bucket = bucket(code);
        self.ids[self.count] = code;
        self.clocks[self.count] = clock;
        self.starts[bucket] = self.starts[bucket].min(self.count as u8);
        self.count += 1;
    }
}
