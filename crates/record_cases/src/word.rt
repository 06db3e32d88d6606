// What the words of a line say.
use constraint::{Definition, Delays, Kind, Relation, TickSet, Word};
use std::str;
use text::read_decimal;

// A number, or that the next number is the last of 64.
#[derive(Clone, Copy)]
pub enum Item {
    Number(i64),
    Dots,
}

// A number below 2^32.
fn number(word: &[u8]) -> Option<u32> {
    u32::try_from(read_decimal(word).ok()?).ok()
}

// What a word says, if it is a number or dots. A small letter alone is the number of a clock, from 0 for a, and a minus sign alone one that no
// clock and no await has.
pub fn item_of(word: &[u8]) -> Option<Item> {
    match word {
        [b'-'] => Some(Item::Number(4_000_000_000)),
        [letter] if b'a' <= *letter => Some(Item::Number((*letter - b'a') as i64)),
        [b'-', digits @ ..] => number(digits).map(|n| Item::Number(-(n as i64))),
        [b'.', _, ..] => Some(Item::Dots),
        _ => number(word).map(|n| Item::Number(n as i64)),
    }
}

// A number, without its sign, as that of a clock, as a list's length or as one of its numbers: 200 for one above 255.
pub fn byte_of(n: i64) -> u8 {
    u8::try_from(n.unsigned_abs()).unwrap_or(200)
}

// A number, without its sign, as the bits of a tick set or as the number of an await: 0 for one that does not fit.
pub fn bits_of(n: i64) -> u32 {
    u32::try_from(n.unsigned_abs()).unwrap_or(0)
}

// The clocks whose numbers are the bits of a number.
pub fn set_of(n: i64) -> TickSet {
    TickSet::from_bits(bits_of(n))
}

// A configuration's part of these two words. Two that are not kept as they are, since no constraint can have them, are out of every range.
pub fn part_of(first: i64, second: i64) -> Word {
    let kept = if first < 0 {
        second == 0
    } else {
        first < 4_294_967_296 && 0 <= second && second < 2_147_483_648
    };
    if kept {
        Word { first, second }
    } else {
        Word {
            first: -1_000_001,
            second: 0,
        }
    }
}

// The list of a delay, of numbers that begin with its length: the empty list where a number of it is 0, and where there are more than it has
// room for.
fn delays_of(numbers: &[i64]) -> Delays {
    let mut list = Delays::new();
    let Some((length, numbers)) = numbers.split_first() else {
        return list;
    };
    for n in numbers.iter().take(byte_of(*length) as usize) {
        let n = byte_of(*n);
        if n == 0 || list.is_full() {
            return Delays::new();
        }
        list.push(n);
    }
    list
}

// The kind that a word says, with the number n of an await, or the list of a delay, which begins in its place.
pub fn kind_of(word: &[u8], n: &[i64]) -> Option<Kind> {
    let kind = match str::from_utf8(word).ok()? {
        "empty" => Kind::Empty,
        "=" => Kind::Relates(Relation::Coincides),
        "#" => Kind::Relates(Relation::Excludes),
        "isSubClockOf" => Kind::Relates(Relation::SubClock),
        "strictly_precedes" => Kind::Relates(Relation::StrictlyPrecedes),
        "precedes" => Kind::Relates(Relation::Precedes),
        "clockUnion" => Kind::Defines(Definition::Union),
        "clockInter" => Kind::Defines(Definition::Inter),
        "lub" => Kind::Defines(Definition::Lub),
        "glb" => Kind::Defines(Definition::Glb),
        "await" => Kind::Defines(Definition::Await(
            bits_of(n.first().copied().unwrap_or(0)) as u64,
        )),
        "strictly_sampled" => Kind::Defines(Definition::StrictlySampled),
        "sampled" => Kind::Defines(Definition::Sampled),
        "upto" => Kind::Defines(Definition::Upto),
        "deferred" => Kind::Defines(Definition::Deferred(delays_of(n))),
        _ => return None,
    };
    Some(kind)
}
