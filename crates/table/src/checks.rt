// The checks 13, 14, 22 and 15 of a line's words, all in one walk.
ghost use Rattle.std.specs.Prelude.{◌≡◌, ◌||◌};
ghost use Rattle.text.specs.Split.{bytes_of};
ghost use Rattle.text.specs.Words.{words_left};
ghost use Rattle.table.specs.Answers as a;
ghost use Rattle.table.specs.Reader as d;

use super::Flaws;
use grammar::{Token, delay_list, number_up_to};
use text::{Word, Words};

impl Flaws {
    // No check is failed.
    const NONE: Flaws = Flaws {
        long: false,
        bad: false,
        list: false,
        twice: false,
    };

    // What either of two fails.
    fn or(self, other: Flaws) -> Flaws
        ensures { result ≡ a.either self other }
    {
        Flaws {
            long: self.long || other.long,
            bad: self.bad || other.bad,
            list: self.list || other.list,
            twice: self.twice || other.twice,
        }
    }
}

// Whether a name stands again among some words.
#[tactic(auto, unfolding(crate::specs::Reader::any_word))]
fn stands_again(words: Words<'_>, name: &[u8]) -> bool
    ensures { result ≡ d.any_word (d.same_as words.entry.text.now name.now) (words_left words.entry) }
{
    for word in words {
        if text::same_bytes(word.bytes, name) {
            return true;
        }
    }
    false
}

// The number of an await, which is the first of the words behind it; 0 where it is none up to 1,000,000.
#[tactic(auto, unfolding(text::specs::Split::front, text::specs::Digits::read_decimal))]
fn await_number(behind: Words<'_>) -> u64
    ensures { result ≡ a.number_in_front behind.entry.text.now (words_left behind.entry) }
{
    let mut words = behind;
    match words.next() {
        Some(word) => number_up_to(1_000_000, word.bytes),
        None => 0,
    }
}

// Which checks a word fails, by itself or with the words behind it; 15 where that is asked.
pub fn word_flaws(word: Word<'_>, behind: Words<'_>, ask: bool) -> Flaws
    requires { word.bytes.now ≡ bytes_of behind.text.now word.span }
    ensures { result ≡ a.word_flaws behind.entry.text.now ask word.entry.span (words_left behind.entry) }
{
    let token = Token::of(word.bytes);
    if token.is(Token::Name) {
        return Flaws {
            long: 16 < word.bytes.len(),
            twice: ask && stands_again(behind, word.bytes),
            ..Flaws::NONE
        };
    }
    if token.is(Token::Await) {
        return Flaws {
            bad: await_number(behind) == 0,
            ..Flaws::NONE
        };
    }
    if token.is(Token::For) {
        let mut words = behind;
        return Flaws {
            list: delay_list(&mut words).len() == 0,
            ..Flaws::NONE
        };
    }
    Flaws::NONE
}

// Which checks some words fail; 15 where that is asked.
#[tactic(auto, using(crate::proofs::ReaderLaws::flaws_on), unfolding(crate::specs::Reader::any_word))]
pub fn flaws(words: Words<'_>, ask: bool) -> Flaws
    ensures { result ≡ a.flaws_of words.entry.text.now ask (words_left words.entry) }
{
    let mut found = Flaws::NONE;
    let mut behind = words;
    while let Some(word) = behind.next() {
        found = found.or(word_flaws(word, behind, ask));
    }
    found
}
