// Keys of names, by which 15 may be known before it is asked word by word.
ghost use Rattle.std.specs.Prelude.{◌≡◌, true};
ghost use Rattle.text.specs.Words.{words_left};
ghost use Rattle.table.specs.Answers as a;
ghost use Rattle.table.specs.Reader as d;

use super::checks::word_flaws;
use arrayvec::ArrayVec;
use grammar::Token;
use text::Words;

// A number that equal names share, cut to 55 bits at each byte so that it fits.
#[tactic(auto, unfolding(crate::specs::Answers::key_from))]
fn key_of(name: &[u8]) -> u64
    ensures { result ≡ a.key_of name.now }
{
    let mut sum: u64 = 0;
    for byte in name {
        sum = sum % 36_028_797_018_963_968 * 257 + *byte as u64;
    }
    sum
}

// Whether a name with this key is found to stand again behind itself, among some words. Only `true` tells something.
#[tactic(auto, using(crate::proofs::ReaderLaws::any_stop, crate::proofs::ReaderLaws::any_more), unfolding(crate::specs::Reader::any_word))]
fn twice_with_key(words: Words<'_>, key: u64) -> bool
    ensures { result ≡ true → d.any_word (d.twice words.entry.text.now) (words_left words.entry) ≡ true }
{
    let mut behind = words;
    while let Some(word) = behind.next() {
        if key_of(word.bytes) == key && word_flaws(word, behind, true).twice {
            return true;
        }
    }
    false
}

// What the keys of the names among some words tell: where all differ, no name stands twice; where two are the same, the names with that key are
// compared. Where there is no room for all of them, nothing is told.
#[tactic(auto, using(crate::proofs::KeyLaws::none_twice), unfolding(crate::proofs::KeyLaws::alike_in))]
fn by_keys(words: Words<'_>) -> Option<bool>
    ensures { a.Tells result (d.any_word (d.twice words.entry.text.now) (words_left words.entry)) }
{
    let mut keys: ArrayVec<u64, 1024> = ArrayVec::new();
    for word in words {
        if keys.is_full() {
            return None;
        }
        if Token::of(word.bytes).is(Token::Name) {
            let key = key_of(word.bytes);
            if keys.contains(&key) {
                if twice_with_key(words, key) {
                    return Some(true);
                }
                return None;
            }
            keys.push(key);
        }
    }
    Some(false)
}

// What is known of 15 before it is asked word by word. Keys are asked only of a line with too many names, which is refused in any case.
pub fn repeats(words: Words<'_>, many: bool) -> Option<bool>
    ensures { a.Tells result (d.any_word (d.twice words.entry.text.now) (words_left words.entry)) }
{
    if !many {
        return None;
    }
    by_keys(words)
}
