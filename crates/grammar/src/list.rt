// Numbers of a line, and the list of a delay: the digit runs behind `for` (document 02, M-105).
ghost use Rattle.std.specs.Prelude.{◌≡◌};
ghost use Rattle.grammar.specs.Answers as a;
ghost use Rattle.grammar.specs.Grammar as g;

use super::Token;
use super::words::eat;
use constraint::Delays;
use text::Words;

// The number that digits say, 0 where it is above the most that there may be.
pub fn number_up_to(most: u64, digits: &[u8]) -> u64
    ensures { result ≡ g.number_up_to most digits.now }
{
    match text::read_decimal(digits) {
        Ok(n) if n <= most => n,
        _ => 0,
    }
}

// A list with one number more, as long as it is in range.
fn with_number(list: Option<Delays>, n: u64) -> Option<Delays>
    ensures { result ≡ a.with_number list n }
{
    let mut more = list?;
    if n < 1 || 32 < n || more.is_full() {
        return None;
    }
    more.push(n as u8);
    Some(more)
}

// The list that the digit runs in front of some words are, up to the first other word; without a number where it is out of range.
#[tactic(auto, using(crate::proofs::ListLaws::run_first, crate::proofs::ListLaws::run_past, crate::proofs::ListLaws::run_shorter, crate::proofs::ListLaws::run_none, crate::proofs::ListLaws::none_past, crate::proofs::ListLaws::list_read))]
pub fn delay_list(words: &mut Words<'_>) -> Delays
    ensures { a.ListIs words.old result words.new }
{
    let mut list = Some(Delays::new());
    while let Some(digits) = eat(words, Token::Digits) {
        list = with_number(list, number_up_to(32, digits));
    }
    list.unwrap_or(Delays::new())
}
