// The names of a table's clocks, numbered from 0 at first appearance.
ghost use Rattle.std.specs.Prelude.{◌≡◌};
ghost use Rattle.grammar.specs.Names as n;

use super::{Names, Token};
use text::{Span, Words};

impl Names {
    // The number of the clock with a name, which may stand in another text than the names.
    #[tactic(auto, unfolding(crate::specs::Names::position))]
    pub fn find(&self, text: &[u8], name: &[u8]) -> Option<u8>
        ensures { result ≡ n.number_in text.now self.now name.now }
    {
        for (i, span) in self.as_slice().iter().enumerate() {
            if text::same_bytes(span.of(text), name) {
                return Some(i as u8);
            }
        }
        None
    }

    // One name more, if there is room for it.
    fn push(&mut self, word: Span)
        ensures { self.new ≡ n.with_new self.old word }
    {
        if 32 <= self.count {
            self.over = true;
            return;
        }
        self.spans[self.count] = word;
        self.count += 1;
    }
}

impl Names {
    ghost use Rattle.text.specs.Words.{words_left};

    // Puts those of the words behind the others that are new names.
    #[tactic(auto, unfolding(crate::specs::Names::with_words, crate::specs::Names::unless_found))]
    pub fn insert(&mut self, words: Words<'_>)
        ensures { self.new ≡ n.with_words words.entry.text.now self.old (words_left words.entry) }
    {
        for word in words {
            if Token::of(word.bytes).is(Token::Name)
                && self.find(words.text, word.bytes).is_none()
            {
                self.push(word.span);
            }
        }
    }
}
