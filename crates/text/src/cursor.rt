// The words of a text, one by one.
ghost use Rattle.std.specs.Prelude.{◌≡◌};

use super::{Class, Word, Words, next_word};

impl<'a> Words<'a> {
    ghost use Rattle.text.specs.Words.{GivesWord};

    // The words of a whole text.
    pub fn new(class: Class, text: &'a [u8]) -> Self
        ensures { (result.class ≡ class) × (result.text.now ≡ text.now) × (result.at ≡ 0) }
    {
        Words { class, text, at: 0 }
    }

    // Takes the next word, if one is left.
    fn word(&mut self) -> Option<Word<'a>>
        ensures { GivesWord self.old result self.new }
    {
        let span = next_word(self.class, self.text, self.at);
        if span.end <= span.start {
            return None;
        }
        self.at = span.end;
        let bytes = span.of(self.text);
        Some(Word { span, bytes })
    }
}

impl<'a> Iterator for Words<'a> {
    ghost use Rattle.std.specs.Iterator.{item_count};
    ghost use Rattle.text.specs.Words.{words_left, GivesWord};

    type Item = Word<'a>;

    ghost next_gives = { GivesWord };

    ghost remaining = { item_count words_left };

    fn next(&mut self) -> Option<Word<'a>> {
        self.word()
    }
}
