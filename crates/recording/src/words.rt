// The words of a recording, one by one.
ghost use Rattle.std.specs.Prelude.{◌≡◌};

use text::{Class, Span, next_word};

// The words that are left of a text from an offset on.
#[derive(Clone, Copy)]
pub struct Words<'a> {
    pub text: &'a [u8],
    pub at: usize,
}

impl<'a> Words<'a> {
    pub fn new(text: &'a [u8]) -> Self
        ensures { (result.text.now ≡ text.now) × (result.at ≡ 0) }
    {
        Words { text, at: 0 }
    }
}

impl<'a> Words<'a> {
    ghost use Rattle.recording.specs.Left.{GivesWord};

    // The next word, if there is one. Here the class is known, so that the search for a word is compiled for it.
    #[inline(always)]
    fn take(&mut self) -> Option<Span>
        ensures { GivesWord self.old result self.new }
    {
        let word = next_word(Class::Parting, self.text, self.at);
        if word.end <= word.start {
            return None;
        }
        self.at = word.end;
        Some(word)
    }
}

impl<'a> Iterator for Words<'a> {
    ghost use Rattle.std.specs.Iterator.{item_count};
    ghost use Rattle.recording.specs.Left.{words_left, GivesWord};

    type Item = Span;

    ghost next_gives = { GivesWord };

    ghost remaining = { item_count words_left };

    #[inline(always)]
    fn next(&mut self) -> Option<Span> {
        self.take()
    }
}
