// The steps of a recording, one by one: each is given where it is closed, before the mark that closes it is read.
ghost use Rattle.std.specs.Prelude.{◌≡◌};

use super::body::{opens_mark, read_change, read_mark};
use super::{Step, Variables, Words};
use limit::{Place, Refusal};
use text::Span;

// What is left of a recording's body: its words; the open step, where a mark has begun one; and the mark that closed it, where it is not read yet.
#[derive(Clone, Copy)]
pub struct Steps<'v, 'r> {
    variables: &'v Variables,
    words: Words<'r>,
    current: Option<Step>,
    pending: Option<Span>,
}

impl<'v, 'r> Steps<'v, 'r> {
    ghost use Rattle.recording.specs.Left.{steps_left, GivesRefusal, GivesStep};
    ghost use Rattle.recording.specs.Body.{body_steps, ended, ends_with};
    ghost use Rattle.recording.specs.Left.{words_left};
    ghost use Rattle.std.specs.Prelude.{None};

    // The steps of a body's words, by variables.
    pub fn new(variables: &'v Variables, words: Words<'r>) -> Self
        ensures { steps_left result ≡ body_steps variables.now words.entry.text.now None (words_left words.entry) }
    {
        Steps {
            variables,
            words,
            current: None,
            pending: None,
        }
    }

    // Nothing more comes behind a refusal.
    fn refuse(&mut self, refusal: Refusal) -> Option<Result<Step, Refusal>>
        ensures { GivesRefusal refusal result self.new }
    {
        let text = self.words.text;
        self.words = Words {
            text,
            at: text.len(),
        };
        self.current = None;
        self.pending = None;
        Some(Err(refusal))
    }

    // The next step, or the refusal, behind which nothing comes.
    #[inline(always)]
    #[tactic(auto, unfolding(crate::specs::Body::body_steps, crate::specs::Body::word_turn, crate::specs::Body::onward, crate::specs::Body::closing))]
    fn take(&mut self) -> Option<Result<Step, Refusal>>
        ensures { GivesStep self.old result self.new }
    {
        if let Some(mark) = self.pending {
            self.pending = None;
            match read_mark(self.words.text, self.current, mark) {
                Ok(step) => self.current = Some(step),
                Err(refusal) => return self.refuse(refusal),
            }
        }
        loop {
            let Some(word) = self.words.next() else {
                let last = self.current?;
                self.current = None;
                return Some(Ok(last));
            };
            let bytes = word.of(self.words.text);
            if opens_mark(bytes) {
                if let Some(closed) = self.current {
                    self.pending = Some(word);
                    return Some(Ok(closed));
                }
                match read_mark(self.words.text, None, word) {
                    Ok(step) => self.current = Some(step),
                    Err(refusal) => return self.refuse(refusal),
                }
            } else {
                match read_change(self.variables, self.current, Place(word.start), bytes) {
                    Ok(step) => self.current = Some(step),
                    Err(refusal) => return self.refuse(refusal),
                }
            }
        }
    }
}

impl<'v, 'r> Iterator for Steps<'v, 'r> {
    ghost use Rattle.std.specs.Iterator.{at_most};
    ghost use Rattle.recording.specs.Left.{GivesStep, items_left};

    type Item = Result<Step, Refusal>;

    ghost next_gives = { GivesStep };

    ghost remaining = { λ s. at_most (items_left s) };

    #[inline(always)]
    #[tactic(auto, unfolding(crate::specs::Body::closing))]
    fn next(&mut self) -> Option<Result<Step, Refusal>> {
        self.take()
    }
}
