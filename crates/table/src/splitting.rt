// The lines of a text, one by one.
use super::Lines;
use text::{Class, Span};

impl<'a> Lines<'a> {
    ghost use Rattle.table.specs.Answers.{GivesLine};

    // Takes the next line, if one is left.
    fn line(&mut self) -> Option<Span>
        ensures { GivesLine self.old result self.new }
    {
        if self.text.len() < self.at {
            return None;
        }
        let start = self.at;
        let end = text::run_end(Class::Newline, false, self.text, start);
        self.at = end + 1;
        Some(Span { start, end })
    }
}

impl<'a> Iterator for Lines<'a> {
    ghost use Rattle.std.specs.Iterator.{item_count};
    ghost use Rattle.table.specs.Answers.{lines_left, GivesLine};

    type Item = Span;

    ghost next_gives = { GivesLine };

    ghost remaining = { item_count lines_left };

    fn next(&mut self) -> Option<Span> {
        self.line()
    }
}
