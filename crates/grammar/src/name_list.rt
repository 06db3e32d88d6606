// The names of a table's clocks as a list, with room for 32.
ghost use Rattle.std.specs.Prelude.{◌≡◌, ◌≤◌, length};
ghost use Rattle.grammar.specs.Building.{no_names};

use super::Names;
use text::Span;

impl Names {
    // No name yet.
    pub fn new() -> Self
        ensures { result ≡ no_names }
    {
        Names {
            spans: [Span { start: 0, end: 0 }; 32],
            count: 0,
            over: false,
        }
    }

    // Where the names first stand, in the order of their numbers.
    pub fn as_slice(&self) -> &[Span]
        ensures value { result.now ≡ self.now.spans }
        ensures fits { length result.now ≤ 32 }
    {
        &self.spans[..self.count]
    }

    // How many names there are.
    pub fn len(&self) -> usize
        ensures value { result ≡ length self.now.spans }
        ensures few { result ≤ 32 }
    {
        self.count
    }

    // Whether one more was named than there is room for.
    pub fn is_over(&self) -> bool
        ensures { result ≡ self.now.over }
    {
        self.over
    }
}
