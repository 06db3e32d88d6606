// A constraint's part of a configuration, as the test programs print it.
use constraint::Word;
use std::fmt;

// Its first word, and where the second is not 0, a slash and the second.
#[derive(Clone, Copy, Debug)]
pub struct Part(pub Word);

impl fmt::Display for Part {
    fn fmt<W: fmt::Write>(&self, f: &mut fmt::Formatter<W>) -> fmt::Result {
        let Word { first, second } = self.0;
        match second {
            0 => write!(f, "{first}"),
            _ => write!(f, "{first}/{second}"),
        }
    }
}
