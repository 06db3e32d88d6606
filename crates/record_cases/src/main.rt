// Asks the calls on records what each line of `data/cases` asks, and prints the answers. What documents 01 and 02 say of each stands in `stdout`.
#![tactic(auto)]

ghost use Rattle.std.specs.Prelude.{◌≤◌, length};

mod ask;
mod line;
mod word;

use ask::Question;
use line::Line;
use std::io;
use text::{Class, Words};

// Where the text behind a line's colon begins: at its end where it has none.
fn behind_colon(text: &[u8]) -> usize
    ensures { result ≤ length text.now }
{
    let mut words = Words::new(Class::Space, text);
    match words.find(|word| word.bytes == b":".as_slice()) {
        Some(_) => words.at.min(text.len()),
        None => text.len(),
    }
}

// What is asked, where every word of the text is one that a line may have. A text that ends with a space is bad, too.
fn asked<'a>(text: &[u8], line: &Line<'a>) -> Option<Question> {
    if text.last() == Some(&b' ') || !line.is_known() {
        return None;
    }
    let mut words = line.words;
    Question::of(words.next()?.bytes)
}

// The answer to a line: its name, a colon, and what the calls say. One without bytes, and one that starts with a minus sign, asks nothing. One without
// a colon is a bad line.
fn answer(rt: &impl Print, text: &[u8]) -> io::Result<()> {
    if text.is_empty() || text[0] == b'-' {
        return Ok(());
    }
    let start = behind_colon(text);
    let end = if 2 <= start { start - 2 } else { start };
    rt.write_all(&text[..end])?;
    print!(rt; ":")?;
    let text = &text[start..];
    let line = Line::of(text);
    match asked(text, &line) {
        Some(question) => question.ask(rt, &line)?,
        None => print!(rt; " bad line")?,
    }
    println!(rt)
}

fn main(rt: HostRuntime) -> io::Result<()> {
    let mut buffer = [0u8; 65536];
    let cases = console::read_file(&rt, &rt.stderr(), b"cases", &mut buffer);
    for line in cases.split(|byte| *byte == b'\n') {
        answer(&rt, line)?;
    }
    Ok(())
}
