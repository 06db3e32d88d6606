// Lines in their order, each with its checks in theirs, and the whole table.
ghost use Rattle.std.specs.Prelude.{◌≡◌, ◌+◌, ◌<◌, ◌≤◌, ◌^◌, leb, length};
ghost use Rattle.forms.specs.Lines as l;
ghost use Rattle.limit.specs.Checked as c;
ghost use Rattle.text.specs.Words.{words_left};
ghost use Rattle.table.specs.Answers as a;
ghost use Rattle.table.specs.Reader as d;

use super::checks::flaws;
use super::keys::repeats;
use super::{Lines, Pairing};
use constraint::Constraint;
use grammar::{Builder, Inner, LineReader, Names, Table};
use limit::{Limit, Place, Refusal};
use text::{Class, Words};

// How many parentheses stand open behind a byte.
fn opened(many: usize, byte: u8) -> usize
    requires { many + 1 < 2 ^ 64 }
    ensures { result ≡ l.opened many byte }
{
    match byte {
        b'(' => many + 1,
        b')' => many.saturating_sub(1),
        _ => many,
    }
}

// Whether the parentheses of some bytes go too deep, or one has no partner.
#[tactic(auto, unfolding(forms::specs::Lines::too_deep, forms::specs::Lines::unpaired))]
fn parentheses(bytes: &[u8]) -> Pairing
    ensures { result ≡ a.pairing bytes.now }
{
    let mut many = 0;
    let mut deep = false;
    let mut alone = false;
    for byte in bytes {
        alone = alone || *byte == b')' && many == 0;
        many = opened(many, *byte);
        deep = deep || 16 < many;
    }
    Pairing {
        deep,
        unpaired: alone || many != 0,
    }
}

// Refuses where a limit is broken.
fn refuse_if(broken: bool, limit: Limit, place: Place) -> Result<(), Refusal>
    ensures { c.checked result ≡ c.refuse_if broken limit place.0 (c.passed tt) }
{
    if broken { Err(limit.at(place)) } else { Ok(()) }
}

// Whether two numbers together are a third or more.
fn reach(most: usize, one: usize, other: usize) -> bool
    ensures { result ≡ leb most (one + other) }
{
    most <= one || most - one <= other
}

// A 33rd clock, named or implicit.
fn many_clocks(names: &Names, inner: &Inner) -> bool
    ensures { result ≡ d.many_clocks names.now inner.now }
{
    names.is_over() || reach(33, names.len(), inner.clocks)
}

// Checks 16, 17 and 18 of a line's constraint, and the line in the table, whose names have those of the line.
#[tactic(auto, unfolding(crate::specs::Reader::add_line))]
fn add_line(
    builder: &mut Builder,
    inner: Inner,
    constraint: Constraint,
    place: Place,
) -> Result<(), Refusal>
    ensures { a.line_read result builder.new ≡ d.add_line place.0 builder.old builder.old.table.names inner constraint }
{
    let again = constraint.defines_again(builder.defined);
    let many = many_clocks(&builder.table.names, &inner);
    let full = reach(64, builder.table.records.len(), inner.definitions.len());
    refuse_if(again, Limit::DefinedTwice, place)?;
    refuse_if(many, Limit::TableClocks, place)?;
    refuse_if(full, Limit::TableConstraints, place)?;
    builder.insert(place, inner, constraint);
    Ok(())
}

// Checks 12 to 18 and 22 of a line's words.
#[tactic(auto, unfolding(crate::specs::Reader::form_step, crate::specs::Reader::add_line))]
fn read_words(builder: &mut Builder, words: Words<'_>, place: Place) -> Result<(), Refusal>
    ensures { a.line_read result builder.new ≡ d.words_step words.entry.text.now place.0 builder.old (words_left words.entry) }
{
    builder.table.names.insert(words);
    let mut reader = LineReader {
        words,
        names: &builder.table.names,
        inner: Inner::new(builder.table.implicit),
    };
    let constraint = reader.line_form(16).ok_or(Limit::LineForm.at(place))?;
    let inner = reader.inner;
    let known = repeats(words, builder.table.names.is_over());
    let failed = flaws(words, known.is_none());
    refuse_if(failed.long, Limit::NameLength, place)?;
    refuse_if(failed.bad, Limit::AwaitNumber, place)?;
    refuse_if(failed.list, Limit::DelayNumber, place)?;
    refuse_if(known.unwrap_or(failed.twice), Limit::ClockTwice, place)?;
    add_line(builder, inner, constraint, place)
}

// A line that is not blank, from an offset of the text that ends with it.
fn read_line(builder: &mut Builder, line: &[u8], from: usize, place: Place) -> Result<(), Refusal>
    requires { from ≤ length line.now }
    ensures { a.line_read result builder.new ≡ d.filled_step line.now place.0 builder.old from }
{
    let printable = text::all_from(Class::Printable, line, from);
    refuse_if(!printable, Limit::LineByte, place)?;
    let pairing = parentheses(&line[from..]);
    refuse_if(pairing.deep, Limit::NestingDepth, place)?;
    refuse_if(pairing.unpaired, Limit::Unpaired, place)?;
    let words = Words {
        class: Class::Space,
        text: line,
        at: from,
    };
    read_words(builder, words, place)
}

// The table that a text says, or the first refusal.
#[tactic(auto, unfolding(crate::specs::Reader::read_table, crate::specs::Reader::read_lines, limit::specs::Checked::and_then))]
pub fn read_table(text: &[u8]) -> Result<Table, Refusal>
    ensures { d.told result ≡ d.read_table text.now }
{
    refuse_if(4096 < text.len(), Limit::TableLength, Place(0))?;
    let mut builder = Builder::new();
    let mut number = 1;
    let lines = Lines { text, at: 0 };
    for line in lines {
        let up_to = &text[..line.end];
        if !text::all_from(Class::Space, up_to, line.start) {
            read_line(&mut builder, up_to, line.start, Place(number))?;
        }
        number += 1;
    }
    Ok(builder.finish())
}
