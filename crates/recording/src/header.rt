// The header: skipped commands, declarations and its end.
ghost use Rattle.std.specs.Prelude.{◌≡◌, ◌≤◌, [], length, IfOk};
ghost use Rattle.recording.specs.Answers as a;
ghost use Rattle.recording.specs.Header as h;
ghost use Rattle.recording.specs.Left.{words_left};
ghost use Rattle.recording.specs.Variables as v;

use super::{Command, NO_CLOCK, UnknownNames, Variables, Words};
use grammar::Names;
use limit::{Limit, Place, Refusal};
use text::{Class, Span, same_bytes};

// The bytes that a recording may have.
const MOST_BYTES: usize = 65536;

// What a header is read by: the names of a table's clocks, as they stand in its text, and what becomes of others.
#[derive(Clone, Copy)]
pub struct Naming<'a> {
    pub table: &'a [u8],
    pub names: &'a Names,
    pub unknown: UnknownNames,
}

// A header that was read: its variables, and the words of the body.
#[derive(Drop)]
pub struct Header<'a> {
    pub variables: Variables,
    pub body: Words<'a>,
}

// The five words behind `$var`.
#[derive(Clone, Copy)]
pub struct Declaration {
    pub kind: Span,
    pub width: Span,
    pub id: Span,
    pub name: Span,
    pub last: Span,
}

impl<'a> Naming<'a> {
    // The number of the table's clock with a name.
    fn clock_named(self, name: &[u8]) -> u8
        ensures { result ≡ (a.naming_of self.entry).named name.now }
    {
        self.names.find(self.table, name).unwrap_or(NO_CLOCK)
    }

    // Whether a variable is refused for its name, by the number of its clock.
    fn refuses(self, clock: u8) -> bool
        ensures { result ≡ v.refuses_unknown (a.naming_of self.entry).unknown clock }
    {
        match self.unknown {
            UnknownNames::Refused => clock == NO_CLOCK,
            UnknownNames::Ignored => false,
        }
    }
}

impl Command {
    // Whether a word opens a command that is skipped.
    fn is_skipped(word: &[u8]) -> bool
        ensures { result ≡ h.skips word.now }
    {
        same_bytes(word, b"$date")
            || same_bytes(word, b"$version")
            || same_bytes(word, b"$comment")
            || same_bytes(word, b"$timescale")
            || same_bytes(word, b"$scope")
            || same_bytes(word, b"$upscope")
    }

    // What a word opens.
    fn of(word: &[u8]) -> Self
        ensures { result ≡ h.command_of word.now }
    {
        if Self::is_skipped(word) {
            Command::Skipped
        } else if same_bytes(word, b"$var") {
            Command::Declaration
        } else if same_bytes(word, b"$enddefinitions") {
            Command::Definitions
        } else {
            Command::Unknown
        }
    }
}

// Whether a word is `$end`.
fn is_end(word: &[u8]) -> bool
    ensures { result ≡ h.says word.now "$end" }
{
    same_bytes(word, b"$end")
}

// The next word, before which the header must not end.
fn next_word<'a>(words: &mut Words<'a>) -> Result<Span, Refusal>
    ensures { a.GivesNext words.old result words.new }
{
    words
        .next()
        .ok_or(Limit::HeaderCutOff.at(Place(words.text.len())))
}

// Skips the words up to the first `$end`, it included; all where there is none.
#[tactic(auto, unfolding(crate::specs::Answers::after_end))]
fn skip_command<'a>(words: &mut Words<'a>)
    ensures left { words_left words.new ≡ a.after_end words.old.text.now (words_left words.old) }
    ensures text { words.new.text.now ≡ words.old.text.now }
    ensures fewer { length (words_left words.new) ≤ length (words_left words.old) }
{
    loop {
        let Some(word) = words.next() else {
            return;
        };
        if is_end(word.of(words.text)) {
            return;
        }
    }
}

impl Declaration {
    // The five words at hand.
    fn read<'a>(words: &mut Words<'a>) -> Result<Self, Refusal>
        ensures { a.GivesFive words.old result words.new }
    {
        Ok(Declaration {
            kind: next_word(words)?,
            width: next_word(words)?,
            id: next_word(words)?,
            name: next_word(words)?,
            last: next_word(words)?,
        })
    }

    // Whether the words have the shape of a declaration.
    fn is_shaped(self, recording: &[u8]) -> bool
        ensures { result ≡ h.shaped recording.now self.kind self.width self.id self.last }
    {
        same_bytes(self.kind.of(recording), b"event")
            && same_bytes(self.width.of(recording), b"1")
            && self.id.of(recording).len() <= 4
            && is_end(self.last.of(recording))
    }

    // Declares a variable more, by the command at a place.
    #[tactic(auto, unfolding(crate::specs::Header::declare))]
    fn declare<'a>(
        self,
        naming: Naming<'a>,
        recording: &[u8],
        variables: &mut Variables,
        at: Place,
    ) -> Result<(), Refusal>
        ensures { a.with_value result variables.new ≡ h.declare (a.naming_of naming.entry) recording.now at.0 variables.old self.kind self.width self.id self.name self.last }
    {
        if !self.is_shaped(recording) {
            return Err(Limit::VariableShape.at(at));
        }
        let id = self.id.of(recording);
        let clock = naming.clock_named(self.name.of(recording));
        if variables.is_declared(id) || variables.clock_again(clock) {
            return Err(Limit::DeclaredTwice.at(at));
        }
        if naming.refuses(clock) {
            return Err(Limit::VariableUnknown.at(at));
        }
        if variables.is_full() {
            return Err(Limit::VariableCount.at(at));
        }
        variables.declare(id, clock);
        Ok(())
    }
}

// The end of the header, behind the command `$enddefinitions` at a place.
#[tactic(auto, unfolding(crate::specs::Header::close))]
fn close<'a>(
    variables: Variables,
    words: Words<'a>,
    clocks: u8,
    at: Place,
) -> Result<Header<'a>, Refusal>
    ensures header { a.header_as result ≡ h.close clocks words.entry.text.now at.0 variables (words_left words.entry) }
    ensures text { IfOk result (λ h. h.body.text.now ≡ words.entry.text.now) }
{
    let mut body = words;
    let word = next_word(&mut body)?;
    if !is_end(word.of(body.text)) {
        return Err(Limit::HeaderCommand.at(at));
    }
    if !variables.all_declared(clocks) {
        return Err(Limit::ClockUndeclared.at(at));
    }
    Ok(Header { variables, body })
}

// The header, command by command.
#[tactic(auto, using(crate::proofs::HeaderLaws::skipping_on, crate::proofs::HeaderLaws::declaring_short), unfolding(crate::specs::Header::header, crate::specs::Header::declaring, limit::specs::Checked::and_then))]
fn commands<'a, 'n>(naming: Naming<'n>, recording: &'a [u8]) -> Result<Header<'a>, Refusal>
    ensures header { a.header_as result ≡ h.header (a.naming_of naming.entry) recording.now [] (h.words recording.now 0) }
    ensures text { IfOk result (λ h. h.body.text.now ≡ recording.now) }
{
    let mut variables = Variables::new();
    let mut words = Words::new(recording);
    loop {
        let word = next_word(&mut words)?;
        let at = Place(word.start);
        match Command::of(word.of(recording)) {
            Command::Skipped => skip_command(&mut words),
            Command::Declaration => {
                let declaration = Declaration::read(&mut words)?;
                declaration.declare(naming, recording, &mut variables, at)?;
            }
            Command::Definitions => return close(variables, words, naming.names.len() as u8, at),
            Command::Unknown => return Err(Limit::HeaderCommand.at(at)),
        }
    }
}

// The header of a recording: its variables, and where the body begins; or the first refusal of 30 to 38.
#[tactic(auto, unfolding(crate::specs::Header::opened))]
pub fn read_header<'a, 'n>(naming: Naming<'n>, recording: &'a [u8]) -> Result<Header<'a>, Refusal>
    ensures header { a.header_as result ≡ h.opened (a.naming_of naming.entry) recording.now }
    ensures text { IfOk result (λ h. h.body.text.now ≡ recording.now) }
{
    if MOST_BYTES < recording.len() {
        return Err(Limit::RecordingLength.at(Place(0)));
    }
    let other = text::run_end(Class::Recorded, true, recording, 0);
    if other < recording.len() {
        return Err(Limit::RecordingByte.at(Place(other)));
    }
    commands(naming, recording)
}
