// The form of a line: methods that read operands, kinds, right sides and whole lines from the words that are left. A right side reads
// operands, and an operand in parentheses reads a right side, with one level less.
ghost use Rattle.std.specs.Prelude.{◌≡◌};
ghost use Rattle.grammar.specs.Answers.{kind_of};
ghost use Rattle.grammar.specs.Grammar as g;
ghost use Rattle.grammar.specs.Names.{number_in};

use super::list::{delay_list, number_up_to};
use super::words::eat;
use super::{LineReader, Names, Token};
use constraint::{Constraint, Definition, Kind, Relation};
use limit::Place;

// What stands for the clock of a name that there is no room for.
const NO_CLOCK: u8 = 32;

// `strictly` in front of the word of a kind.
fn strict_kind(kind: Kind) -> Kind
    ensures { result ≡ g.strict_kind kind }
{
    match kind {
        Kind::Relates(Relation::Precedes) => Kind::Relates(Relation::StrictlyPrecedes),
        Kind::Defines(Definition::Sampled) => Kind::Defines(Definition::StrictlySampled),
        _ => Kind::Empty,
    }
}

// The kind that a word says.
fn plain(token: Token) -> Kind
    ensures { result ≡ g.plain token }
{
    match token {
        Token::Form(kind) => kind,
        _ => Kind::Empty,
    }
}

// The kind that a word says, with or without `strictly` in front.
fn kind_of(token: Token, strict: bool) -> Kind
    ensures { result ≡ kind_of token strict }
{
    if strict {
        return strict_kind(plain(token));
    }
    plain(token)
}

// Whether a kind is one at all.
fn is_kind(kind: &Kind) -> bool
    ensures { result ≡ g.is_kind kind.now }
{
    !matches!(kind, Kind::Empty)
}

// Whether a kind is a delay.
fn is_delay(kind: &Kind) -> bool
    ensures { result ≡ g.is_delay kind.now }
{
    matches!(kind, Kind::Defines(Definition::Deferred(_)))
}

// Whether a kind is of the side that is asked for: a definition behind clockDef and in parentheses, a relation in any other line.
fn is_side(definition: bool, kind: &Kind) -> bool
    ensures { result ≡ g.is_side definition kind.now }
{
    match kind {
        Kind::Empty => false,
        Kind::Relates(_) => !definition,
        Kind::Defines(_) => definition,
    }
}

// A constraint of two operands that defines no clock yet, on no line yet.
fn sides(kind: Kind, first: u8, second: u8) -> Constraint
    ensures { result ≡ g.sides kind first second }
{
    Constraint {
        kind,
        defined: 0,
        first,
        second,
        line: Place(0),
    }
}

// The clock whose name a word is; a name that there is no room for has none.
fn clock_in(names: &Names, line: &[u8], name: &[u8]) -> u8
    ensures { result ≡ g.clock_of (number_in line.now names.now name.now) }
{
    names.find(line, name).unwrap_or(NO_CLOCK)
}

impl<'a> LineReader<'a> {
    ghost use Rattle.std.specs.Prelude.{◌≡◌};
    ghost use Rattle.grammar.specs.Answers.{line, left, operands, Keeps, Defines, clock_read, kind_read, kind_in, word_kind, form_read};

    // An operand that is the name of a clock.
    #[tactic(auto, unfolding(crate::specs::Grammar::name, crate::specs::Grammar::only_if))]
    fn name(&mut self) -> Option<u8>
        ensures found { clock_read result self.new ≡ g.name (line self.old) self.old.names.now self.old.inner (left self.old) }
        ensures kept { Keeps self.old self.new }
    {
        let word = eat(&mut self.words, Token::Name)?;
        let names = self.names;
        Some(clock_in(names, self.words.text, word))
    }

    // A kind: one word, or two where the first is `strictly`.
    #[tactic(auto, unfolding(crate::specs::Grammar::kind_at))]
    fn kind(&mut self) -> Option<Kind>
        ensures found { kind_read result self.new ≡ kind_in (g.kind_at (line self.old) (left self.old)) }
        ensures kept { Keeps self.old self.new }
        ensures inner { self.new.inner ≡ self.old.inner }
    {
        if eat(&mut self.words, Token::Strictly).is_some() {
            return self.kind_word(true);
        }
        self.kind_word(false)
    }

    // The word of a kind, with or without `strictly` in front.
    #[tactic(auto, using(crate::proofs::GrammarLaws::end_token), unfolding(crate::specs::Grammar::only_if, text::specs::Split::front, text::specs::Split::rest))]
    fn kind_word(&mut self, strict: bool) -> Option<Kind>
        ensures found { kind_read result self.new ≡ kind_in (word_kind strict (line self.old) (left self.old)) }
        ensures kept { Keeps self.old self.new }
        ensures inner { self.new.inner ≡ self.old.inner }
    {
        let word = self.words.next()?;
        let kind = kind_of(Token::of(word.bytes), strict);
        if !is_kind(&kind) {
            return None;
        }
        Some(kind)
    }

    // What stands behind two operands with this kind between them: of a delay `for` and its list, else nothing; the kind with what it says.
    #[tactic(auto, unfolding(crate::specs::Grammar::tail, crate::specs::Grammar::only_if))]
    fn tail(&mut self, kind: Kind) -> Option<Kind>
        ensures found { kind_read result self.new ≡ g.tail (line self.old) kind (left self.old) }
        ensures kept { Keeps self.old self.new }
        ensures inner { self.new.inner ≡ self.old.inner }
    {
        if !is_delay(&kind) {
            return Some(kind);
        }
        eat(&mut self.words, Token::For)?;
        Some(Kind::Defines(Definition::Deferred(delay_list(&mut self.words))))
    }

    // A number and an operand, behind `await`.
    #[cycle(operands)]
    #[tactic(auto, unfolding(crate::specs::Grammar::await_side, crate::specs::Grammar::and_then, crate::specs::Grammar::only_if))]
    fn await_side(&mut self, level: usize) -> Option<Constraint>
        ensures found { form_read result self.new ≡ g.await_side (line self.old) (operands self.old level) self.old.inner (left self.old) }
        ensures kept { Keeps self.old self.new }
    {
        let digits = eat(&mut self.words, Token::Digits)?;
        let clock = self.operand(level)?;
        let n = number_up_to(1_000_000, digits);
        Some(sides(Kind::Defines(Definition::Await(n)), clock, 0))
    }

    // Two operands with a kind between them, of a delay with its list behind them.
    #[cycle(operands)]
    #[tactic(auto, unfolding(crate::specs::Grammar::pair, crate::specs::Grammar::second, crate::specs::Grammar::and_then, crate::specs::Grammar::only_if))]
    fn pair(&mut self, level: usize) -> Option<Constraint>
        ensures found { form_read result self.new ≡ g.pair (line self.old) (operands self.old level) self.old.inner (left self.old) }
        ensures kept { Keeps self.old self.new }
    {
        let first = self.operand(level)?;
        let between = self.kind()?;
        let second = self.operand(level)?;
        let kind = self.tail(between)?;
        Some(sides(kind, first, second))
    }

    // A right side.
    #[cycle(operands)]
    #[tactic(auto, unfolding(crate::specs::Grammar::expression))]
    fn expression(&mut self, level: usize) -> Option<Constraint>
        ensures found { form_read result self.new ≡ g.expression (line self.old) (operands self.old level) self.old.inner (left self.old) }
        ensures kept { Keeps self.old self.new }
    {
        if eat(&mut self.words, Token::Await).is_some() {
            return self.await_side(level);
        }
        self.pair(level)
    }

    // An operand: a name, or a right side in parentheses, which uses up one of the levels that are left and becomes an
    // implicit clock.
    #[cycle(operands)]
    #[tactic(auto, using(crate::proofs::GrammarLaws::operand_flat, crate::proofs::GrammarLaws::operand_name, crate::proofs::GrammarLaws::operand_inner), unfolding(crate::specs::Grammar::inner, crate::specs::Grammar::and_then, crate::specs::Grammar::only_if))]
    fn operand(&mut self, level: usize) -> Option<u8>
        ensures found { clock_read result self.new ≡ operands self.old level self.old.inner (left self.old) }
        ensures kept { Keeps self.old self.new }
    {
        if level == 0 || eat(&mut self.words, Token::Open).is_none() {
            return self.name();
        }
        // With `?` this method gets no proof, a constraint being none of its own types.
        let Some(constraint) = self.expression(level - 1) else {
            return None;
        };
        self.enclosed(constraint)
    }

    // The closing parenthesis behind a right side, which becomes an implicit clock.
    #[tactic(auto, unfolding(crate::specs::Grammar::inner, crate::specs::Grammar::only_if))]
    fn enclosed(&mut self, constraint: Constraint) -> Option<u8>
        ensures found { clock_read result self.new ≡ g.inner (line self.old) (record { left = self.old.inner; constraint = constraint }) (left self.old) }
        ensures kept { Keeps self.old self.new }
    {
        eat(&mut self.words, Token::Close)?;
        if !is_side(true, &constraint.kind) {
            return None;
        }
        Some(self.inner.insert(constraint))
    }

    // The clock that a line defines, where the line begins with a name and clockDef.
    fn defined(&mut self) -> Option<u8>
        ensures { Defines self.old result self.new }
    {
        let mut ahead = self.words;
        let name = eat(&mut ahead, Token::Name)?;
        eat(&mut ahead, Token::ClockDef)?;
        self.words = ahead;
        let names = self.names;
        Some(clock_in(names, self.words.text, name))
    }

    // A form of the side that the line asks for, with no word after it, which defines a clock.
    #[tactic(auto, unfolding(crate::specs::Grammar::at_end, crate::specs::Grammar::and_then, crate::specs::Grammar::only_if))]
    fn closed(&mut self, definition: bool, clock: u8, levels: usize) -> Option<Constraint>
        ensures { form_read result self.new ≡ g.closed definition clock (g.expression (line self.old) (operands self.old levels) self.old.inner (left self.old)) }
    {
        let mut constraint = self.expression(levels)?;
        if self.words.next().is_some() || !is_side(definition, &constraint.kind) {
            return None;
        }
        constraint.defined = clock;
        Some(constraint)
    }

    // A line: a clock, clockDef and a right side, or a relation.
    #[tactic(auto, unfolding(crate::specs::Grammar::line_form))]
    pub fn line_form(&mut self, levels: usize) -> Option<Constraint>
        ensures { form_read result self.new ≡ g.form_in (line self.old) levels self.old.names.now self.old.inner (left self.old) }
    {
        match self.defined() {
            Some(clock) => self.closed(true, clock, levels),
            None => self.closed(false, 0, levels),
        }
    }
}
