// Words of a line, told apart: the words of the forms, names, digits. One test a word, since a match on byte strings is to be proved byte by byte.
ghost use Rattle.std.specs.Prelude.{◌≡◌};
ghost use Rattle.grammar.specs.Answers.{TakesWord};
ghost use Rattle.grammar.specs.Tokens as t;

use super::Token;
use constraint::{Definition, Delays, Kind, Relation};
use text::{Class, Words};

// What a word without a place in a form is.
#[tactic(auto, using(crate::proofs::TokenLaws::shape_none, crate::proofs::TokenLaws::shape_some))]
fn shape(word: &[u8]) -> Token
    ensures { result ≡ t.shape_of word.now }
{
    if word.len() == 0 {
        return Token::End;
    }
    if text::all_from(Class::Digit, word, 0) {
        return Token::Digits;
    }
    if Class::Letter.contains(word[0]) && text::all_from(Class::NameByte, word, 0) {
        return Token::Name;
    }
    Token::Other
}

// Parentheses, and shapes.
#[tactic(auto, unfolding(crate::specs::Tokens::look_up))]
fn parenthesis(word: &[u8]) -> Token
    ensures { result ≡ t.look_up word.now t.parentheses }
{
    if text::same_bytes(word, b"(") {
        return Token::Open;
    }
    if text::same_bytes(word, b")") {
        return Token::Close;
    }
    shape(word)
}

// The words of a delay, parentheses, and shapes.
#[tactic(auto, unfolding(crate::specs::Tokens::look_up))]
fn delay_word(word: &[u8]) -> Token
    ensures { result ≡ t.look_up word.now t.delay_words }
{
    if text::same_bytes(word, b"deferred") {
        return Token::Form(Kind::Defines(Definition::Deferred(Delays::new())));
    }
    if text::same_bytes(word, b"for") {
        return Token::For;
    }
    parenthesis(word)
}

// The words of the right sides of clockDef, parentheses, and shapes.
#[tactic(auto, unfolding(crate::specs::Tokens::look_up))]
fn definition_word(word: &[u8]) -> Token
    ensures { result ≡ t.look_up word.now t.definition_words }
{
    if text::same_bytes(word, b"clockUnion") {
        return Token::Form(Kind::Defines(Definition::Union));
    }
    if text::same_bytes(word, b"clockInter") {
        return Token::Form(Kind::Defines(Definition::Inter));
    }
    if text::same_bytes(word, b"lub") {
        return Token::Form(Kind::Defines(Definition::Lub));
    }
    if text::same_bytes(word, b"glb") {
        return Token::Form(Kind::Defines(Definition::Glb));
    }
    if text::same_bytes(word, b"sampled") {
        return Token::Form(Kind::Defines(Definition::Sampled));
    }
    if text::same_bytes(word, b"upto") {
        return Token::Form(Kind::Defines(Definition::Upto));
    }
    if text::same_bytes(word, b"await") {
        return Token::Await;
    }
    delay_word(word)
}

impl Token {
    // What a word is.
    #[tactic(auto, unfolding(crate::specs::Tokens::look_up))]
    pub fn of(word: &[u8]) -> Token
        ensures { result ≡ t.token_of word.now }
    {
        if text::same_bytes(word, b"=") {
            return Token::Form(Kind::Relates(Relation::Coincides));
        }
        if text::same_bytes(word, b"#") {
            return Token::Form(Kind::Relates(Relation::Excludes));
        }
        if text::same_bytes(word, b"isSubClockOf") {
            return Token::Form(Kind::Relates(Relation::SubClock));
        }
        if text::same_bytes(word, b"precedes") {
            return Token::Form(Kind::Relates(Relation::Precedes));
        }
        if text::same_bytes(word, b"strictly") {
            return Token::Strictly;
        }
        if text::same_bytes(word, b"clockDef") {
            return Token::ClockDef;
        }
        definition_word(word)
    }

    // Whether two tokens are of one kind, as all forms are.
    pub fn is(self, like: Token) -> bool
        ensures { result ≡ t.is like self }
    {
        match (self, like) {
            (Token::Form(_), Token::Form(_)) => true,
            (one, other) => one == other,
        }
    }
}

// Takes the next word, if it is one like a token.
pub fn eat<'a>(words: &mut Words<'a>, like: Token) -> Option<&'a [u8]>
    ensures { TakesWord like words.old result words.new }
{
    let span = text::next_word(words.class, words.text, words.at);
    let bytes = span.of(words.text);
    if !Token::of(bytes).is(like) {
        return None;
    }
    words.at = span.end;
    Some(bytes)
}
