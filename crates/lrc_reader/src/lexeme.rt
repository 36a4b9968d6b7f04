//! What the reader sees of a token.

ghost use Rattle.std.specs.Prelude.{◌≡◌, map, slice_range};
ghost use Rattle.lrc_base.specs.Name.{IsName};
ghost use Rattle.lrc_lex.specs.Longest.{IsTokenOf};
ghost use Rattle.lrc_reader.specs.Grammar as grammar;
ghost use Rattle.lrc_reader.specs.Lexeme as spec;

use crate::path_text::PathText;
use crate::quoted_text::QuotedText;
use lrc_base::NameText;
use lrc_lex::{Token, TokenClass, natural, negative};

/// A reserved word or a symbol: what stands for nothing but itself.
#[derive(Debug, Clone, Copy, PartialEq, Eq)]
pub enum Mark {
    LeftBrace,
    RightBrace,
    LeftParen,
    RightParen,
    Colon,
    Semicolon,
    Comma,
    Dot,
    Equals,
    SameAs,
    Less,
    Plus,
    Minus,
    Star,
    Lrc,
    Sort,
    Prod,
    Start,
    Session,
    Inh,
    Syn,
    Local,
    Attach,
    Text,
    On,
    Put,
    Copy,
    Show,
    Forget,
    If,
    Then,
    Else,
    True,
    False,
    Int,
    Bool,
    Name,
}

/// How each mark is spelled.
pub const MARKS: [(&[u8], Mark); 37] = [
    (b"{", Mark::LeftBrace),
    (b"}", Mark::RightBrace),
    (b"(", Mark::LeftParen),
    (b")", Mark::RightParen),
    (b":", Mark::Colon),
    (b";", Mark::Semicolon),
    (b",", Mark::Comma),
    (b".", Mark::Dot),
    (b"=", Mark::Equals),
    (b"==", Mark::SameAs),
    (b"<", Mark::Less),
    (b"+", Mark::Plus),
    (b"-", Mark::Minus),
    (b"*", Mark::Star),
    (b"lrc", Mark::Lrc),
    (b"sort", Mark::Sort),
    (b"prod", Mark::Prod),
    (b"start", Mark::Start),
    (b"session", Mark::Session),
    (b"inh", Mark::Inh),
    (b"syn", Mark::Syn),
    (b"local", Mark::Local),
    (b"attach", Mark::Attach),
    (b"text", Mark::Text),
    (b"on", Mark::On),
    (b"put", Mark::Put),
    (b"copy", Mark::Copy),
    (b"show", Mark::Show),
    (b"forget", Mark::Forget),
    (b"if", Mark::If),
    (b"then", Mark::Then),
    (b"else", Mark::Else),
    (b"true", Mark::True),
    (b"false", Mark::False),
    (b"Int", Mark::Int),
    (b"Bool", Mark::Bool),
    (b"Name", Mark::Name),
];

/// What the reader sees of a token.
#[derive(Debug, Drop)]
pub enum Lexeme<'a> {
    Mark(Mark),
    /// A word that is not reserved.
    Word(NameText),
    /// A natural by its value.
    Natural(i64),
    /// A negative number by its value.
    Negative(i64),
    /// A name literal by its name, without the `'`.
    Name(NameText),
    /// A text in quotes by its spelling.
    Text(QuotedText<'a>),
    /// A path by its text.
    Path(PathText<'a>),
    /// A symbol that no job has.
    Other,
}

/// The mark that is spelled so.
fn mark_in(mut table: &[(&[u8], Mark)], spelling: &[u8]) -> Option<Mark>
    ensures { result ≡ spec.mark_in (map (λ k. (k.0.now, k.1)) table.entry.now) spelling.now }
{
    while let [entry, rest @ ..] = table {
        if entry.0 == spelling {
            return Some(entry.1);
        }
        table = rest;
    }
    None
}

#[tactic(auto, unfolding(crate::specs::Lexeme::mark_of))]
/// The mark that is spelled so, a reserved word or a symbol.
pub fn mark_of(spelling: &[u8]) -> Option<Mark>
    ensures { result ≡ spec.mark_of spelling.now }
{
    mark_in(&MARKS, spelling)
}

/// The name of these bytes.
fn name(bytes: &[u8]) -> NameText
    requires { IsName bytes.now }
    ensures { result ≡ bytes.now }
{
    match NameText::of(bytes) {
        Some(name) => name,
        None => unreachable!(),
    }
}

/// The mark that a token of this text is, if it is one.
pub fn mark_at(text: &[u8], token: Token) -> Option<Mark>
    requires { IsTokenOf text.now token }
    ensures { result ≡ spec.mark_at text.now token }
{
    match token.class {
        TokenClass::Word | TokenClass::Symbol => {
            mark_of(&text[token.at as usize..token.end as usize])
        }
        TokenClass::Natural
        | TokenClass::Negative
        | TokenClass::NameLit
        | TokenClass::Text
        | TokenClass::Path => None,
    }
}

/// A word by its spelling and the mark that it is, if it is reserved.
fn word(spelling: &[u8], mark: Option<Mark>) -> Lexeme<'_>
    requires { IsName spelling.now }
    ensures { result ≡ spec.word_or spelling.now mark }
{
    match mark {
        Some(mark) => Lexeme::Mark(mark),
        None => Lexeme::Word(name(spelling)),
    }
}

/// A symbol by the mark that it is, if a job has it.
fn symbol(mark: Option<Mark>) -> Lexeme<'static>
    ensures { result ≡ spec.mark_or_other mark }
{
    match mark {
        Some(mark) => Lexeme::Mark(mark),
        None => Lexeme::Other,
    }
}

/// What the reader sees of a token of this text that is this mark, if it is one.
pub fn lexeme_of(text: &[u8], token: Token, mark: Option<Mark>) -> Lexeme<'_>
    requires { IsTokenOf text.now token }
    ensures { result ≡ spec.seen_as token.class (slice_range text.now token.at token.end) mark }
{
    let spelling = &text[token.at as usize..token.end as usize];
    match token.class {
        TokenClass::Word => word(spelling, mark),
        TokenClass::Natural => Lexeme::Natural(natural(spelling)),
        TokenClass::Symbol => symbol(mark),
        TokenClass::Path => Lexeme::Path(PathText::of(spelling)),
        TokenClass::Negative => Lexeme::Negative(negative(spelling)),
        TokenClass::NameLit => Lexeme::Name(name(&spelling[1..])),
        TokenClass::Text => Lexeme::Text(QuotedText::of(spelling)),
    }
}

/// The kind of every word.
pub const WORD_KIND: u8 = 0;

/// The kind of every natural.
pub const NATURAL_KIND: u8 = 1;

/// The kind of every negative number.
pub const NEGATIVE_KIND: u8 = 2;

/// The kind of every name literal.
pub const NAME_KIND: u8 = 3;

/// The kind of every text in quotes.
pub const TEXT_KIND: u8 = 4;

/// The kind of every path.
pub const PATH_KIND: u8 = 5;

/// The kind of a symbol that no job has.
pub const OTHER_KIND: u8 = 6;

/// The kind of the first mark; the others follow in order.
pub const MARK_KIND: u8 = 7;

/// The number of a mark, which is its kind.
pub fn number_of(mark: Mark) -> u8
    ensures { result ≡ spec.number mark }
{
    mark as u8 + MARK_KIND
}

/// The kind of a mark, or else this kind.
fn number_or(kind: u8, mark: Option<Mark>) -> u8
    ensures { result ≡ spec.number_or kind mark }
{
    match mark {
        Some(mark) => number_of(mark),
        None => kind,
    }
}

/// The kind of a token of this class that is this mark, if it is one.
pub fn kind_of(class: TokenClass, mark: Option<Mark>) -> u8
    ensures { result ≡ spec.kind_seen class mark }
{
    match class {
        TokenClass::Word => number_or(WORD_KIND, mark),
        TokenClass::Symbol => number_or(OTHER_KIND, mark),
        TokenClass::Natural => NATURAL_KIND,
        TokenClass::Negative => NEGATIVE_KIND,
        TokenClass::NameLit => NAME_KIND,
        TokenClass::Text => TEXT_KIND,
        TokenClass::Path => PATH_KIND,
    }
}

impl Lexeme<'_> {
    /// The name that a word is.
    pub fn name(&self) -> Option<NameText>
        ensures { result ≡ spec.word_of self.now }
    {
        match self {
            Lexeme::Word(name) => Some(*name),
            _ => None,
        }
    }

    /// The value of a natural.
    pub fn count(&self) -> Option<u64>
        ensures { result ≡ grammar.count_of self.now }
    {
        match self {
            Lexeme::Natural(value) => Some(value.unsigned_abs()),
            _ => None,
        }
    }

    /// That a natural is 1.
    pub fn one(&self) -> Option<()>
        ensures { result ≡ grammar.one_of self.now }
    {
        match self {
            Lexeme::Natural(value) => { if *value == 1 { Some(()) } else { None } }
            _ => None,
        }
    }
}
