//! The tokens of query text.

ghost use Rattle.std.specs.Prelude.{◌≡◌, ◌≢◌, [], ◌∷◌, ◌≤◌, ◌<◌, ◌+◌, All, IfOk, IfSome, MatchOption, None, Some};
ghost use Rattle.std.specs.Prelude.{drop, length, map, nat_eq, slice_range, take};
ghost use Rattle.std.specs.List.{find, prefix_len, starts_with};
ghost use Rattle.query_model.specs.Laws.{EndsInEnd};
ghost use Rattle.query_model.specs.Text.{is_letter, is_name_byte, is_query_blank, is_word_byte};
ghost use Rattle.query_model.specs.Tokens.{IsLexFault, IsSpelledBy, Variable, char_len, marks, sign_at, spelled};
ghost use Rattle.query_model.specs.Tokens.{spelling, tokens_of, variable_at};
ghost use Rattle.query_parser.specs.Lexed.{Answers, AnswersBy, next_of};
ghost use Rattle.query_parser.specs.Token.{AreSlicesOf, Ascend, seen, sign_of, text_length};

use query_model::faults::{Fault, FaultKind, QueryFault};
use query_model::{Mark, Span, is_name_byte};
use std::alloc::Allocator;

/// What a token is.
#[derive(Clone, Copy, Debug, PartialEq, Eq)]
pub enum TokenKind {
    /// An ASCII letter, then ASCII letters, digits, `_` and `.`, as many as stand there.
    Name,
    /// `$`, an ASCII letter, then ASCII letters, digits and `_`, as many as stand there.
    Variable,
    /// A mark.
    Mark(Mark),
    /// The end of the text.
    End,
}

/// A token: its kind, its part of the source, and where that stands.
#[derive(Clone, Copy, Debug, PartialEq, Eq)]
pub struct Token<'a> {
    pub kind: TokenKind,
    pub text: &'a str,
    pub span: Span,
}

/// The tokens of a query's text, each the longest that can stand at its place, and then its end, the empty slice after
/// the last byte.
///
/// Space, tab, carriage return and line feed may stand between tokens. Fails with the first character
/// at which no token can begin, in all its bytes, or where memory is refused.
pub fn lex<'a, A: Allocator + Copy>(
    alloc: A,
    text: &'a str,
) -> Result<Vec<Token<'a>, A>, QueryFault>
    ensures answers { Answers FaultKind.Lex (λ tokens. map seen tokens.items) result
        (tokens_of text.now) }
    ensures meaning { AnswersBy FaultKind.Lex
        (λ tokens. IsSpelledBy text.now (map seen tokens.items)) (IsLexFault text.now) result }
    ensures slices { IfOk result (λ tokens. AreSlicesOf text.now tokens.items) }
    ensures ascend { IfOk result (λ tokens. Ascend tokens.items) }
    ensures ended { IfOk result (λ tokens. EndsInEnd (map seen tokens.items)) }
    ensures length { IfOk result (λ tokens. text_length (map seen tokens.items) ≡ length text.now) }
{
    let mut tokens = Vec::new(alloc);
    let mut at = 0;
    loop {
        let token = next_token(text, at)?;
        at = token.span.end;
        tokens.push(token).map_err(|_| QueryFault::Memory)?;
        if let TokenKind::End = token.kind {
            return Ok(tokens);
        }
    }
}

/// The token that follows a place in the text, after blanks.
fn next_token<'a>(text: &'a str, from: usize) -> Result<Token<'a>, QueryFault>
    requires { from ≤ length text.now }
    ensures answers { Answers FaultKind.Lex seen result (next_of text.now from) }
    ensures slice { IfOk result (λ t. t.text.now ≡ slice_range text.now t.span.start t.span.end) }
    ensures within { IfOk result (λ t.
        (from ≤ t.span.start) × (t.span.start ≤ t.span.end) × (t.span.end ≤ length text.now)) }
    ensures moves { IfOk result (λ t. t.kind ≢ TokenKind.End → t.span.start < t.span.end) }
    ensures ends { IfOk result (λ t. t.kind ≡ TokenKind.End → t.span.end ≡ length text.now) }
{
    let bytes = text.as_bytes();
    let start = from + blanks_len(&bytes[from..]);
    let rest = &bytes[start..];
    let Some(first) = rest.first() else {
        let span = Span { start, end: start };
        return Ok(Token {
            kind: TokenKind::End,
            text: &text[start..],
            span,
        });
    };
    let Some((kind, len)) = sign(rest) else {
        let span = Span {
            start,
            end: start + char_bytes(*first),
        };
        return Err(QueryFault::Fault(Fault {
            kind: FaultKind::Lex,
            span,
        }));
    };
    let span = Span {
        start,
        end: start + len,
    };
    Ok(Token {
        kind,
        text: &text[start..span.end],
        span,
    })
}

/// The kind and the length of the longest token at the beginning.
fn sign(rest: &[u8]) -> Option<(TokenKind, usize)>
    requires { 0 < length rest.now }
    ensures found { MatchOption result (sign_at rest.now ≡ None)
        (λ found. sign_at rest.now ≡ Some (sign_of found.0 (take found.1 rest.now))) }
    ensures spells { IfSome result
        (λ found. spelled (sign_of found.0 (take found.1 rest.now)) ≡ take found.1 rest.now) }
    ensures within { IfSome result (λ found. (0 < found.1) × (found.1 ≤ length rest.now)) }
    ensures ascii { IfSome result (λ found. All (λ byte. byte < 128) (take found.1 rest.now)) }
    ensures no_end { IfSome result (λ found. found.0 ≢ TokenKind.End) }
{
    if is_letter(rest[0]) {
        return Some((TokenKind::Name, name_len(rest)));
    }
    if rest[0] == b'$' {
        let len = variable_len(rest)?;
        return Some((TokenKind::Variable, len));
    }
    let mark = mark(rest)?;
    Some((TokenKind::Mark(mark), spelling(mark).len()))
}

/// How many bytes the variable takes whose `$` is the first byte.
fn variable_len(rest: &[u8]) -> Option<usize>
    requires { 0 < length rest.now }
    ensures { MatchOption result (variable_at (drop 1 rest.now) ≡ None)
        (λ len. (len ≡ 1 + prefix_len is_word_byte (drop 1 rest.now)) × (len ≤ length rest.now)
        × (variable_at (drop 1 rest.now) ≡ Some (Variable (take (prefix_len is_word_byte (drop 1 rest.now))
        (drop 1 rest.now))))) }
{
    let name = &rest[1..];
    if name.is_empty() || !is_letter(name[0]) {
        return None;
    }
    Some(1 + word_len(name))
}

/// How many bytes at the beginning may stand in a variable.
fn word_len(rest: &[u8]) -> usize
    ensures count { result ≡ prefix_len is_word_byte rest.now }
    ensures within { result ≤ length rest.now }
{
    rest.iter().take_while(|byte| is_word_byte(**byte)).count()
}

fn is_word_byte(byte: u8) -> bool
    ensures { result ≡ is_word_byte byte }
{
    byte.is_ascii_lowercase() || byte.is_ascii_digit() || byte.is_ascii_uppercase() || byte == b'_'
}

/// How a mark is spelled.
fn spelling(mark: Mark) -> &'static str
    ensures { result.now ≡ spelling mark }
{
    match mark {
        Mark::Comma => ",",
        Mark::OrOr => "||",
        Mark::Bar => "|",
        Mark::NotEqual => "!=",
        Mark::Bang => "!",
        Mark::Question => "?",
        Mark::EqualEqual => "==",
        Mark::OpenParen => "(",
        Mark::CloseParen => ")",
        Mark::OpenBrace => "{",
        Mark::CloseBrace => "}",
        Mark::OpenBracket => "[",
        Mark::CloseBracket => "]",
        Mark::Star => "*",
        Mark::Underscore => "_",
    }
}

/// The longest mark at the beginning.

fn mark(rest: &[u8]) -> Option<Mark>
    requires { 0 < length rest.now }
    ensures { result ≡ find (λ m. starts_with nat_eq rest.now (spelling m)) marks }
{
    let mark = match rest[0] {
        b',' => Mark::Comma,
        b'|' if has_second(rest, b'|') => Mark::OrOr,
        b'|' => Mark::Bar,
        b'!' if has_second(rest, b'=') => Mark::NotEqual,
        b'!' => Mark::Bang,
        b'?' => Mark::Question,
        b'=' if has_second(rest, b'=') => Mark::EqualEqual,
        b'(' => Mark::OpenParen,
        b')' => Mark::CloseParen,
        b'{' => Mark::OpenBrace,
        b'}' => Mark::CloseBrace,
        b'[' => Mark::OpenBracket,
        b']' => Mark::CloseBracket,
        b'*' => Mark::Star,
        b'_' => Mark::Underscore,
        _ => return None,
    };
    Some(mark)
}

/// Whether the second byte is this one.
fn has_second(rest: &[u8], byte: u8) -> bool
    requires { 0 < length rest.now }
    ensures { result ≡ starts_with nat_eq (drop 1 rest.now) (byte ∷ []) }
{
    rest.len() > 1 && rest[1] == byte
}

/// How many blanks stand at the beginning.
fn blanks_len(rest: &[u8]) -> usize
    ensures count { result ≡ prefix_len is_query_blank rest.now }
    ensures within { result ≤ length rest.now }
{
    rest.iter().take_while(|byte| is_blank(**byte)).count()
}

/// How many bytes at the beginning may stand in a name.
fn name_len(rest: &[u8]) -> usize
    ensures count { result ≡ prefix_len is_name_byte rest.now }
    ensures within { result ≤ length rest.now }
{
    rest.iter().take_while(|byte| is_name_byte(**byte)).count()
}

fn is_blank(byte: u8) -> bool
    ensures { result ≡ is_query_blank byte }
{
    matches!(byte, b' ' | b'\t' | b'\r' | b'\n')
}

fn is_letter(byte: u8) -> bool
    ensures { result ≡ is_letter byte }
{
    byte.is_ascii_alphabetic()
}

/// How many bytes the character takes that begins with a byte.
fn char_bytes(first: u8) -> usize
    ensures { result ≡ char_len first }
{
    match first {
        0..128 => 1,
        128..224 => 2,
        224..240 => 3,
        _ => 4,
    }
}
