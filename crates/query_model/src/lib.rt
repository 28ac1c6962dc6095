//! The language of queries: its text, its grammar and its check, as definitions in `specs/`, and the plain types that
//! they share with the code.
//!
//! Nothing here depends on how a world is stored: the check asks for what a world knows of names and traits. `laws` has
//! what is proved of the definitions alone.
#![tactic(auto)]

pub mod faults;
pub mod laws;
pub mod query;
pub mod syntax;
pub mod words;

pub use words::{is_name_byte, is_reserved};

/// A part of a text, in bytes: from `start` up to and without `end`.
#[derive(Clone, Copy, Debug, PartialEq, Eq)]
pub struct Span {
    pub start: usize,
    pub end: usize,
}

/// The tokens of query text that are always spelled alike.
#[derive(Clone, Copy, Debug, PartialEq, Eq)]
pub enum Mark {
    /// `,`: both sides match.
    Comma,
    /// `||`: one side matches.
    OrOr,
    /// `|`, between a source and flags, and between flags.
    Bar,
    /// `!=`
    NotEqual,
    /// `!`: what follows does not match.
    Bang,
    /// `?`: what follows may match.
    Question,
    /// `==`
    EqualEqual,
    OpenParen,
    CloseParen,
    OpenBrace,
    CloseBrace,
    OpenBracket,
    CloseBracket,
    /// `*`: any entity.
    Star,
    /// `_`: one entity, whichever comes first.
    Underscore,
}
