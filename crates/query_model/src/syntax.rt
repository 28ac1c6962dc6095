//! The syntax of query text, as a flat list of parts.

use crate::Span;
use std::alloc::{Allocator, Global};

/// How a term stands in its query.
#[derive(Clone, Copy, Debug, PartialEq, Eq)]
pub enum Role {
    /// It must match, or, where alternatives follow it, one of them.
    And,
    /// An alternative to the term before it.
    Or,
    /// It must not match.
    Not,
    /// It may match.
    Optional,
}

/// How a reference is written.
#[derive(Clone, Copy, Debug, PartialEq, Eq)]
pub enum Spoken<'a> {
    /// A name.
    Word(&'a str),
    /// A variable, with its `$`.
    Variable(&'a str),
    /// `*`
    Any,
    /// `_`
    AnyOnce,
}

/// A reference to an entity, and where it stands.
#[derive(Clone, Copy, Debug, PartialEq, Eq)]
pub struct Reference<'a> {
    pub spoken: Spoken<'a>,
    pub span: Span,
}

/// The word by which ancestors are asked for.
#[derive(Clone, Copy, Debug, PartialEq, Eq)]
pub enum RiseWord {
    Up,
    /// `cascade`, by which rows are ordered too, and where it stands.
    Cascade(Span),
}

/// What is written of ancestors.
#[derive(Clone, Copy, Debug, PartialEq, Eq)]
pub enum Rise<'a> {
    No,
    /// `up` or `cascade`, with its relationship, if one is written.
    Up(RiseWord, Option<Reference<'a>>),
}

/// The flags of a term, as they are written.
#[derive(Clone, Copy, Debug, PartialEq, Eq)]
pub struct Flags<'a> {
    /// Whether `self` is among them.
    pub on_source: bool,
    pub rise: Rise<'a>,
}

/// A term: a component, and a target, a source and flags where they are written.
#[derive(Clone, Copy, Debug, PartialEq, Eq)]
pub struct TermSyntax<'a> {
    /// Whether its values are shown.
    pub shows_value: bool,
    pub component: Reference<'a>,
    pub target: Option<Reference<'a>>,
    pub source: Option<Reference<'a>>,
    pub flags: Option<Flags<'a>>,
    /// From its first to its last token, without operator and access.
    pub span: Span,
}

/// A part of a query, in the order of the text.
#[derive(Clone, Copy, Debug, PartialEq, Eq)]
pub enum Part<'a> {
    /// A term. Each alternative of a chain is one, the first in the role And.
    Term(Role, TermSyntax<'a>),
    /// The `{` of a negated group.
    Opened(Span),
    /// The end of a group.
    Closed,
    /// Whether two references are one entity, or (`false`) are two.
    Equality(Reference<'a>, bool, Reference<'a>),
}

/// The syntax of a query: its parts, and how many bytes its text has.
#[derive(Debug, Drop)]
pub struct Syntax<'a, A: Allocator = Global> {
    pub parts: Vec<Part<'a>, A>,
    pub length: usize,
}
