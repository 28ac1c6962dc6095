//! Where a query is faulty.

use crate::Span;
use thiserror::Error;

/// What can be wrong with the text of a query, in the order in which faults at one place are reported.
#[derive(Clone, Copy, Debug, PartialEq, Eq, Error)]
pub enum FaultKind {
    /// No token begins here.
    #[error("no token begins here")]
    Lex,
    /// No query goes on with this token.
    #[error("no query goes on with this token")]
    Syntax,
    /// No entity has this name.
    #[error("no entity has this name")]
    UnknownName,
    /// Traversal along a relationship that isn't traversable.
    #[error("the relationship is not traversable")]
    NotTraversable,
    /// A variable that nothing binds.
    #[error("nothing binds the variable")]
    UnboundVariable,
    /// A wildcard as source.
    #[error("a wildcard as source")]
    WildcardSource,
    /// A wildcard beside `==` or `!=`.
    #[error("a wildcard beside == or !=")]
    WildcardEquality,
    /// More terms than a query may have.
    #[error("more terms than a query may have")]
    TooManyTerms,
    /// More variables than a query may have.
    #[error("more variables than a query may have")]
    TooManyVariables,
    /// Groups inside groups, too deep.
    #[error("groups inside groups, too deep")]
    TooDeep,
    /// An observer whose query has no `$this`.
    #[error("the query of an observer has no $this")]
    NoThis,
    /// An event observer whose query isn't one plain term.
    #[error("the query of an event observer is not one plain term")]
    NotOneTerm,
    /// A `cascade` in a group, of another source than `$this`, or after another one.
    #[error("cascade in a group, of another source than $this, or behind another one")]
    CascadePlace,
}

/// A fault of a query's text, and the part of the text that has it.
#[derive(Clone, Copy, Debug, PartialEq, Eq, Error)]
#[error("{kind}, at bytes {} to {}", .span.start, .span.end)]
pub struct Fault {
    pub kind: FaultKind,
    pub span: Span,
}

/// Why a query's text gives no query: a fault of the text, or memory that was refused.
#[derive(Clone, Copy, Debug, PartialEq, Eq, Error)]
pub enum QueryFault {
    #[error("{0}")]
    Fault(Fault),
    #[error("out of memory")]
    Memory,
}
