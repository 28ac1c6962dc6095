//! The tokens of query text, and its syntax.
#![tactic(auto)]

mod lexer;
mod machine;

ghost use Rattle.std.specs.Prelude.{◌≡◌, ◌+◌, ◌<◌, ◌^◌, [], ◌∷◌, ◌++◌, map, IfOk};
ghost use Rattle.query_model.specs.Grammar.{IsQuery, IsSyntaxFault};
ghost use Rattle.query_model.specs.Laws.{EndsInEnd};
ghost use Rattle.query_model.specs.Machine.{parts_of};
ghost use Rattle.query_parser.specs.Lexed.{Answers, AnswersBy};
ghost use Rattle.query_parser.specs.Token.{seen, text_length};
ghost use Rattle.query_model.specs.Seen.{seen_part};
ghost use Rattle.query_model.specs.Syntax.{closed};
ghost use Rattle.query_parser.specs.Steps.{completed, nested, seen_part_of};

use crate::machine::{Completed, Draft, Move, Nesting, State, blank, step};
pub use lexer::{Token, TokenKind, lex};
use query_model::Span;
use query_model::faults::{Fault, FaultKind, QueryFault};
use query_model::syntax::{Part, Role, Syntax};
use std::alloc::{AllocError, Allocator};

/// The syntax of a query's tokens.
///
/// Fails at the first token such that the tokens before it begin some query and the tokens through it
/// begin none, or where memory is refused.
pub fn parse<'a, A: Allocator + Copy>(
    alloc: A,
    tokens: &[Token<'a>],
) -> Result<Syntax<'a, A>, QueryFault>
    requires { EndsInEnd (map seen tokens.now) }
    ensures answers { Answers FaultKind.Syntax (λ syntax. map seen_part syntax.parts.items) result
        (parts_of (map seen tokens.now)) }
    ensures meaning { AnswersBy FaultKind.Syntax
        (λ syntax. IsQuery (map seen tokens.now) (map seen_part syntax.parts.items))
        (IsSyntaxFault (map seen tokens.now)) result }
    ensures length { IfOk result (λ syntax. syntax.length ≡ text_length (map seen tokens.now)) }
{
    let length = text_length(tokens);
    let mut parts = Vec::new(alloc);
    let mut depth = 0;
    let mut state = State::TermNext(Role::And);
    // (a term is large, so it grows where it stands)
    let mut draft = blank();
    for token in tokens {
        let Some(go) = step(depth, state, &mut draft, token) else {
            return Err(unexpected(token.span));
        };
        complete(&mut parts, &draft, go).map_err(|_| QueryFault::Memory)?;
        depth = nested(depth, go.nesting);
        state = go.state;
    }
    match state {
        State::Finished => Ok(Syntax { parts, length }),
        _ => Err(unexpected(Span { start: 0, end: 0 })),
    }
}

/// How many bytes the text has of which these are the tokens.
fn text_length(tokens: &[Token<'_>]) -> usize
    ensures { result ≡ text_length (map seen tokens.now) }
{
    match tokens.last() {
        Some(end) => end.span.end,
        None => 0,
    }
}

/// Appends the parts that a step completes.
fn complete<'a, A: Allocator + Copy>(
    parts: &mut Vec<Part<'a>, A>,
    draft: &Draft<'a>,
    go: Move,
) -> Result<(), AllocError>
    ensures { IfOk result (λ _. map seen_part parts.new.items ≡ map seen_part parts.old.items
        ++ completed draft.now go.part go.nesting) }
{
    match go.part {
        Completed::Nothing => {}
        Completed::Term => put_term(parts, draft)?,
        Completed::Equality(same) => put_equality(parts, draft, same)?,
        Completed::Opening => put_opening(parts, draft)?,
    }
    if let Nesting::Closes = go.nesting {
        put_closing(parts)?;
    }
    Ok(())
}

// (a part is large: each kind is made in a function of its own, where there is room already, so a step makes none of
// the others)

/// Appends the term that was read.
fn put_term<'a, A: Allocator + Copy>(
    parts: &mut Vec<Part<'a>, A>,
    draft: &Draft<'a>,
) -> Result<(), AllocError>
    ensures { IfOk result (λ _. map seen_part parts.new.items ≡ map seen_part parts.old.items
        ++ seen_part_of draft.now Completed.Term) }
{
    parts.reserve(1)?;
    parts.push_reserved(Part::Term(draft.role, draft.term));
    Ok(())
}

/// Appends the equality that was read.
fn put_equality<'a, A: Allocator + Copy>(
    parts: &mut Vec<Part<'a>, A>,
    draft: &Draft<'a>,
    same: bool,
) -> Result<(), AllocError>
    ensures { IfOk result (λ _. map seen_part parts.new.items ≡ map seen_part parts.old.items
        ++ seen_part_of draft.now (Completed.Equality same)) }
{
    parts.reserve(1)?;
    parts.push_reserved(Part::Equality(draft.term.component, same, draft.last));
    Ok(())
}

/// Appends the beginning of a group.
fn put_opening<'a, A: Allocator + Copy>(
    parts: &mut Vec<Part<'a>, A>,
    draft: &Draft<'a>,
) -> Result<(), AllocError>
    ensures { IfOk result (λ _. map seen_part parts.new.items ≡ map seen_part parts.old.items
        ++ seen_part_of draft.now Completed.Opening) }
{
    parts.reserve(1)?;
    parts.push_reserved(Part::Opened(draft.term.span));
    Ok(())
}

/// Appends the end of a group.
fn put_closing<A: Allocator + Copy>(parts: &mut Vec<Part<'_>, A>) -> Result<(), AllocError>
    ensures { IfOk result (λ _. map seen_part parts.new.items ≡ map seen_part parts.old.items ++ closed ∷ []) }
{
    parts.reserve(1)?;
    parts.push_reserved(Part::Closed);
    Ok(())
}

/// How many groups are open after a step.
fn nested(depth: usize, nesting: Nesting) -> usize
    requires { depth + 1 < 2 ^ 64 }
    ensures { result ≡ nested depth nesting }
{
    match nesting {
        Nesting::Same => depth,
        Nesting::Opens => depth + 1,
        Nesting::Closes => depth.saturating_sub(1),
    }
}

/// The fault of a token with which no query goes on, by its place.
fn unexpected(span: Span) -> QueryFault
    ensures { result ≡ QueryFault.Fault (record { kind = FaultKind.Syntax; span = span }) }
{
    QueryFault::Fault(Fault {
        kind: FaultKind::Syntax,
        span,
    })
}
