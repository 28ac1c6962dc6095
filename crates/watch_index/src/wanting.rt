//! The occasions that a stored query listens for.
ghost use Rattle.std.specs.Prelude.{◌≡◌, ◌++◌, IfOk, OnOk, flat_map};
ghost use Rattle.query_check.specs.Terms.{terms};
ghost use Rattle.watch_concerns.specs.Anchored.{is_anchored};
ghost use Rattle.watch_index.specs.Occasions.{occasions_of, of_monitors, pairs_of, part_of, pattern_of, term_occasions};

use crate::occasion::{Occasion, Way};
use ecs_model::watches::StoredKind;
use id_pattern::{Part, Pattern};
use query_check::Query;
use query_model::query::{Ref, Term};
use std::alloc::{AllocError, Allocator};

/// All occasions that a stored query of a kind listens for: no other change alters its rows or is among its events.
/// `anchored` says whether the query is anchored.
///
/// Fails where memory is refused.
pub fn occasions_of<A: Allocator>(
    alloc: A,
    kind: StoredKind,
    query: &Query<A>,
    anchored: bool,
) -> Result<Vec<Occasion, A>, AllocError>
    requires anchored { anchored ≡ is_anchored query.now }
    ensures { IfOk result (λ found. found.items ≡ occasions_of kind query.now) }
{
    match kind {
        StoredKind::Kept => Ok(Vec::new(alloc)),
        StoredKind::Monitor => of_monitor(alloc, query, anchored),
        StoredKind::OnAdd | StoredKind::OnRemove => of_terms(alloc, query, Way::Moves),
        StoredKind::OnSet => of_terms(alloc, query, Way::IsWritten),
    }
}

/// The occasions of a monitor.
fn of_monitor<A: Allocator>(
    alloc: A,
    query: &Query<A>,
    anchored: bool,
) -> Result<Vec<Occasion, A>, AllocError>
    requires anchored { anchored ≡ is_anchored query.now }
    ensures { IfOk result (λ found. found.items ≡ of_monitors query.now) }
{
    let mut found = of_terms(alloc, query, Way::Moves)?;
    found.push(Occasion::AskedByAll)?;
    if !anchored {
        found.push(Occasion::Life)?;
    }
    Ok(found)
}

/// The occasions of a query's terms.
fn of_terms<A: Allocator>(
    alloc: A,
    query: &Query<A>,
    way: Way,
) -> Result<Vec<Occasion, A>, AllocError>
    ensures { IfOk result (λ found. found.items ≡ flat_map (term_occasions way) (terms query.now)) }
{
    let mut found = Vec::new(alloc);
    push_terms(query.terms(), way, &mut found)?;
    Ok(found)
}

fn push_terms<A: Allocator>(
    terms: &[Term],
    way: Way,
    found: &mut Vec<Occasion, A>,
) -> Result<(), AllocError>
    ensures { OnOk result (found.new.items ≡ found.old.items ++ flat_map (term_occasions way) terms.now) }
{
    for term in terms {
        push_term(term, way, found)?;
    }
    Ok(())
}

/// Adds the occasions of a term: the ids that it may match, the pairs along which it goes up, and the pairs that it
/// follows.
fn push_term<A: Allocator>(
    term: &Term,
    way: Way,
    found: &mut Vec<Occasion, A>,
) -> Result<(), AllocError>
    ensures { OnOk result (found.new.items ≡ found.old.items ++ term_occasions way term.now) }
{
    found.push(Occasion::Fact(way, pattern_of(term.component, term.target)))?;
    if let Some(relationship) = term.up {
        found.push(Occasion::Fact(way, pairs_of(Part::Is(relationship))))?;
    }
    if term.closed {
        found.push(Occasion::Fact(way, pairs_of(part_of(term.component))))?;
    }
    Ok(())
}

/// The pattern of all ids that a term may match; a variable may stand for any entity.
fn pattern_of(first: Ref, target: Option<Ref>) -> Pattern
    ensures { result ≡ pattern_of first target }
{
    Pattern {
        first: part_of(first),
        second: target.map(part_of),
    }
}

/// The pattern of all pairs of a relationship.
fn pairs_of(relationship: Part) -> Pattern
    ensures { result ≡ pairs_of relationship }
{
    Pattern {
        first: relationship,
        second: Some(Part::Any),
    }
}

/// What a reference may stand for; a variable may stand for any entity.
fn part_of(reference: Ref) -> Part
    ensures { result ≡ part_of reference }
{
    match reference {
        Ref::Is(index) => Part::Is(index),
        Ref::Var(_) | Ref::Any | Ref::AnyOnce => Part::Any,
    }
}
