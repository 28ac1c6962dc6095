//! How the terms of a query lead from the entity of one variable to the entity of another.

ghost use Rattle.std.specs.Prelude.{◌≡◌, ◌++◌, IfOk, OnOk, Some, flat_map};
ghost use Rattle.id_pattern.specs.Patterns.{matches};
ghost use Rattle.id_pattern.specs.declared.Part.TheVariants.{Is};
ghost use Rattle.watch_asked.specs.Asked.{steps_between, steps_of};

use crate::asked::asked_by;
use crate::asked_id::AskedId;
use ecs_id::Id;
use id_pattern::Pattern;
use query_model::query::{Ref, Term};
use std::alloc::{AllocError, Allocator};

/// A term that leads from the entity of a variable to the entity of a later one, by a pair: one of the two is its
/// holder, the other its target.
#[derive(Drop)]
pub struct LinkStep {
    pub(crate) from: usize,
    pub(crate) to: usize,
    /// The pairs that the term may match.
    pub(crate) asked: AskedId,
    /// Whether the holder is the entity of the earlier variable.
    pub(crate) outward: bool,
}

impl LinkStep {
    /// The earlier variable.
    #[inline(always)]
    pub fn from(&self) -> usize
        ensures { result ≡ self.now.from }
    {
        self.from
    }

    /// The later variable.
    #[inline(always)]
    pub fn to(&self) -> usize
        ensures { result ≡ self.now.to }
    {
        self.to
    }

    /// Whether the holder is the entity of the earlier variable.
    #[inline(always)]
    pub fn is_outward(&self) -> bool
        ensures { result ≡ self.now.outward }
    {
        self.outward
    }

    /// Whether the step may lead by this id.
    #[inline(always)]
    pub fn matches(&self, id: Id) -> bool
        ensures { result ≡ matches self.now.asked id }
    {
        self.asked.matches(id)
    }

    /// The pairs with this target by which the step may lead.
    #[inline(always)]
    pub fn pairs_with(&self, target: u32) -> Pattern
        ensures { result ≡ record { first = (self.now.asked).first; second = Some (Is target) } }
    {
        self.asked.with_target(target)
    }
}

/// The steps of these terms.
pub(crate) fn link_steps<A: Allocator>(
    alloc: A,
    terms: &[Term],
) -> Result<Vec<LinkStep, A>, AllocError>
    ensures { IfOk result (λ steps. steps.items ≡ flat_map steps_of terms.now) }
{
    let mut steps = Vec::new(alloc);
    for term in terms {
        push_step(term, &mut steps)?;
    }
    Ok(steps)
}

/// Adds the step of a term, if it tests the entity of one variable itself for a pair whose target is the entity of
/// another.
fn push_step<A: Allocator>(term: &Term, steps: &mut Vec<LinkStep, A>) -> Result<(), AllocError>
    ensures { OnOk result (steps.new.items ≡ steps.old.items ++ steps_of term.now) }
{
    if term.up.is_some() || term.closed {
        return Ok(());
    }
    let Ref::Var(source) = term.source else {
        return Ok(());
    };
    let Some(Ref::Var(target)) = term.target else {
        return Ok(());
    };
    push_between(source, target, asked_by(term.component, term.target), steps)
}

/// Adds the step between two variables, where the entity of `source` is the holder and that of `target` the target;
/// none if they are the same variable.
fn push_between<A: Allocator>(
    source: usize,
    target: usize,
    asked: AskedId,
    steps: &mut Vec<LinkStep, A>,
) -> Result<(), AllocError>
    ensures { OnOk result (steps.new.items ≡ steps.old.items ++ steps_between source target asked) }
{
    if source < target {
        steps.push(LinkStep {
            from: source,
            to: target,
            asked,
            outward: true,
        })?;
    } else if target < source {
        steps.push(LinkStep {
            from: target,
            to: source,
            asked,
            outward: false,
        })?;
    }
    Ok(())
}
