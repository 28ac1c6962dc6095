//! The numbers of the stored queries that listen for a change that a command made.
ghost use Rattle.std.specs.Prelude.{◌≡◌, ◌↔◌, ◌∷◌, ◌++◌, [], ℕ, Contains, OnOk, flat_map, if◌then◌else◌};
ghost use Rattle.std.specs.List.Sorted.{IsStrictlyIncreasing};
ghost use Rattle.watch_index.specs.Listed.{listed};
ghost use Rattle.watch_index.specs.Occasions.{facts_of, happening, moved, of_all};
ghost use Rattle.watch_index.specs.declared.occasion.Occasion.TheVariants.{Fact, Life};
ghost use Rattle.watch_index.specs.declared.occasion.Way.TheVariants.{IsWritten};

use crate::index::WatchIndex;
use crate::occasion::{Occasion, Way};
use ecs_id::Id;
use ecs_model::FactKey;
use id_pattern::{Part, Pattern};
use short_list::ShortNumbers;
use std::alloc::{AllocError, Allocator};
use watch_concerns::is_asked_by_all;

/// The changes of a command.
#[derive(Clone, Copy)]
pub struct Happened<'c> {
    /// Whether an entity was created or deleted.
    pub lives: bool,
    /// The added facts.
    pub came: &'c [FactKey],
    /// The removed facts.
    pub went: &'c [FactKey],
    /// The facts whose values were set.
    pub written: &'c [FactKey],
}

/// Puts the numbers listed for each change into an empty list, in the order in which they are met; a number may stand
/// there more than once.
#[inline(always)]
pub(crate) fn gather<A: Allocator + Copy>(
    index: &WatchIndex<A>,
    happened: Happened<'_>,
    numbers: &mut ShortNumbers<A>,
) -> Result<(), AllocError>
    requires empty { numbers.old.items ≡ [] }
    ensures { OnOk result (numbers.new.items ≡ flat_map (listed index.now)
        (happening happened.entry.lives (happened.entry.came).now (happened.entry.went).now
        (happened.entry.written).now)) }
{
    push_lives(index, happened.lives, numbers)?;
    push_moved(index, happened.came, numbers)?;
    push_moved(index, happened.went, numbers)?;
    push_written(index, happened.written, numbers)?;
    Ok(())
}

/// Adds the numbers listed for created and deleted entities, if there is one.
#[inline(always)]
fn push_lives<A: Allocator + Copy>(
    index: &WatchIndex<A>,
    lives: bool,
    numbers: &mut ShortNumbers<A>,
) -> Result<(), AllocError>
    ensures { OnOk result (numbers.new.items ≡ numbers.old.items
        ++ flat_map (listed index.now) (if lives then Life ∷ [] else [])) }
{
    if lives {
        index.push_listed(&Occasion::Life, numbers)?;
    }
    Ok(())
}

/// Adds the numbers listed for added or removed facts.
#[inline(always)]
fn push_moved<A: Allocator + Copy>(
    index: &WatchIndex<A>,
    facts: &[FactKey],
    numbers: &mut ShortNumbers<A>,
) -> Result<(), AllocError>
    ensures { OnOk result (numbers.new.items ≡ numbers.old.items
        ++ flat_map (λ k. flat_map (listed index.now) (moved k.1)) facts.now) }
{
    for fact in facts {
        push_of_all(index, fact.id(), numbers)?;
        push_fact(index, Way::Moves, fact.id(), numbers)?;
    }
    Ok(())
}

/// Adds the numbers listed for facts whose values were set.
#[inline(always)]
fn push_written<A: Allocator + Copy>(
    index: &WatchIndex<A>,
    facts: &[FactKey],
    numbers: &mut ShortNumbers<A>,
) -> Result<(), AllocError>
    ensures { OnOk result (numbers.new.items ≡ numbers.old.items
        ++ flat_map (λ k. flat_map (listed index.now) (facts_of IsWritten k.1)) facts.now) }
{
    for fact in facts {
        push_fact(index, Way::IsWritten, fact.id(), numbers)?;
    }
    Ok(())
}

/// Adds the numbers listed for facts that concern every query, if the id is of such a fact.
#[inline(always)]
fn push_of_all<A: Allocator + Copy>(
    index: &WatchIndex<A>,
    id: Id,
    numbers: &mut ShortNumbers<A>,
) -> Result<(), AllocError>
    ensures { OnOk result (numbers.new.items ≡ numbers.old.items ++ flat_map (listed index.now) (of_all id)) }
{
    if is_asked_by_all(id) {
        index.push_listed(&Occasion::AskedByAll, numbers)?;
    }
    Ok(())
}

/// Adds the numbers listed for a change of a fact with this id.
#[inline(always)]
fn push_fact<A: Allocator + Copy>(
    index: &WatchIndex<A>,
    way: Way,
    id: Id,
    numbers: &mut ShortNumbers<A>,
) -> Result<(), AllocError>
    ensures { OnOk result (numbers.new.items ≡ numbers.old.items ++ flat_map (listed index.now) (facts_of way id)) }
{
    match id.second() {
        None => {
            push_pattern(index, way, Part::Is(id.first()), None, numbers)?;
            push_pattern(index, way, Part::Any, None, numbers)
        }
        Some(target) => {
            let first = Part::Is(id.first());
            let second = Some(Part::Is(target));
            let any = Some(Part::Any);
            push_pattern(index, way, first, second, numbers)?;
            push_pattern(index, way, first, any, numbers)?;
            push_pattern(index, way, Part::Any, second, numbers)?;
            push_pattern(index, way, Part::Any, any, numbers)
        }
    }
}

/// Adds the numbers listed for a change of facts whose ids match a pattern.
#[inline(always)]
fn push_pattern<A: Allocator + Copy>(
    index: &WatchIndex<A>,
    way: Way,
    first: Part,
    second: Option<Part>,
    numbers: &mut ShortNumbers<A>,
) -> Result<(), AllocError>
    ensures { OnOk result (numbers.new.items ≡ numbers.old.items ++ listed index.now (Fact way (record {
      first = first;
      second = second;
    }))) }
{
    index.push_listed(&Occasion::Fact(way, Pattern { first, second }), numbers)
}

/// Sorts the numbers and drops duplicates.
pub(crate) fn put_in_order<A: Allocator>(numbers: &mut ShortNumbers<A>)
    ensures ascend { IsStrictlyIncreasing numbers.new.items }
    ensures same { (n : ℕ) → Contains numbers.new.items n ↔ Contains numbers.old.items n }
{
    if numbers.as_slice().len() > 1 {
        numbers.put_in_order();
    }
}
