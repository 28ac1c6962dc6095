//! The candidates of a query after a command: the entities that may have moved, which is to enter or to leave its rows.

ghost use Rattle.std.specs.Prelude.{◌≡◌, ◌↔◌, ◌++◌, ◌∷◌, ◌==◌, ◌≤◌, ◌&&◌, ◌||◌, [], ℕ, Contains, true};
ghost use Rattle.std.specs.Prelude.{flat_map, length, not, IfNone, IfOk, IfSome};
ghost use Rattle.std.specs.Prelude.{OnOk, false, if◌then◌else◌};
ghost use Rattle.std.specs.List.{list_any};
ghost use Rattle.ecs_model.specs.rows.View.{view_of};
ghost use Rattle.ecs_model.specs.stored.Watches.{matching};
ghost use Rattle.query_meaning.specs.Sound.{IsSound};
ghost use Rattle.watch_touched.specs.Bonds.{bonds_of};
ghost use Rattle.watch_asked.specs.Asked.{IsAskedBy};
ghost use Rattle.watch_concerns.specs.Concerns.{concerns};
ghost use Rattle.watch_concerns.specs.Linked.{is_linked};
ghost use Rattle.watch_concerns.specs.Others.{concerns_below, concerns_others};
ghost use Rattle.watch_touched.specs.Concerned.{has_births_or_deaths, is_concerned};
ghost use Rattle.watch_touched.specs.Leaning.{Adds, HasAllBelow, IfDone, concerns_beyond, leaning, moves_by};
ghost use Rattle.watch_touched.specs.Moving.{AreAllMoved, are_holders, entities_by, entities_of, finds_moving};
ghost use Rattle.watch_touched.specs.Moving.{most_moving, told_by_ids};
ghost use Rattle.watch_touched.specs.Searches.{AreAllMovedBy, IsFollowed};
ghost use Rattle.watch_touched.specs.declared.moving.Moved.TheVariants.{Few, Nobody, Unknown};
ghost use Rattle.watch_concerns.specs.Since.{IsAfter};

use crate::Bonds;
use crate::concerned::has_births_or_deaths;
use crate::indexes::put_in_order;
use crate::leaning::{Leaners, MOST};
use crate::roles::Walk;
use crate::sought::Sought;
use crate::touching::ids_now;
use ecs_model::FactKey;
use ecs_world::{Changes, World};
use short_list::ShortList;
use std::alloc::{AllocError, Allocator};
use watch_asked::{AskedQuery, AskedTerms};

/// What is known about the candidates of a query after a command.
#[derive(Clone, Copy)]
pub enum Moved {
    /// The command doesn't concern the query: no entity entered or left the rows.
    Nobody,
    /// Every candidate is in the list.
    Few,
    /// Any entity may have entered or left the rows.
    Unknown,
}

/// A command's changes, the world after it, and the query whose candidates are searched for.
#[derive(Drop)]
pub(crate) struct Happened<'a, 'q, A: Allocator, B: Allocator> {
    alloc: A,
    query: &'a AskedQuery<'q, B>,
    bonds: Bonds,
    world: &'a World<A>,
    changes: &'a Changes<A>,
}

/// The entities whose changed facts may have moved the holders of a pair with them.
#[derive(Drop)]
pub(crate) struct Targets<A: Allocator> {
    /// The entity of each changed fact that concerns the query for entities besides the holder and those below it.
    others: ShortList<A>,
    /// The entity of each changed fact that concerns the query for the entities below the holder; later also every
    /// entity below one of these.
    below: ShortList<A>,
}

/// Finds the candidates of a query after a command, and puts them into `moving`, which is empty before. Every entity
/// that isn't a candidate is in the rows exactly if it was before.
///
/// Answers `Unknown` where the candidates can't be found: the query isn't anchored; or a changed fact concerns entities
/// besides its holder and those below it, and the query is neither tied nor linked, or is only linked and what it asks
/// isn't kept; or there may be more than 64 candidates. Takes time in the number of changed facts, and for each
/// candidate. Fails where memory is refused.
pub fn who_may_have_moved<A: Allocator + Copy, B: Allocator>(
    alloc: A,
    world: &World<A>,
    changes: &Changes<A>,
    query: &AskedQuery<'_, B>,
    bonds: Bonds,
    moving: &mut ShortList<A>,
) -> Result<Moved, AllocError>
    requires bonds { bonds ≡ bonds_of query.now }
    requires after { IsAfter world.now.state changes.now }
    requires sound { IsSound query.now }
    requires none { moving.old.items ≡ [] }
    ensures nobody { is_concerned query.now changes.now ≡ false → IfOk result (λ moved. moved ≡ Nobody) }
    ensures concerned { IfOk result (λ moved. moved ≡ Nobody → is_concerned query.now changes.now ≡ false) }
    ensures all { IfOk result (λ moved. moved ≡ Few → AreAllMoved query.now world.now.state changes.now
        moving.new.items) }
    ensures few { IfOk result (λ moved. moved ≡ Few → length moving.new.items ≤ most_moving) }
    ensures unknown { finds_moving query.now changes.now ≡ false → is_concerned query.now changes.now ≡ true
        → IfOk result (λ moved. moved ≡ Unknown) }
{
    world.keeps();
    let mut targets = Targets {
        others: ShortList::new(),
        below: ShortList::new(),
    };
    push_all_concerned(alloc, query, changes, moving, &mut targets)?;
    if is_nobody(bonds, changes, moving.len()) {
        return Ok(Moved::Nobody);
    }
    if !finds_moving(bonds, targets.others.len()) {
        return Ok(Moved::Unknown);
    }
    let happened = Happened {
        alloc,
        query,
        bonds,
        world,
        changes,
    };
    if !happened.push_all_moving(&mut targets, moving)? {
        return Ok(Moved::Unknown);
    }
    if moving.len() > MOST {
        return Ok(Moved::Unknown);
    }
    Ok(Moved::Few)
}

/// Whether the command doesn't concern the query. `own` counts the changed facts that concern it.
#[inline(always)]
fn is_nobody<A: Allocator>(bonds: Bonds, changes: &Changes<A>, own: usize) -> bool
    ensures { result ≡ ((own == 0) && (bonds.anchored || not (has_births_or_deaths changes.now))) }
{
    own == 0 && (bonds.anchored || !has_births_or_deaths(changes))
}

/// Whether the candidates can be found: the query is anchored, and it is tied or linked, or no changed fact concerns
/// entities besides its holder and those below it. `others` counts the changed facts that do.
#[inline(always)]
fn finds_moving(bonds: Bonds, others: usize) -> bool
    ensures { result ≡ (bonds.anchored && (bonds.tied || bonds.linked || (others == 0))) }
{
    bonds.anchored && (bonds.tied || bonds.linked || others == 0)
}

/// Whether an entity is `$this` of a row, as far as its own ids decide it. None where they don't; then the entity is
/// alive.
pub fn told_by_ids<A: Allocator, B: Allocator>(
    query: &AskedQuery<'_, B>,
    world: &World<A>,
    entity: u32,
) -> Option<bool>
    requires sound { IsSound query.now }
    ensures by_ids { result ≡ told_by_ids query.now world.now.state entity }
    ensures told { IfSome result (λ is. is ≡ list_any (λ x. x == entity)
        (matching (view_of world.now.state) query.now)) }
    ensures untold { IfNone result (Contains (view_of world.now.state).entities entity) }
{
    let Some(ids) = ids_now(world, entity) else {
        return Some(false);
    };
    if query.lacks(ids) {
        return Some(false);
    }
    if query.meets(ids) {
        return Some(true);
    }
    None
}

/// Does what `push_concerned` does, for all added and all removed facts.
fn push_all_concerned<A: Allocator + Copy, B: Allocator>(
    alloc: A,
    query: &AskedQuery<'_, B>,
    changes: &Changes<A>,
    own: &mut ShortList<A>,
    targets: &mut Targets<A>,
) -> Result<(), AllocError>
    ensures own { OnOk result (own.new.items ≡ own.old.items ++ entities_of (concerns query.now) changes.now) }
    ensures others { OnOk result (targets.new.others.items ≡ targets.old.others.items
        ++ entities_of (concerns_others query.now) changes.now) }
    ensures below { OnOk result (targets.new.below.items ≡ targets.old.below.items
        ++ entities_of (concerns_below query.now) changes.now) }
{
    push_concerned(alloc, query, changes.came(), own, targets)?;
    push_concerned(alloc, query, changes.went(), own, targets)
}

/// Adds the entity of each fact that concerns the query to `own`. Adds it to the targets too where the fact concerns
/// other entities, or entities below. The id of each fact is judged once.
#[inline(always)]
fn push_concerned<A: Allocator + Copy, B: Allocator>(
    alloc: A,
    query: &AskedQuery<'_, B>,
    facts: &[FactKey],
    own: &mut ShortList<A>,
    targets: &mut Targets<A>,
) -> Result<(), AllocError>
    ensures own { OnOk result (own.new.items ≡ own.old.items ++ entities_by (concerns query.now) facts.now) }
    ensures others { OnOk result (targets.new.others.items ≡ targets.old.others.items
        ++ entities_by (concerns_others query.now) facts.now) }
    ensures below { OnOk result (targets.new.below.items ≡ targets.old.below.items
        ++ entities_by (concerns_below query.now) facts.now) }
{
    for fact in facts {
        push_if_concerned(alloc, query, *fact, own, targets)?;
    }
    Ok(())
}

/// Adds the entity of a fact to each of these lists, if the fact concerns the query in that way.
// (out of line, so that a command without added or removed facts pays nothing for it)
#[inline(never)]
fn push_if_concerned<A: Allocator + Copy, B: Allocator>(
    alloc: A,
    query: &AskedQuery<'_, B>,
    fact: FactKey,
    own: &mut ShortList<A>,
    targets: &mut Targets<A>,
) -> Result<(), AllocError>
    ensures own { OnOk result (own.new.items ≡ own.old.items ++
        (if concerns query.now fact.1 then fact.0 ∷ [] else [])) }
    ensures others { OnOk result (targets.new.others.items ≡ targets.old.others.items
        ++ (if concerns_others query.now fact.1 then fact.0 ∷ [] else [])) }
    ensures below { OnOk result (targets.new.below.items ≡ targets.old.below.items
        ++ (if concerns_below query.now fact.1 then fact.0 ∷ [] else [])) }
{
    let concern = query.concern_of(fact.id());
    let entity = fact.entity();
    push_if(alloc, concern.anyone, entity, own)?;
    push_if(alloc, concern.others, entity, &mut targets.others)?;
    push_if(alloc, concern.below, entity, &mut targets.below)?;
    Ok(())
}

/// Adds an entity if it is wanted.
#[inline(always)]
fn push_if<A: Allocator>(
    alloc: A,
    wanted: bool,
    entity: u32,
    found: &mut ShortList<A>,
) -> Result<(), AllocError>
    ensures { OnOk result (found.new.items ≡ found.old.items ++ (if wanted then entity ∷ [] else [])) }
{
    if wanted {
        found.push(alloc, entity)?;
    }
    Ok(())
}

/// Whether a changed fact of another entity may move only the holders of a pair with it, or with an entity below it:
/// the query is tied, or no changed fact concerns other entities. `others` counts the changed facts that do.
#[inline(always)]
fn are_holders(bonds: Bonds, others: usize) -> bool
    ensures { result ≡ (bonds.tied || (others == 0)) }
{
    bonds.tied || others == 0
}

impl<'a, 'q, A: Allocator + Copy, B: Allocator> Happened<'a, 'q, A, B> {
    /// Completes the list of candidates and sorts it. It begins with the entities whose own changed facts concern the
    /// query. Answers false where there may be too many.
    // (by value, so that nothing is stored for it where no fact concerns other entities)
    #[inline(always)]
    fn push_all_moving(
        self,
        targets: &mut Targets<A>,
        moving: &mut ShortList<A>,
    ) -> Result<bool, AllocError>
        requires { IsFollowed self moving.old.items targets.old }
        ensures { IfDone result (AreAllMovedBy self.entry moving.new.items) }
    {
        if targets.others.len() == 0 && targets.below.len() == 0 {
            self.world.keeps();
            put_in_order(moving);
            return Ok(true);
        }
        self.push_moved_by_others(targets, moving)
    }

    /// The same where a changed fact concerns other entities or entities below. Answers false where there may be too
    /// many candidates, or where what the query asks isn't kept.
    // (most facts concern their own entity alone)
    #[inline(never)]
    fn push_moved_by_others(
        self,
        targets: &mut Targets<A>,
        moving: &mut ShortList<A>,
    ) -> Result<bool, AllocError>
        requires { IsFollowed self moving.old.items targets.old }
        ensures { IfDone result (AreAllMovedBy self.entry moving.new.items) }
    {
        if are_holders(self.bonds, targets.others.len()) {
            return self.push_moved_by_pairs(targets, moving);
        }
        let Some(asked) = self.query.kept() else {
            return Ok(false);
        };
        self.push_moved_by_roles(asked, targets, moving)
    }

    /// Adds each entity that holds a pair whose target is in `others`, the entities with a changed fact that concerns
    /// other entities; or in `below`, the entities with a changed fact that concerns entities below, and all entities
    /// below them. Then sorts the list. Answers false where there may be too many.
    fn push_moved_by_pairs(
        &self,
        targets: &mut Targets<A>,
        moving: &mut ShortList<A>,
    ) -> Result<bool, AllocError>
        requires followed { IsFollowed self.now moving.old.items targets.old }
        requires holders { are_holders self.now.query.now self.now.changes.now ≡ true }
        ensures { IfDone result (AreAllMovedBy self.now moving.new.items) }
    {
        self.world.keeps();
        if !self.push_holders(&mut targets.others, moving)? {
            return Ok(false);
        }
        if !self.push_below(&mut targets.below, moving)? {
            return Ok(false);
        }
        put_in_order(moving);
        Ok(true)
    }

    /// For a linked query. Adds each entity from which the query's terms lead to the holder of a changed fact that the
    /// query asks of a variable besides `$this`. Adds each entity that holds a pair whose target is in `below`, the
    /// entities with a changed fact that concerns entities below, and all entities below them. Then sorts the list.
    /// Answers false where there may be too many.
    fn push_moved_by_roles(
        &self,
        asked: &AskedTerms<B>,
        targets: &mut Targets<A>,
        moving: &mut ShortList<A>,
    ) -> Result<bool, AllocError>
        requires asked { IsAskedBy self.now.query.now asked.now }
        requires followed { IsFollowed self.now moving.old.items targets.old }
        requires linked { is_linked self.now.query.now ≡ true }
        ensures { IfDone result (AreAllMovedBy self.now moving.new.items) }
    {
        self.world.keeps();
        let walk = Walk {
            alloc: self.alloc,
            query: self.query,
            asked,
            world: self.world,
            changes: self.changes,
        };
        if !walk.push_by_roles(moving)? {
            return Ok(false);
        }
        if !self.push_below(&mut targets.below, moving)? {
            return Ok(false);
        }
        put_in_order(moving);
        Ok(true)
    }

    /// Sorts the targets, and adds each candidate that holds a pair with one of them to `moving`. Answers false where
    /// there may be too many.
    fn push_holders(
        &self,
        others: &mut ShortList<A>,
        moving: &mut ShortList<A>,
    ) -> Result<bool, AllocError>
        ensures same { (e : ℕ) → Contains others.new.items e ↔ Contains others.old.items e }
        ensures moving { IfDone result (Adds (flat_map
            (leaning (moves_by self.now.query.now) self.now.world.now.state) others.new.items)
            moving.old.items moving.new.items) }
    {
        put_in_order(others);
        let leaners = self.seeking(Sought::Moving);
        leaners.push_leaning_on_all(others.as_slice(), moving)
    }

    /// Adds to `below` all entities below those in it. Adds to `moving` each candidate that holds a pair with an entity
    /// in `below`. Answers false where there may be too many.
    #[inline(always)]
    fn push_below(
        &self,
        below: &mut ShortList<A>,
        moving: &mut ShortList<A>,
    ) -> Result<bool, AllocError>
        ensures below { IfDone result (HasAllBelow (λ ids. concerns_beyond self.now.query.now) self.now.world.now.state
            below.old.items below.new.items) }
        ensures moving { IfDone result (Adds (flat_map
            (leaning (moves_by self.now.query.now) self.now.world.now.state) below.new.items)
            moving.old.items moving.new.items) }
    {
        if below.len() == 0 {
            return Ok(true);
        }
        self.push_all_leaning(below, moving)
    }

    /// The same, where `below` isn't empty.
    #[inline(never)]
    fn push_all_leaning(
        &self,
        below: &mut ShortList<A>,
        moving: &mut ShortList<A>,
    ) -> Result<bool, AllocError>
        ensures below { IfDone result (HasAllBelow (λ ids. concerns_beyond self.now.query.now) self.now.world.now.state
            below.old.items below.new.items) }
        ensures moving { IfDone result (Adds (flat_map
            (leaning (moves_by self.now.query.now) self.now.world.now.state) below.new.items)
            moving.old.items moving.new.items) }
    {
        put_in_order(below);
        let lower = self.seeking(Sought::Below);
        if !lower.push_all_below(below)? {
            return Ok(false);
        }
        let leaners = self.seeking(Sought::Moving);
        leaners.push_leaning_on_all(below.as_slice(), moving)
    }

    /// A search for holders, of which `sought` says which ones count.
    #[inline(always)]
    fn seeking(&self, sought: Sought) -> Leaners<'a, 'q, A, B>
        ensures { result ≡ record {
          alloc = self.now.alloc;
          query = self.now.query;
          sought = sought;
          world = self.now.world;
        } }
    {
        Leaners {
            alloc: self.alloc,
            query: self.query,
            sought,
            world: self.world,
        }
    }
}
