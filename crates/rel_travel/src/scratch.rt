//! The searches of a graph, in room that is made once.
ghost use Rattle.std.specs.Prelude.{◌≡◌, ◌==◌, ◌↔◌, ◌+◌, ◌≤◌, ◌<◌, ℕ, List, [], ◌∷◌, length, max, find, All, Contains};
ghost use Rattle.std.specs.Prelude.{IsTrue, MatchOption, OnOk, OnErr};
ghost use Rattle.std.specs.List.{list_any, IsDistinct};
ghost use Rattle.id_pattern.specs.Patterns.{matches};
ghost use Rattle.id_pattern.specs.declared.Pattern.{Pattern as Asked};
ghost use Rattle.ecs_id.specs.declared.TableKey.{TableKey};
ghost use Rattle.ecs_model.specs.Cleanup.{falling};
ghost use Rattle.ecs_model.specs.Links.{IsAcyclic, IsReached, ancestor_line, depth as depth_in, reaches as reaches_in};
ghost use Rattle.ecs_model.specs.Links.{upward};
ghost use Rattle.ecs_model.specs.Reach.{IsLeast, Reached};
ghost use Rattle.rel_travel.specs.Lists.{GivesOne, IsListing, IsToCome, given_by, steps};
ghost use Rattle.rel_travel.specs.Growing.{IsGrownBy};
ghost use Rattle.rel_travel.specs.Coming.{above_list, below_list, brought, coming, with_finds};
ghost use Rattle.rel_travel.specs.Finds.{is_among, with_find};
ghost use Rattle.rel_travel.specs.Referring.{is_forbidden, referrers};
ghost use Rattle.rel_travel.specs.UpWords.{AreKnown};
ghost use Rattle.rel_travel.specs.Words.{AreNumbers};

use crate::chains::{begin_with, leads, leads_back, reach_of};
use crate::depths::{noted_depth, own_depth};
use crate::falls::find_falling;
use crate::forbidding::has_forbidder;
use crate::found::Found;
use crate::graph::{Graph, Upward};
use crate::holders::{Downward, Holders};
use crate::line::first_hit;
use crate::path::Path;
use crate::referrers::list_referrers;
use crate::up_words::Known;
use crate::work_list::{Rule, gather_found};
use id_pattern::Pattern;
use std::alloc::{AllocError, Allocator, Global};
use std::marker::Model;

/// The list that was begun last.
#[derive(Clone, Copy)]
struct Listing {
    relationship: u32,
    /// Whether it goes from sources to targets, and not from targets to sources.
    is_upward: bool,
    /// Whether it goes on from each entity that it gives.
    goes_on: bool,
    /// How many of the found entities it has given.
    given: usize,
}

/// Room for the searches of a graph.
///
/// Room is made by `reserve` alone: the searches take no memory and can't fail. Each forgets what the one before it
/// found, in time in what that was; the size of the graph costs no search anything.
pub struct Scratch<A: Allocator = Global> {
    found: Found<A>,
    referring: Found<A>,
    path: Path<A>,
    /// For depths. It has room for as many as the scratch covers; none is made before a depth is asked for, and all are
    /// 0 between calls.
    words: Vec<u32, A>,
    list: Listing,
}

impl<A: Allocator> Drop for Scratch<A> {
    #[inline(always)]
    fn drop(self) {
        let Self {
            found: _,
            referring: _,
            path: _,
            words: _,
            list: _,
        } = self;
    }
}

impl<A: Allocator> Model for Scratch<A> {
    ghost use Rattle.std.specs.Prelude.{◌-◌, ◌≤◌, vec_capacity};
    ghost use Rattle.rel_travel.specs.Lists.{Work};
    ghost use Rattle.rel_travel.specs.Words.{NoneNoted};

    ghost Value = { Work };

    ghost view = { λ s. record {
      size = s.found.size;
      found = s.found.items;
      referrers = s.referring.items;
      relationship = s.list.relationship;
      is_upward = s.list.is_upward;
      goes_on = s.list.goes_on;
      given = s.list.given;
    } };

    ghost invariant = { λ s. (s.found.size ≤ s.path.room - 1) × (s.found.size ≤ s.referring.size)
        × (s.found.size ≤ vec_capacity s.words)
        × NoneNoted s.words.items };
}

impl<A: Allocator + Copy> Scratch<A> {
    /// A scratch that covers graphs of size 0 alone. It takes no memory.
    pub fn new(alloc: A) -> Self
        ensures size { result.size ≡ 0 }
        ensures found { result.found ≡ [] }
    {
        Scratch {
            found: Found::new(alloc),
            referring: Found::new(alloc),
            path: Path::new(alloc),
            words: Vec::new(alloc),
            list: Listing {
                relationship: 0,
                is_upward: true,
                goes_on: false,
                given: 0,
            },
        }
    }

    /// Makes room for graphs of this size, where there is less. A list that was begun goes on.
    ///
    /// Where memory is refused, the scratch covers what it covered before.
    pub fn reserve(&mut self, size: u32) -> Result<(), AllocError>
        ensures ok { OnOk result (self.new ≡ record self.old { size = max self.old.size size }) }
        ensures refused { OnErr result (self.new ≡ self.old) }
    {
        self.path.reserve(size as usize + 1)?;
        self.words
            .reserve((size as usize).saturating_sub(self.words.len()))?;
        self.referring.reserve(size)?;
        self.found.reserve(size)
    }
}

impl<A: Allocator> Scratch<A> {
    /// Whether there is room for the searches of a graph.
    pub fn covers<G: Graph>(&self, graph: &G) -> bool
        ensures { IsTrue result ↔ (G.size graph.now ≤ self.now.size) }
    {
        graph.size() as usize <= self.found.size()
    }

    /// What the last search found, each entity once, by index.
    pub fn found(&self) -> &[u32]
        ensures found { result.now ≡ self.now.found }
        ensures once { IsDistinct ◌==◌ result.now }
    {
        self.found.as_slice()
    }

    /// Those that refer to what was found, as `find_referrers` found them last, each once, by index.
    pub fn referrers(&self) -> &[u32]
        ensures referrers { result.now ≡ self.now.referrers }
        ensures once { IsDistinct ◌==◌ result.now }
    {
        self.referring.as_slice()
    }

    /// Whether the last search found an entity.
    pub fn is_found(&self, index: u32) -> bool
        requires { index < self.now.size }
        ensures { result ≡ is_among self.now.found index }
    {
        self.found.is_found(index)
    }

    /// Forgets what the last search found.
    pub fn clear(&mut self)
        ensures size { self.new.size ≡ self.old.size }
        ensures found { self.new.found ≡ [] }
    {
        self.found.clear();
    }

    /// Adds an entity to what is found, if it isn't there.
    pub fn add(&mut self, index: u32)
        requires { index < self.old.size }
        ensures size { self.new.size ≡ self.old.size }
        ensures found { self.new.found ≡ with_find self.old.found index }
    {
        self.found.add(index);
    }
}

/// Adds all that a rule brings from the found entities, and what it brings from there, and so on.
///
/// It follows the rule from each entity once.
pub fn gather<R: Rule, A: Allocator>(rule: &R, scratch: &mut Scratch<A>)
    requires { (x : ℕ) → All (λ y. y < scratch.old.size) (R.next rule.now x) }
    ensures size { scratch.new.size ≡ scratch.old.size }
    ensures least { IsLeast (R.next rule.now) scratch.old.found scratch.new.found }
{
    gather_found(rule, &mut scratch.found);
}

/// Begins the list of all entities that a relationship leads to from an entity; `pull` gives them.
///
/// It goes through the ids of one entity.
pub fn above<G: Graph, A: Allocator>(
    graph: &G,
    index: u32,
    relationship: u32,
    scratch: &mut Scratch<A>,
)
    requires covered { G.size graph.now ≤ scratch.old.size }
    requires inside { index < scratch.old.size }
    ensures size { scratch.new.size ≡ scratch.old.size }
    ensures begun { IsListing (G.entities graph.now) (G.ids graph.now) scratch.new }
    ensures none_given { given_by scratch.new ≡ [] }
    ensures reached { (y : ℕ) → IsToCome (G.entities graph.now) (G.ids graph.now) scratch.new y
        ↔ IsReached (G.ids graph.now) relationship index y }
    ensures coming { (rows : TableKey → List ℕ) (listed : Asked → List TableKey)
        → coming rows listed (G.ids graph.now) scratch.new ≡ above_list (G.size graph.now)
        (G.ids graph.now) relationship index }
{
    let _ = graph.size();
    let reach = reach_of(graph, relationship);
    let rule = Upward {
        graph,
        relationship,
    };
    if begin_with(index, reach, &mut scratch.found) {
        rule.follow(index, &mut scratch.found);
    }
    scratch.list = Listing {
        relationship,
        is_upward: true,
        goes_on: reach.is_transitive,
        given: 0,
    };
}

/// Begins the list of all entities from which a relationship leads to an entity; `pull` gives them.
///
/// It goes through the sources of the pairs with this one target.
pub fn below<G: Holders, A: Allocator>(
    graph: &G,
    index: u32,
    relationship: u32,
    scratch: &mut Scratch<A>,
)
    requires covered { G.size graph.now ≤ scratch.old.size }
    requires inside { index < scratch.old.size }
    ensures size { scratch.new.size ≡ scratch.old.size }
    ensures begun { IsListing (G.entities graph.now) (G.ids graph.now) scratch.new }
    ensures none_given { given_by scratch.new ≡ [] }
    ensures reached { (y : ℕ) → IsToCome (G.entities graph.now) (G.ids graph.now) scratch.new y
        ↔ IsReached (G.ids graph.now) relationship y index }
    ensures coming { coming (G.rows graph.now) (G.listed graph.now) (G.ids graph.now) scratch.new
        ≡ below_list (G.rows graph.now) (G.listed graph.now) (G.size graph.now) (G.ids graph.now) relationship index }
{
    let _ = graph.size();
    graph.lists_holders();
    let reach = reach_of(graph, relationship);
    let rule = Downward {
        graph,
        relationship,
    };
    if begin_with(index, reach, &mut scratch.found) {
        rule.follow(index, &mut scratch.found);
    }
    scratch.list = Listing {
        relationship,
        is_upward: false,
        goes_on: reach.is_transitive,
        given: 0,
    };
}

/// Gives the next entity of the list that was begun last, each once, or None where all are given.
///
/// What a list gives, and in which order, depends only on the graph and on what was begun.
///
/// It goes through the ids, or the sources, of the entity that it gives.
pub fn pull<G: Holders, A: Allocator>(graph: &G, scratch: &mut Scratch<A>) -> Option<u32>
    requires covered { G.size graph.now ≤ scratch.old.size }
    ensures size { scratch.new.size ≡ scratch.old.size }
    ensures next { MatchOption result (coming (G.rows graph.now) (G.listed graph.now)
        (G.ids graph.now) scratch.old ≡ [])
        (λ e. coming (G.rows graph.now) (G.listed graph.now) (G.ids graph.now) scratch.old
        ≡ e ∷ coming (G.rows graph.now) (G.listed graph.now) (G.ids graph.now) scratch.new) }
    ensures begun { IsListing (G.entities graph.now) (G.ids graph.now) scratch.old
        → IsListing (G.entities graph.now) (G.ids graph.now) scratch.new }
    ensures given { IsListing (G.entities graph.now) (G.ids graph.now) scratch.old
        → GivesOne (G.entities graph.now) (G.ids graph.now) scratch.old result scratch.new }
    ensures fits { length (given_by scratch.new) ≤ scratch.new.size }
{
    let _ = graph.size();
    let list = scratch.list;
    if scratch.found.len() <= list.given {
        return None;
    }
    let entity = scratch.found.at(list.given);
    scratch.list.given += 1;
    if list.goes_on {
        follow(graph, list, entity, &mut scratch.found);
    }
    Some(entity)
}

/// Adds what an entity brings to a list.
fn follow<G: Holders, A: Allocator>(graph: &G, list: Listing, entity: u32, found: &mut Found<A>)
    requires covered { G.size graph.now ≤ found.old.size }
    ensures size { found.new.size ≡ found.old.size }
    ensures grown { IsGrownBy (steps (G.entities graph.now) (G.ids graph.now) list.is_upward list.relationship entity)
        found.old.items found.new.items }
    ensures items { found.new.items ≡ with_finds found.old.items
        (brought (G.rows graph.now) (G.listed graph.now) (G.ids graph.now) list.is_upward list.relationship entity) }
{
    let _ = graph.size();
    let relationship = list.relationship;
    if list.is_upward {
        let rule = Upward {
            graph,
            relationship,
        };
        rule.follow(entity, found);
    } else {
        let rule = Downward {
            graph,
            relationship,
        };
        rule.follow(entity, found);
    }
}

/// Whether a relationship leads from one entity to another.
///
/// It goes through the ids of the entities that are reached, each once.
pub fn reaches<G: Graph, A: Allocator>(
    graph: &G,
    relationship: u32,
    source: u32,
    target: u32,
    scratch: &mut Scratch<A>,
) -> bool
    requires covered { G.size graph.now ≤ scratch.old.size }
    requires source { source < scratch.old.size }
    requires target { target < scratch.old.size }
    ensures size { scratch.new.size ≡ scratch.old.size }
    ensures answer { result ≡ reaches_in (G.ids graph.now) (G.entities graph.now) relationship source target }
{
    leads(graph, relationship, source, target, &mut scratch.found)
}

/// Whether a pair of the relationship, from the source to the target, would close a chain: a chain of pairs leads from
/// the target to the source, or they are one.
///
/// It goes through the ids of the target and of its ancestors, each once.
pub fn would_cycle<G: Graph, A: Allocator>(
    graph: &G,
    relationship: u32,
    source: u32,
    target: u32,
    scratch: &mut Scratch<A>,
) -> bool
    requires covered { G.size graph.now ≤ scratch.old.size }
    requires source { source < scratch.old.size }
    requires target { target < scratch.old.size }
    ensures size { scratch.new.size ≡ scratch.old.size }
    ensures answer { IsTrue result ↔ Reached (upward (G.ids graph.now) relationship) target source }
{
    leads_back(graph, relationship, source, target, &mut scratch.found)
}

/// The first entity in the line upward from an entity that holds an id which the pattern matches. The entity itself
/// isn't in the line.
///
/// The word of an entity may say what is found from it on, the entity included. The search goes through the ids of each
/// entity once, though it may stand in the line more often, and of none whose word says something. It notes what is
/// found.
pub fn first_up<G: Graph, K: Known, A: Allocator>(
    graph: &G,
    index: u32,
    relationship: u32,
    pattern: Pattern,
    known: &mut K,
    scratch: &mut Scratch<A>,
) -> Option<u32>
    requires covered { G.size graph.now ≤ scratch.old.size }
    requires inside { index < scratch.old.size }
    requires acyclic { IsAcyclic (G.ids graph.now) relationship }
    requires known { AreKnown (λ e. find (λ t. list_any (matches pattern) (G.ids graph.now t))
        (e ∷ ancestor_line (G.ids graph.now) (G.entities graph.now) relationship e)) (K.words known.old) }
    ensures size { scratch.new.size ≡ scratch.old.size }
    ensures first { result ≡ find (λ t. list_any (matches pattern) (G.ids graph.now t))
        (ancestor_line (G.ids graph.now) (G.entities graph.now) relationship index) }
    ensures known { AreKnown (λ e. find (λ t. list_any (matches pattern) (G.ids graph.now t))
        (e ∷ ancestor_line (G.ids graph.now) (G.entities graph.now) relationship e)) (K.words known.new) }
{
    first_hit(
        graph,
        index,
        relationship,
        pattern,
        known,
        &mut scratch.found,
        &mut scratch.path,
    )
}

/// How many pairs the longest chain of a relationship has that starts at an entity, 0 where it has no such pair.
///
/// It goes through the ids of the entity and of its ancestors, each twice. The first call over a graph also makes a
/// word for each entity, in room that is there.
pub fn depth<G: Graph, A: Allocator>(
    graph: &G,
    index: u32,
    relationship: u32,
    scratch: &mut Scratch<A>,
) -> u32
    requires covered { G.size graph.now ≤ scratch.old.size }
    requires inside { index < G.size graph.now }
    requires acyclic { IsAcyclic (G.ids graph.now) relationship }
    ensures size { scratch.new.size ≡ scratch.old.size }
    ensures depth { result ≡ depth_in (G.ids graph.now) (G.entities graph.now) relationship index }
{
    own_depth(
        graph,
        index,
        relationship,
        &mut scratch.words,
        &mut scratch.found,
        &mut scratch.path,
    )
}

/// The same, where a word for each entity may be one more than its depth; 0 says nothing. What is found is noted
/// there, for the entity and for its ancestors. So calls that share their words look at each ancestor once.
///
/// It goes through the ids of each of them of which nothing is known, twice.
pub fn known_depth<G: Graph, A: Allocator>(
    graph: &G,
    index: u32,
    relationship: u32,
    known: &mut [u32],
    scratch: &mut Scratch<A>,
) -> u32
    requires words { G.size graph.now ≤ length known.old }
    requires covered { G.size graph.now ≤ scratch.old.size }
    requires inside { index < G.size graph.now }
    requires acyclic { IsAcyclic (G.ids graph.now) relationship }
    requires known { AreNumbers (depth_in (G.ids graph.now) (G.entities graph.now) relationship) known.old }
    ensures size { scratch.new.size ≡ scratch.old.size }
    ensures length { length known.new ≡ length known.old }
    ensures known { AreNumbers (depth_in (G.ids graph.now) (G.entities graph.now) relationship) known.new }
    ensures depth { result ≡ depth_in (G.ids graph.now) (G.entities graph.now) relationship index }
{
    noted_depth(
        graph,
        index,
        relationship,
        known,
        &mut scratch.found,
        &mut scratch.path,
    )
}

/// Finds the entity, and all entities that fall with it when it is deleted.
///
/// It goes through what mentions each of them.
pub fn deleted<G: Holders, A: Allocator>(graph: &G, index: u32, scratch: &mut Scratch<A>)
    requires covered { G.size graph.now ≤ scratch.old.size }
    requires inside { index < scratch.old.size }
    ensures size { scratch.new.size ≡ scratch.old.size }
    ensures least { (y : ℕ) → Contains scratch.new.found y ↔ Reached
        (falling (G.ids graph.now) (G.entities graph.now)) index y }
{
    find_falling(graph, index, &mut scratch.found);
}

/// Finds who refers to what was found: the entities outside that hold an id which mentions one of the found.
///
/// After `deleted` these are the ones that lose ids with the deleted entities. It goes through what mentions each of
/// the found.
pub fn find_referrers<G: Holders, A: Allocator>(graph: &G, scratch: &mut Scratch<A>)
    requires covered { G.size graph.now ≤ scratch.old.size }
    ensures same { scratch.new ≡ record scratch.old { referrers = scratch.new.referrers } }
    ensures exact { (y : ℕ) → Contains scratch.new.referrers y ↔ Contains
        (referrers (G.ids graph.now) (G.entities graph.now) scratch.old.found) y }
{
    list_referrers(graph, &scratch.found, &mut scratch.referring);
}

/// Whether a cleanup rule forbids the deletion of what was found: an entity outside is the source of a pair with one of
/// them as target, whose relationship has (OnDeleteTarget,Panic), or uses one of them that has (OnDelete,Panic).
///
/// It goes through the ids of those that refer to them, once `find_referrers` has found these.
pub fn deletion_is_forbidden<G: Graph, A: Allocator>(graph: &G, scratch: &Scratch<A>) -> bool
    requires covered { G.size graph.now ≤ scratch.now.size }
    requires referrers { (y : ℕ) → Contains scratch.now.referrers y
        ↔ Contains (referrers (G.ids graph.now) (G.entities graph.now) scratch.now.found) y }
    ensures { result ≡ is_forbidden (G.ids graph.now) (G.entities graph.now) scratch.now.found }
{
    has_forbidder(graph, &scratch.found, scratch.referring.as_slice())
}
