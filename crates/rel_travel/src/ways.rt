//! What is known of where a relationship leads, so that no search is made twice.
ghost use Rattle.std.specs.Prelude.{◌≡◌, ◌↔◌, ◌≤◌, ◌<◌, ℕ, max, true, IsTrue, OnErr, OnOk};
ghost use Rattle.ecs_model.specs.Links.{is_transitive, reaches as reaches_in, upward};
ghost use Rattle.ecs_model.specs.Reach.{Reached};
ghost use Rattle.rel_travel.specs.Holders.{holders_of_pair};
ghost use Rattle.rel_travel.specs.Ways.{AreWays, IsSought, nothing_known};

use crate::chains::reach_of;
use crate::graph::{Graph, Upward};
use crate::holders::{Downward, Holders};
use crate::scratch::{Scratch, reaches};
use crate::spread::Spread;
use crate::work_list::{Rule, go_on_until};
use id_pattern::{Part, Pattern};
use std::alloc::{AllocError, Allocator, Global};
use std::marker::Model;

/// A list is looked up in the time of so many steps.
const LOOK_UP: usize = 4;

/// How far the search from a target may go. It may take as many steps as those from sources took since the target is
/// the same.
#[derive(Clone, Copy)]
struct Pace {
    /// So many steps are left.
    left: usize,
    /// With fewer it isn't asked how many the next entity takes.
    wanted: usize,
}

/// What is known of where one relationship leads: to whom from the entity that was asked last, and from those before it
/// where that leads to no others; and from whom to the one that was asked last.
///
/// Room is made by `reserve`; the other calls take no memory.
pub struct Ways<A: Allocator = Global> {
    /// Whether the relationship is known to be transitive.
    is_transitive: bool,
    above: Spread<A>,
    below: Spread<A>,
    pace: Pace,
}

impl<A: Allocator> Drop for Ways<A> {
    #[inline(always)]
    fn drop(self) {
        let Self {
            is_transitive: _,
            above: _,
            below: _,
            pace: _,
        } = self;
    }
}

impl<A: Allocator> Model for Ways<A> {
    ghost use Rattle.std.specs.Prelude.{◌≤◌};
    ghost use Rattle.rel_travel.specs.Ways.{Known};

    ghost Value = { Known };

    ghost view = { λ w. record {
      size = w.below.found.size;
      is_transitive = w.is_transitive;
      above = record {
        start = w.above.start;
        is_alone = w.above.is_alone;
        found = w.above.found.items;
        done = w.above.done;
      };
      below = record {
        start = w.below.start;
        is_alone = w.below.is_alone;
        found = w.below.found.items;
        done = w.below.done;
      };
    } };

    ghost invariant = { λ w. w.below.found.size ≤ w.above.found.size };
}

impl<A: Allocator + Copy> Ways<A> {
    /// Nothing is known, and there is room for graphs of size 0 alone. It takes no memory.
    pub fn new(alloc: A) -> Self
        ensures { result ≡ nothing_known 0 }
    {
        Ways {
            is_transitive: false,
            above: Spread::new(alloc),
            below: Spread::new(alloc),
            pace: Pace { left: 0, wanted: 1 },
        }
    }

    /// Makes room for graphs of this size, where there is less.
    ///
    /// Where memory is refused, there is room for what there was before.
    pub fn reserve(&mut self, size: u32) -> Result<(), AllocError>
        ensures ok { OnOk result (self.new ≡ record self.old { size = max self.old.size size }) }
        ensures refused { OnErr result (self.new ≡ self.old) }
    {
        self.above.found.reserve(size)?;
        self.below.found.reserve(size)
    }
}

impl<A: Allocator> Ways<A> {
    /// Forgets all that is known, as of a graph that may have changed.
    pub fn forget(&mut self)
        ensures { self.new ≡ nothing_known self.old.size }
    {
        self.is_transitive = false;
        self.above.forget();
        self.below.forget();
    }

    /// Whether ways of a relationship can be known here: there is room for those of the graph, and the relationship is
    /// transitive. It is asked for its traits until it is.
    fn fit<G: Graph>(&mut self, graph: &G, relationship: u32) -> bool
        requires { AreWays (G.entities graph.now) (G.ids graph.now) relationship self.old }
        ensures ways { AreWays (G.entities graph.now) (G.ids graph.now) relationship self.new }
        ensures covered { result ≡ true → G.size graph.now ≤ self.new.size }
        ensures transitive { result ≡ true → IsTrue (is_transitive (G.ids graph.now) relationship) }
    {
        if self.below.found.size() < graph.size() as usize {
            return false;
        }
        if !self.is_transitive {
            self.is_transitive = reach_of(graph, relationship).is_transitive;
        }
        self.is_transitive
    }
}

/// Whether a relationship leads from one entity to another, where it may be known already. What is found is noted
/// there.
///
/// It goes on from where the search from this source ended, or from where one ended without this target. Where sources
/// lead there it takes as many steps from the target: so a source or a target that stays is searched from once. Where
/// there is no room for ways it searches each time.
pub fn known_reaches<G: Holders, A: Allocator, B: Allocator>(
    graph: &G,
    relationship: u32,
    source: u32,
    target: u32,
    ways: &mut Ways<B>,
    scratch: &mut Scratch<A>,
) -> bool
    requires covered { G.size graph.now ≤ scratch.old.size }
    requires source { source < G.size graph.now }
    requires target { target < G.size graph.now }
    requires ways { AreWays (G.entities graph.now) (G.ids graph.now) relationship ways.old }
    ensures size { scratch.new.size ≡ scratch.old.size }
    ensures ways { AreWays (G.entities graph.now) (G.ids graph.now) relationship ways.new }
    ensures answer { result ≡ reaches_in (G.ids graph.now) (G.entities graph.now) relationship source target }
{
    let _ = graph.size();
    if ways.fit(graph, relationship) && source != target {
        return leads_to_other(
            graph,
            relationship,
            source,
            target,
            &mut ways.above,
            &mut ways.below,
            &mut ways.pace,
        );
    }
    reaches(graph, relationship, source, target, scratch)
}

/// Whether chains of a relationship lead from one entity to another one.
fn leads_to_other<G: Holders, A: Allocator>(
    graph: &G,
    relationship: u32,
    source: u32,
    target: u32,
    above: &mut Spread<A>,
    below: &mut Spread<A>,
    pace: &mut Pace,
) -> bool
    requires covered { G.size graph.now ≤ below.old.found.size }
    requires wider { below.old.found.size ≤ above.old.found.size }
    requires source { source < G.size graph.now }
    requires target { target < G.size graph.now }
    requires above { IsSought (upward (G.ids graph.now) relationship) above.old.start above.old.is_alone
        above.old.found.items above.old.done }
    requires below { IsSought (λ x. holders_of_pair (G.entities graph.now) (G.ids graph.now) x relationship)
        below.old.start below.old.is_alone
        below.old.found.items below.old.done }
    ensures above_size { above.new.found.size ≡ above.old.found.size }
    ensures below_size { below.new.found.size ≡ below.old.found.size }
    ensures above { IsSought (upward (G.ids graph.now) relationship) above.new.start above.new.is_alone
        above.new.found.items above.new.done }
    ensures below { IsSought (λ x. holders_of_pair (G.entities graph.now) (G.ids graph.now) x relationship)
        below.new.start below.new.is_alone
        below.new.found.items below.new.done }
    ensures answer { IsTrue result ↔ Reached (upward (G.ids graph.now) relationship) source target }
{
    let _ = graph.size();
    if let Some(leads) = below.tells(target, source) {
        return leads;
    }
    above.seek(source, target);
    let before = above.done;
    let rule = Upward {
        graph,
        relationship,
    };
    let leads = go_on_until(&rule, target, &mut above.done, &mut above.found);
    if below.is_from(target) {
        pace.left = pace.left.saturating_add(above.done - before);
    }
    if leads {
        go_on_below(graph, relationship, target, below, pace);
    }
    leads
}

/// Goes on with who leads to a target. With another one than before it begins.
fn go_on_below<G: Holders, A: Allocator>(
    graph: &G,
    relationship: u32,
    target: u32,
    below: &mut Spread<A>,
    pace: &mut Pace,
)
    requires covered { G.size graph.now ≤ below.old.found.size }
    requires target { target < below.old.found.size }
    requires sought { IsSought (λ x. holders_of_pair (G.entities graph.now) (G.ids graph.now) x relationship)
        below.old.start below.old.is_alone
        below.old.found.items below.old.done }
    ensures size { below.new.found.size ≡ below.old.found.size }
    ensures sought { IsSought (λ x. holders_of_pair (G.entities graph.now) (G.ids graph.now) x relationship)
        below.new.start below.new.is_alone
        below.new.found.items below.new.done }
{
    let _ = graph.size();
    if !below.is_from(target) {
        below.begin(target);
        *pace = Pace { left: 0, wanted: 1 };
        return;
    }
    let rule = Downward {
        graph,
        relationship,
    };
    'turns: while pace.wanted <= pace.left && below.done < below.found.len() {
        let entity = below.found.at(below.done);
        let Some(left) = left_behind(graph, relationship, entity, pace.left) else {
            pace.wanted = pace.left.saturating_mul(2);
            return;
        };
        rule.follow(entity, &mut below.found);
        below.done += 1;
        pace.left = left;
    }
}

/// How many of so many steps are left after those that it takes to find the sources of an entity, or None where they
/// are too few.
fn left_behind<G: Holders>(
    graph: &G,
    relationship: u32,
    entity: u32,
    steps: usize,
) -> Option<usize> {
    let first = Part::Is(relationship);
    let second = Some(Part::Is(entity));
    let mut left = steps.checked_sub(LOOK_UP)?;
    for table in graph.tables_of(Pattern { first, second }) {
        let rows = graph.rows(*table).len();
        left = left.checked_sub(rows.saturating_add(1))?;
    }
    Some(left)
}
