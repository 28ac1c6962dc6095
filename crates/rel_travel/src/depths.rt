//! The depth of an entity along a relationship, and what is noted of others on the way.
ghost use Rattle.std.specs.Prelude.{◌≡◌, ◌≤◌, ◌<◌, ℕ, All, Contains, IfNone, IfSome, get_or, length, map, take};
ghost use Rattle.std.specs.Prelude.{vec_capacity};
ghost use Rattle.ecs_model.specs.Depth.{greatest};
ghost use Rattle.ecs_model.specs.Links.{IsAcyclic, depth, targets_in};
ghost use Rattle.rel_travel.specs.Words.{AreNoted, AreNumbers, IsNotedOf, NoneNoted};

use crate::found::Found;
use crate::graph::{Graph, target_under};
use crate::path::{Path, Step};
use ecs_id::Id;
use std::alloc::Allocator;

/// A pair of whose target nothing is known.
#[derive(Clone, Copy)]
struct Unknown {
    /// Of the pair among the ids of its source.
    place: usize,
    target: u32,
}

/// The first pair of a relationship of whose target nothing is known, where those of the ids before a place are known.
fn first_unknown(ids: &[Id], place: usize, relationship: u32, known: &[u32]) -> Option<Unknown>
    requires within { All (λ t. t < length known.now) (targets_in ids.now relationship) }
    requires before { AreNoted known.now (targets_in (take place ids.now) relationship) }
    ensures before { IfSome result (λ u. AreNoted known.now (targets_in (take u.place ids.now) relationship)) }
    ensures target { IfSome result (λ u. Contains (targets_in ids.now relationship) u.target) }
    ensures unknown { IfSome result (λ u. get_or known.now u.target 0 ≡ 0) }
    ensures none { IfNone result (AreNoted known.now (targets_in ids.now relationship)) }
{
    for place in place..ids.len() {
        if let Some(target) = target_under(ids[place], relationship) {
            if known[target as usize] == 0 {
                return Some(Unknown { place, target });
            }
        }
    }
    None
}

/// The greatest word of the targets of the pairs of a relationship.
fn greatest_word(ids: &[Id], relationship: u32, known: &[u32]) -> u32
    requires { All (λ t. t < length known.now) (targets_in ids.now relationship) }
    ensures { result ≡ greatest (map (λ t. get_or known.now t 0) (targets_in ids.now relationship)) }
{
    let mut most = 0;
    for id in ids {
        if let Some(target) = target_under(*id, relationship) {
            let word = known[target as usize];
            if word > most {
                most = word;
            }
        }
    }
    most
}

/// The depth of an entity, where a word for each may be one more than its depth. It notes there what it finds, and
/// lists of whom.
///
/// It goes through the ids of each entity of which nothing is known twice: once for a target of which nothing is known,
/// and once for the greatest word.
pub fn noted_depth<G: Graph, A: Allocator>(
    graph: &G,
    index: u32,
    relationship: u32,
    known: &mut [u32],
    found: &mut Found<A>,
    path: &mut Path<A>,
) -> u32
    requires words { G.size graph.now ≤ length known.old }
    requires covered { G.size graph.now ≤ found.old.size }
    requires room { G.size graph.now < path.old.room }
    requires inside { index < G.size graph.now }
    requires acyclic { IsAcyclic (G.ids graph.now) relationship }
    requires known { AreNumbers (depth (G.ids graph.now) (G.entities graph.now) relationship) known.old }
    ensures size { found.new.size ≡ found.old.size }
    ensures room { path.old.room ≤ path.new.room }
    ensures length { length known.new ≡ length known.old }
    ensures known { AreNumbers (depth (G.ids graph.now) (G.entities graph.now) relationship) known.new }
    ensures noted { NoneNoted known.old → IsNotedOf found.new.items known.new }
    ensures listed { NoneNoted known.old → (i : ℕ) → Contains found.new.items i → i < G.size graph.now }
    ensures depth { result ≡ depth (G.ids graph.now) (G.entities graph.now) relationship index }
{
    let _ = graph.size();
    if known[index as usize] != 0 {
        return known[index as usize] - 1;
    }
    found.clear();
    path.clear();
    path.push(Step { index, place: 0 });
    while let Some(step) = path.pop() {
        let ids = graph.ids(step.index);
        match first_unknown(ids, step.place, relationship, known) {
            Some(unknown) => {
                path.push(Step {
                    index: step.index,
                    place: unknown.place,
                });
                path.push(Step {
                    index: unknown.target,
                    place: 0,
                });
            }
            None => {
                let word = greatest_word(ids, relationship, known);
                known[step.index as usize] = word + 1;
                found.add(step.index);
            }
        }
    }
    known[index as usize] - 1
}

/// The depth of an entity, over words that are 0 before and after. There is room for a word for each entity.
///
/// Words are made where there are fewer. What is noted is taken back in time of what was found.
pub fn own_depth<G: Graph, A: Allocator>(
    graph: &G,
    index: u32,
    relationship: u32,
    words: &mut Vec<u32, A>,
    found: &mut Found<A>,
    path: &mut Path<A>,
) -> u32
    requires words { G.size graph.now ≤ vec_capacity words.old }
    requires none { NoneNoted words.old.items }
    requires covered { G.size graph.now ≤ found.old.size }
    requires room { G.size graph.now < path.old.room }
    requires inside { index < G.size graph.now }
    requires acyclic { IsAcyclic (G.ids graph.now) relationship }
    ensures words { vec_capacity words.old ≤ vec_capacity words.new }
    ensures none { NoneNoted words.new.items }
    ensures size { found.new.size ≡ found.old.size }
    ensures room { path.old.room ≤ path.new.room }
    ensures depth { result ≡ depth (G.ids graph.now) (G.entities graph.now) relationship index }
{
    make_words(words, graph.size() as usize);
    let known = words.as_mut_slice();
    let depth = noted_depth(graph, index, relationship, known, found, path);
    forget(found.as_slice(), known);
    depth
}

/// Makes a word for each index below the size. There is room for them.
fn make_words<A: Allocator>(words: &mut Vec<u32, A>, size: usize)
    requires room { size ≤ vec_capacity words.old }
    requires none { NoneNoted words.old.items }
    ensures capacity { vec_capacity words.old ≤ vec_capacity words.new }
    ensures covered { size ≤ length words.new.items }
    ensures none { NoneNoted words.new.items }
{
    if words.len() < size {
        words.resize(size, 0).unwrap();
    }
}

/// Sets the words back to 0 of those of whom something was noted.
fn forget(noted: &[u32], words: &mut [u32])
    requires within { (i : ℕ) → Contains noted.now i → i < length words.old }
    requires noted { IsNotedOf noted.now words.old }
    ensures { NoneNoted words.new }
{
    for index in noted {
        words[*index as usize] = 0;
    }
}
