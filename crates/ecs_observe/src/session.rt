//! A session and its parts.

ghost use Rattle.std.specs.Prelude.{◌≡◌, ℕ, All, IfOk, List, Ok, is_some};
ghost use Rattle.ecs_model.specs.stored.Session.{first_session, kept_query};
ghost use Rattle.ecs_observe.specs.Lists.{HasItsList};
ghost use Rattle.ecs_observe.specs.Standing.{IsSession, session_of};
ghost use Rattle.query_meaning.specs.Standing.{IsCurrentIn};
ghost use Rattle.query_model.specs.Query.{Query};

use crate::queries::StoredQueries;
use ecs_world::{Changes, World};
use std::alloc::{AllocError, Allocator, Global};
use std::hash::RandomState;
use std::marker::Model;
use watch_stored::Report;

/// A world, its stored queries, and the changes that they are still to be notified of.
pub struct Session<A: Allocator = Global> {
    pub(crate) world: World<A>,
    pub(crate) stored: StoredQueries<A>,
    /// The changes of the last accepted command, until their events are delivered. None unless a stored query is a
    /// monitor or an observer.
    pub(crate) waiting: Option<Changes<A>>,
    /// How often all rows of a monitor were found.
    pub(crate) compared: u64,
    /// Room for what stored queries report, used for one command after another.
    pub(crate) report: Report<A>,
    pub(crate) alloc: A,
}

// Written by hand, so that it is proved once here that all parts can be dropped.
impl<A: Allocator> Drop for Session<A> {
    fn drop(self) {
        let Self {
            world: _,
            stored: _,
            waiting: _,
            compared: _,
            report: _,
            alloc: _,
        } = self;
    }
}

impl<A: Allocator> Model for Session<A> {
    ghost use Rattle.std.specs.Prelude.{map};
    ghost use Rattle.ecs_observe.specs.Standing.{IsSession, Standing};
    ghost use Rattle.ecs_observe.specs.Lists.{HaveLists};
    ghost use Rattle.ecs_observe.specs.Parts.{held_of};
    ghost use Rattle.ecs_observe.specs.Stored.{IsStored, entries_of};

    ghost Value = { Standing };

    ghost view = { λ s. record {
      world = s.world;
      stored = map held_of (entries_of s.stored);
      waiting = s.waiting;
      compared = s.compared;
    } };

    ghost invariant = { λ s. IsSession (record {
      world = s.world;
      stored = map held_of (entries_of s.stored);
      waiting = s.waiting;
      compared = s.compared;
    }) × HaveLists (s.world).tables (entries_of s.stored) × IsStored s.stored };
}

impl<A: Allocator + Copy> Session<A> {
    /// A session of a new world, in which no query is stored.
    ///
    /// Names, ids and tables are hashed with these random keys, so that nobody can choose names that make look-ups
    /// slow. Fails where memory is refused.
    pub fn new(alloc: A, random: RandomState) -> Result<Self, AllocError>
        ensures first { IfOk result (λ s. session_of s ≡ first_session) }
        ensures compared { IfOk result (λ s. s.compared ≡ 0) }
    {
        let Ok(world) = World::new(alloc, random) else {
            return Err(AllocError);
        };
        Ok(Session {
            world,
            stored: StoredQueries::new(alloc, random),
            waiting: None,
            compared: 0,
            report: Report::new(alloc),
            alloc,
        })
    }

    /// Where its memory comes from.
    pub(crate) fn alloc(&self) -> A {
        self.alloc
    }
}

impl<A: Allocator> Session<A> {
    /// Law: what every session keeps. Its stored queries are current in its world, so their rows can be found; each
    /// kept query has a list that fits the tables of the world, and no other stored query has one. The call does
    /// nothing.
    pub fn keeps(&self)
        ensures session { IsSession self.now }
        ensures lists { All (HasItsList (self.now).world.tables) (self.now).stored }
        ensures current { (n : List ℕ) (q : Query) → kept_query (session_of self.now) n ≡ Ok q
            → IsCurrentIn (self.now).world.state q }
    {
        let _ = &self.compared;
    }

    /// The world, as the last accepted command left it.
    pub fn world(&self) -> &World<A>
        ensures { result.now ≡ (self.now).world }
    {
        &self.world
    }

    /// How often monitors were evaluated so far: how often all rows of one were found. It never falls, and at its
    /// greatest number it stays.
    ///
    /// A monitor is evaluated when it is stored, and after each command that concerns its query, unless only a few
    /// candidates may have entered or left its rows: then these alone are judged. A monitor of a local query is never
    /// evaluated: its events follow from the entities that a command touched.
    pub fn compared(&self) -> u64
        ensures { result ≡ (self.now).compared }
    {
        self.compared
    }

    /// Whether events wait to be delivered.
    pub fn has_events(&self) -> bool
        ensures { result ≡ is_some (self.now).waiting }
    {
        self.waiting.is_some()
    }
}
