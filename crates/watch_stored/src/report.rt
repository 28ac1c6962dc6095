//! The changes of a command, the stored query that is notified, and the report that its events go to.

ghost use Rattle.std.specs.Prelude.{◌≡◌, []};

use crate::moves::RowsAfter;
use crate::stored::StoredQuery;
use asking_room::AskingRoom;
use ecs_world::{Changes, World};
use std::alloc::Allocator;
use std::mem;
use watch_events::Event;

/// An accepted command: the world after it, and its changes.
#[derive(Clone, Copy)]
pub struct Effect<'c, A: Allocator> {
    pub world: &'c World<A>,
    pub changes: &'c Changes<A>,
}

/// A stored query that is notified of a command, with its name, and its place among the stored queries.
#[derive(Clone, Copy)]
pub struct Listener<'q, A: Allocator> {
    pub place: usize,
    pub name: &'q String<A>,
    pub query: &'q StoredQuery<A>,
}

/// What searches for the rows of monitors use, one monitor after another.
#[derive(Drop)]
pub struct Searches<A: Allocator> {
    pub(crate) alloc: A,
    /// Room for the searches.
    pub(crate) room: AskingRoom<A>,
    /// How often all rows of a monitor were found.
    pub compared: u64,
}

/// The report of the stored queries on one command. Its room is used again for the next command.
pub struct Report<A: Allocator> {
    /// The events, in order.
    pub events: Vec<Event<A>, A>,
    /// The changed rows of monitors, each with the place of its stored query.
    pub rows: Vec<(usize, RowsAfter<A>), A>,
    /// The searches by which these rows are found.
    pub searches: Searches<A>,
}

impl<A: Allocator> Drop for Report<A> {
    fn drop(self) {
        let Self {
            events: _,
            rows: _,
            searches: _,
        } = self;
    }
}

impl<A: Allocator + Copy> Report<A> {
    /// An empty report. It takes no memory.
    pub fn new(alloc: A) -> Self {
        let searches = Searches {
            alloc,
            room: AskingRoom::new(alloc),
            compared: 0,
        };
        Report {
            events: Vec::new(alloc),
            rows: Vec::new(alloc),
            searches,
        }
    }

    /// Empties the report for another command; `compared` is how often all rows of a monitor were found so far.
    #[inline(always)]
    pub fn begin(&mut self, compared: u64)
        ensures events { (self.new).events.items ≡ [] }
        ensures rows { (self.new).rows.items ≡ [] }
        ensures compared { (self.new).searches.compared ≡ compared }
    {
        self.events.clear();
        self.rows.clear();
        self.searches.compared = compared;
    }

    /// Takes the events out, with the room that they are in.
    #[inline(always)]
    pub fn take_events(&mut self) -> Vec<Event<A>, A>
        ensures { result ≡ (self.old).events }
    {
        mem::replace(&mut self.events, Vec::new(self.searches.alloc))
    }
}
