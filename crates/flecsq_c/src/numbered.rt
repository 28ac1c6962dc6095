//! A query that is asked by its number.
ghost use Rattle.std.specs.Prelude.{◌≡◌, ◌↔◌, IfOk, IsTrue};
ghost use Rattle.query_meaning.specs.Standing.{IsCurrentIn};
ghost use Rattle.flecsq_c.specs.Matches.{TellsMatch};

use ecs_id::EntityId;
use ecs_world::World;
use query_check::Query;
use std::alloc::{AllocError, Global};
use std::marker::Model;
use world_rows::{MatchError, Matcher, WorldView};

/// A query, and what asks it of entities. It is one pointer, so that little stays of a query that was dropped.
#[derive(Drop)]
pub(crate) struct Numbered {
    matcher: Box<Matcher<Global>, Global>,
}

impl Model for Numbered {
    ghost use Rattle.query_model.specs.Query as meaning;

    ghost Value = { meaning.Query };

    ghost view = { λ n. n.matcher.value };
}

impl Numbered {
    pub(crate) fn new(alloc: Global, matcher: Matcher<Global>) -> Result<Numbered, AllocError>
        ensures { IfOk result (λ numbered. numbered ≡ matcher) }
    {
        let matcher = Box::new(alloc, matcher)?;
        Ok(Numbered { matcher })
    }

    pub(crate) fn query(&self) -> &Query<Global>
        ensures { result.now ≡ self.now }
    {
        self.matcher.query()
    }

    /// Whether all that it names is as it was when it was read.
    pub(crate) fn is_current(&self, world: &World<Global>) -> bool
        ensures { IsTrue result ↔ IsCurrentIn world.now.state self.now }
    {
        self.matcher.is_current(&WorldView::new(world))
    }

    /// Whether an entity is `$this` of a row.
    pub(crate) fn matches(
        &mut self,
        alloc: Global,
        world: &World<Global>,
        entity: EntityId,
    ) -> Result<bool, MatchError>
        requires { IsCurrentIn world.now.state self.old }
        ensures told { TellsMatch world.now.state self.old entity result }
        ensures kept { self.new ≡ self.old }
    {
        self.matcher.matches(alloc, &WorldView::new(world), entity)
    }
}
