//! A world as queries see it.

ghost use Rattle.std.specs.Prelude.{◌≡◌};

use ecs_world::World;
use std::alloc::Allocator;
use std::marker::Model;
use world_facts::WorldFacts;

/// A world as queries see it, for as long as it is borrowed: it stays as it is while rows are read. It takes no memory.
#[derive(Drop)]
pub struct WorldView<'w, W: Allocator> {
    world: &'w World<W>,
    facts: WorldFacts<'w, W>,
}

impl<'w, W: Allocator> Model for WorldView<'w, W> {
    ghost use Rattle.std.specs.Prelude.{◌≡◌};
    ghost use Rattle.world_facts.specs.Shown.{Shown};

    ghost Value = { Shown };

    ghost view = { λ v. v.facts };

    ghost invariant = { λ v. (v.facts).world ≡ v.world.now };
}

impl<'w, W: Allocator> WorldView<'w, W> {
    /// A world as it is.
    pub fn new(world: &'w World<W>) -> Self
        ensures { result.world ≡ world.now }
    {
        let facts = WorldFacts::new(world);
        WorldView { world, facts }
    }

    /// The world.
    pub fn world(&self) -> &'w World<W>
        ensures { result.now ≡ (self.now).world }
    {
        self.world
    }

    /// What a run reads of it.
    pub(crate) fn facts(&self) -> &WorldFacts<'w, W>
        ensures { result.now ≡ self.now }
    {
        &self.facts
    }
}
