//! What is read of all facts of one entity, which is looked up once.

ghost use Rattle.std.specs.Prelude.{◌≡◌, ◌<◌, Some, length, slice_get};
ghost use Rattle.ecs_id.specs.Id.{id_cmp};
ghost use Rattle.ecs_model.specs.Map.{value_at};
ghost use Rattle.table_store.specs.Rows.{cells_of};

use ecs_id::Id;
use ecs_table::Table;
use std::alloc::{Allocator, Global};
use std::marker::Model;

/// The facts of an entity: its ids in order, each with the bytes of its value.
#[derive(Drop)]
pub struct EntityFacts<'w, A: Allocator = Global> {
    table: &'w Table<A>,
    row: usize,
}

impl<'w, A: Allocator> Model for EntityFacts<'w, A> {
    ghost use Rattle.std.specs.Prelude.{◌<◌, length};
    ghost use Rattle.ecs_table.specs.Archetype.{Cells};
    ghost use Rattle.table_store.specs.Rows.{cells_of};

    ghost Value = { Cells };

    ghost view = { λ f. cells_of f.table.now f.row };

    ghost invariant = { λ f. f.row < length (f.table.now).entities };
}

impl<'w, A: Allocator> EntityFacts<'w, A> {
    pub(crate) fn new(table: &'w Table<A>, row: usize) -> EntityFacts<'w, A>
        requires { row < length table.now.entities }
        ensures { result ≡ cells_of table.now row }
    {
        EntityFacts { table, row }
    }

    /// How many facts there are.
    pub fn len(&self) -> usize
        ensures { result ≡ length self.now }
    {
        self.table.ids().len()
    }

    /// The id of a fact, and the bytes of its value: none where the id has no fields.
    pub fn at(&self, place: usize) -> (Id, &[u8])
        requires { place < length self.now }
        ensures here { slice_get self.now place ≡ Some (result.0, result.1.now) }
        ensures value { value_at id_cmp self.now result.0 ≡ Some result.1.now }
    {
        let id = self.table.ids()[place];
        match self.table.value(self.row, id) {
            Some(bytes) => (id, bytes),
            None => (id, &[]),
        }
    }
}
