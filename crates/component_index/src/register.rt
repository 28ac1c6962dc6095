//! Which tables are entered, with their ids: what proofs say of the index.
ghost use Rattle.std.specs.Prelude.{◌≡◌};
ghost use Rattle.std.specs.Borrow.{ftrue};
ghost use Rattle.std.specs.Coded.{coded_list};
ghost use Rattle.std.specs.FinMap as finite;
ghost use Rattle.ecs_id.specs.Id.{id_code};
ghost use Rattle.component_index.specs.Entered.{Entered, table_code};

use ecs_id::{Id, TableKey};
use std::marker::Model;

/// The tables that are entered, which exist only in proofs. It takes no memory, and its methods do nothing.
#[derive(Drop)]
pub struct Register {
    ghost tables: { Entered } by { finite.code table_code (coded_list id_code) },
}

impl Model for Register {
    ghost also_owns = { λ _. ftrue };
}

/// What becomes of a table.
#[derive(Clone, Copy, Drop)]
pub enum Change<'a> {
    Enters(TableKey, &'a [Id]),
    Leaves(TableKey),
}

impl Register {
    ghost use Rattle.component_index.specs.Changed.{changed};

    pub fn new() -> Register
        ensures { result.tables ≡ finite.empty }
    {
        Register {}
    }

    #[inline(always)]
    pub fn after(&self, _change: &Change<'_>) -> Register
        ensures { result.tables ≡ changed self.now.tables _change.now }
    {
        Register {}
    }
}
