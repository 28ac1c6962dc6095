//! A list of ids, of which a few stand in the value.
ghost use Rattle.std.specs.Prelude.{◌≡◌, IfOk};

use arrayvec::ArrayVec;
use ecs_id::Id;
use std::alloc::{AllocError, Allocator};
use std::marker::Model;

// So many ids take no block of their own.
const FEW: usize = 4;

#[derive(Drop)]
pub(crate) enum Kept<A: Allocator> {
    Few(ArrayVec<Id, FEW>),
    Many(Vec<Id, A>),
}

/// Ids that stay as they are. Few of them take no memory beside the value.
#[derive(Drop)]
pub(crate) struct IdList<A: Allocator> {
    pub(crate) kept: Kept<A>,
}

impl<A: Allocator> Model for IdList<A> {
    ghost use Rattle.std.specs.Prelude.{List};
    ghost use Rattle.ecs_id.specs.Id.{Id};
    ghost use Rattle.ecs_table.specs.IdList.{kept_ids};

    ghost Value = { List Id };

    ghost view = { λ l. kept_ids l.kept };
}

impl<A: Allocator> IdList<A> {
    /// A list of these ids. Memory can be refused only where they are more than a few.
    pub(crate) fn from_slice(alloc: A, ids: &[Id]) -> Result<IdList<A>, AllocError>
        ensures items { IfOk result (λ list. list ≡ ids.now) }
    {
        if ids.len() <= FEW {
            let mut few = ArrayVec::new();
            if few.try_extend_from_slice(ids).is_ok() {
                return Ok(IdList {
                    kept: Kept::Few(few),
                });
            }
        }
        Ok(IdList {
            kept: Kept::Many(Vec::from_slice(alloc, ids)?),
        })
    }

    pub(crate) fn as_slice(&self) -> &[Id]
        ensures { result.now ≡ self.now }
    {
        match &self.kept {
            Kept::Few(few) => few.as_slice(),
            Kept::Many(many) => many.as_slice(),
        }
    }
}
