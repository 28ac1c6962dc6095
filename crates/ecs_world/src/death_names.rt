//! The names of entities that died.
ghost use Rattle.std.specs.Prelude.{◌≡◌, IfOk};

use crate::Memory;
use arrayvec::ArrayString;
use std::alloc::Allocator;
use std::marker::Model;

// A name of so many bytes takes no block of memory.
const SHORT: usize = 15;

#[derive(Drop)]
enum Kept<A: Allocator> {
    Short(ArrayString<SHORT>),
    Long(String<A>),
}

/// A copy of a name.
#[derive(Drop)]
pub(crate) struct DeathName<A: Allocator> {
    kept: Kept<A>,
}

impl<A: Allocator> Model for DeathName<A> {
    ghost use Rattle.std.specs.Prelude.{ℕ, List};
    ghost use Rattle.ecs_world.specs.DeathNames.{kept_name};

    ghost Value = { List ℕ };

    ghost view = { λ n. kept_name n.kept };
}

impl<A: Allocator + Copy> DeathName<A> {
    /// A copy of a text.
    pub(crate) fn copied(alloc: A, text: &str) -> Result<DeathName<A>, Memory>
        ensures { IfOk result (λ copy. copy ≡ text.now) }
    {
        if let Ok(short) = ArrayString::from(text) {
            return Ok(DeathName {
                kept: Kept::Short(short),
            });
        }
        match String::from_str(alloc, text) {
            Ok(long) => Ok(DeathName {
                kept: Kept::Long(long),
            }),
            Err(_) => Err(Memory),
        }
    }
}

impl<A: Allocator> DeathName<A> {
    pub(crate) fn as_str(&self) -> &str
        ensures { result.now ≡ self.now }
    {
        match &self.kept {
            Kept::Short(short) => short.as_str(),
            Kept::Long(long) => long.as_str(),
        }
    }
}
