//! The lists of tables, for reading.
ghost use Rattle.std.specs.Prelude.{◌≡◌};
ghost use Rattle.std.specs.List.{IsDistinct};
ghost use Rattle.ecs_id.specs.TableKeys.{table_eq};
ghost use Rattle.component_index.specs.Listings.{listed_in, lists_of};
ghost use Rattle.component_index.specs.Mentions.{MayBeListed};

use crate::lists::Lists;
use crate::mentions::{Marks, may_match};
use ecs_id::ListedKey;
use id_pattern::Pattern;
use std::alloc::Allocator;
use std::marker::Model;

/// For each pattern the tables that are listed for it, in an order that stays while the index stays.
#[derive(Drop)]
pub struct Listings<'a, A: Allocator> {
    lists: &'a Lists<A>,
    mentioned: &'a Marks<A>,
}

impl<'a, A: Allocator> Model for Listings<'a, A> {
    ghost use Rattle.component_index.specs.Listings.{Lists as Listed, lists_of};
    ghost use Rattle.component_index.specs.Mentions.{MayBeListed};

    ghost Value = { Listed };

    ghost view = { λ l. lists_of l.lists.now };

    ghost invariant = { λ l. MayBeListed l.mentioned.now.items l.lists.now };
}

impl<'a, A: Allocator> Listings<'a, A> {
    pub(crate) fn new(lists: &'a Lists<A>, mentioned: &'a Marks<A>) -> Self
        requires { MayBeListed mentioned.now.items lists.now }
        ensures { result ≡ lists_of lists.now }
    {
        Listings { lists, mentioned }
    }

    /// The tables that are listed for a pattern, each once.
    pub fn tables_of(&self, pattern: Pattern) -> &'a [ListedKey]
        ensures listed { result.now ≡ listed_in self.now pattern }
        ensures once { IsDistinct table_eq result.now }
    {
        if !may_match(self.mentioned.as_slice(), pattern) {
            return &[];
        }
        match self.lists.get(&pattern) {
            Some(list) => list.as_slice(),
            None => &[],
        }
    }
}
