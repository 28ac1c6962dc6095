//! The classes of a query: anchored, tied, linked. They are found once for a query and used at each command.

ghost use Rattle.std.specs.Prelude.{◌≡◌};
ghost use Rattle.watch_touched.specs.Bonds.{bonds_of};

use query_check::Query;
use std::alloc::Allocator;
use watch_concerns::{is_anchored, is_linked, is_tied};

/// The classes of a query, which depend on the query alone.
#[derive(Clone, Copy)]
pub struct Bonds {
    /// Whether the query is anchored: creating or deleting an entity without adding or removing a fact changes no row.
    pub anchored: bool,
    /// Whether the query is tied: if a fact of another entity changes, only the holders of a pair with that entity as
    /// the target may enter or leave the rows, and the entities below it.
    pub tied: bool,
    /// Whether the query is linked: if a fact of another entity changes, only the entities from which the query's terms
    /// lead to that entity, by one pair after another, may enter or leave the rows, and the entities below it.
    pub linked: bool,
}

impl Bonds {
    /// Finds the classes of a query.
    ///
    /// It takes no memory. Its time grows at most with the square of the number of pieces of the query.
    pub fn of<A: Allocator>(query: &Query<A>) -> Bonds
        ensures { result ≡ bonds_of query.now }
    {
        Bonds {
            anchored: is_anchored(query),
            tied: is_tied(query),
            linked: is_linked(query),
        }
    }
}
