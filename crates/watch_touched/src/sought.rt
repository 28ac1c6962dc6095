//! Which holders of a pair with an entity a search looks for.

ghost use Rattle.std.specs.Prelude.{◌≡◌};
ghost use Rattle.watch_touched.specs.Leaning.{is_sought};

use ecs_id::Id;
use std::alloc::Allocator;
use watch_asked::AskedQuery;

/// Which holders of a pair with an entity a search looks for.
#[derive(Clone, Copy, Drop)]
pub(crate) enum Sought {
    /// Candidates: the pair concerns the query, and the holder has every id that the query requires on `$this` itself.
    Moving,
    /// Entities below: the pair concerns the query for other entities, or for entities below.
    Below,
}

/// Whether a holder of these ids is looked for, by this pair among them.
#[inline(always)]
pub(crate) fn is_sought<B: Allocator>(
    query: &AskedQuery<'_, B>,
    sought: Sought,
    ids: &[Id],
    id: Id,
) -> bool
    ensures { result ≡ is_sought sought query.now ids.now id }
{
    match sought {
        Sought::Moving => !query.lacks(ids) && query.concerns(id),
        Sought::Below => query.concerns_below(id) || query.concerns_others(id),
    }
}
