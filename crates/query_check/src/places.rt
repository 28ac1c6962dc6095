//! Where the parts of a query stand.

ghost use Rattle.std.specs.Prelude.{◌≡◌, ◌+◌, ◌<◌, ◌≤◌, map, length, IfOk};
ghost use Rattle.query_check.specs.Places.{IsPlaceOf, IsRooted, IsTree, places_of};
ghost use Rattle.query_model.specs.Levels.{Path, path_behind, path_in};
ghost use Rattle.query_model.specs.Seen.{seen_part};

use query_model::syntax::{Part, Role};
use std::alloc::{AllocError, Allocator};

/// Where a part stands: in which level, which level is around that one, and in how many levels besides the whole query.
///
/// A level goes by the number of the part that begins it, counted from 1, and the whole query by 0.
#[derive(Clone, Copy)]
pub(crate) struct PartPlace {
    pub(crate) level: usize,
    pub(crate) outer: usize,
    pub(crate) depth: usize,
}

/// The places of a query's parts. A part that begins a level stands in it.
pub(crate) fn places<A: Allocator + Copy>(
    alloc: A,
    parts: &[Part<'_>],
) -> Result<Vec<PartPlace, A>, AllocError>
    ensures places { IfOk result (λ places. places.items ≡ places_of (map seen_part parts.now)) }
    ensures length { IfOk result (λ places. length places.items ≡ length parts.now) }
    ensures tree { IfOk result (λ places. IsTree places.items) }
{
    let mut places = Vec::with_capacity(alloc, parts.len())?;
    let mut around = PartPlace {
        level: 0,
        outer: 0,
        depth: 0,
    };
    for (i, part) in parts.iter().enumerate() {
        let place = place_in(i + 1, around, part);
        around = place_behind(places.as_slice(), around, place, part);
        places.push(place)?;
    }
    Ok(places)
}

/// Where a part with a number stands, if the parts before it end in this place.
fn place_in(number: usize, around: PartPlace, part: &Part<'_>) -> PartPlace
    requires { around.depth < number }
    ensures { (path : Path) → IsPlaceOf around path → IsPlaceOf result (path_in number path (seen_part part.now)) }
{
    match part {
        Part::Opened(_) | Part::Term(Role::Not, _) => PartPlace {
            level: number,
            outer: around.level,
            depth: around.depth + 1,
        },
        _ => around,
    }
}

/// Where the part after a part stands, unless it begins a level.
fn place_behind(
    places: &[PartPlace],
    around: PartPlace,
    place: PartPlace,
    part: &Part<'_>,
) -> PartPlace
    requires { around.outer ≤ length places.now }
    ensures { (path : Path) → IsPlaceOf around path → IsRooted places.now path
        → IsPlaceOf place (path_in (length places.now + 1) path (seen_part part.now))
        → IsPlaceOf result (path_behind (length places.now + 1) path (seen_part part.now)) }
{
    match part {
        Part::Opened(_) => place,
        Part::Closed => PartPlace {
            level: around.outer,
            outer: if around.outer == 0 {
                0
            } else {
                places[around.outer - 1].outer
            },
            depth: around.depth.saturating_sub(1),
        },
        _ => around,
    }
}
