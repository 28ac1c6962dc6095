//! Where `cascade` stands in a query.

ghost use Rattle.std.specs.Prelude.{◌≡◌, map, length, option_map, option_to_list, IfOk};
ghost use Rattle.query_check.specs.Places.{places_of};
ghost use Rattle.query_check.specs.Seen.{seen_cascading};
ghost use Rattle.query_model.specs.Cascades.{cascades, cascading_in, is_misplaced, is_this_source};
ghost use Rattle.query_model.specs.Seen.{seen_part, seen_reference};

use crate::places::PartPlace;
use crate::scope::{THIS, is_variable};
use query_model::Span;
use query_model::syntax::{Flags, Part, Reference, Rise, RiseWord, TermSyntax};
use std::alloc::{AllocError, Allocator};

/// A term with `cascade`.
#[derive(Clone, Copy)]
pub(crate) struct Cascading<'a> {
    /// In how many levels besides the whole query it stands.
    pub(crate) levels: usize,
    pub(crate) source: Option<Reference<'a>>,
    /// The relationship after the word.
    pub(crate) along: Option<Reference<'a>>,
    /// Of the word.
    pub(crate) span: Span,
}

/// The terms with `cascade`, in the order of the text.
pub(crate) fn cascades<'a, A: Allocator>(
    alloc: A,
    parts: &[Part<'a>],
    places: &[PartPlace],
) -> Result<Vec<Cascading<'a>, A>, AllocError>
    requires places { places.now ≡ places_of (map seen_part parts.now) }
    requires length { length places.now ≡ length parts.now }
    ensures { IfOk result (λ found. map seen_cascading found.items ≡ cascades (map seen_part parts.now)) }
{
    let mut found = Vec::new(alloc);
    for (i, part) in parts.iter().enumerate() {
        if let Some(cascading) = cascading_in(places[i].depth, part) {
            found.push(cascading)?;
        }
    }
    Ok(found)
}

/// The term with `cascade` that a part is, where it stands in so many levels.
fn cascading_in<'a>(levels: usize, part: &Part<'a>) -> Option<Cascading<'a>>
    ensures { option_to_list (option_map seen_cascading result) ≡ cascading_in levels (seen_part part.now) }
{
    match part {
        Part::Term(
            _,
            TermSyntax {
                source,
                flags: Some(
                    Flags {
                        rise: Rise::Up(RiseWord::Cascade(span), along),
                        ..
                    },
                ),
                ..
            },
        ) => Some(Cascading {
            levels,
            source: *source,
            along: *along,
            span: *span,
        }),
        _ => None,
    }
}

/// Whether it stands in a group or is a Not term, or has another source than `$this`.
pub(crate) fn is_misplaced(cascading: &Cascading<'_>) -> bool
    ensures { result ≡ is_misplaced (seen_cascading cascading.now) }
{
    cascading.levels > 0 || !is_this_source(&cascading.source)
}

/// Whether a source is `$this`, written or understood.
fn is_this_source(source: &Option<Reference<'_>>) -> bool
    ensures { result ≡ is_this_source (option_map seen_reference source.now) }
{
    source.is_none_or(|reference| is_variable(&reference, THIS))
}
