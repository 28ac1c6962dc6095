//! The items of a query by number.

ghost use Rattle.std.specs.Prelude.{◌≡◌, ◌<◌, ◌≤◌, [], map, length, IfOk};
ghost use Rattle.query_check.specs.Seen.{entry_of, seen_entry, seen_item, seen_piece};
ghost use Rattle.query_check.specs.Numbered.{is_shown_entry, item_kind, level_around, piece_or, places_from};

use crate::query::{Item, Piece};
use std::alloc::{AllocError, Allocator, Global};

/// An item or a group of a query, and the level in which it stands: 0 for the whole query, and `n + 1` for the group
/// with the number `n`.
#[derive(Clone, Copy)]
pub enum Entry<'q, A: Allocator = Global> {
    /// An item, in this level.
    Item(usize, &'q Item<A>),
    /// A negated group, in this level: whether it was written as one term, and the numbers of its own variables.
    Group(usize, bool, &'q [usize]),
}

impl<A: Allocator> Entry<'_, A> {
    /// Whether each row has a field for it: a term that must or may match, or alternatives, outside all groups.
    pub fn is_shown(&self) -> bool
        ensures { result ≡ is_shown_entry (seen_entry self.now) }
    {
        match self {
            Entry::Item(0, Item::And(_) | Item::Optional(_) | Item::Or(_)) => true,
            _ => false,
        }
    }
}

/// Of what kind an item is, where its piece needn't be looked at.
#[derive(Clone, Copy, Debug, PartialEq, Eq)]
pub enum EntryKind {
    Equality,
    Other,
    Group,
}

/// Where an item or a group stands: its level, its place among the pieces, and of what kind it is.
#[derive(Clone, Copy, Debug, PartialEq, Eq)]
pub struct Numbered {
    pub level: usize,
    pub piece: usize,
    pub kind: EntryKind,
}

/// The items and groups of a query's pieces, in the order of their numbers.
pub(crate) fn places_of_entries<A: Allocator + Copy>(
    alloc: A,
    pieces: &[Piece<A>],
) -> Result<Vec<Numbered, A>, AllocError>
    ensures { IfOk result (λ all. all.items ≡ places_from 0 0 [] (map seen_piece pieces.now)) }
{
    let mut all = Vec::with_capacity(alloc, pieces.len())?;
    let mut level = 0;
    for (i, piece) in pieces.iter().enumerate() {
        match piece {
            Piece::Item(item) => {
                let kind = kind_of(item);
                all.push(Numbered {
                    level,
                    piece: i,
                    kind,
                })?;
            }
            Piece::Opening(_, _) => {
                all.push(Numbered {
                    level,
                    piece: i,
                    kind: EntryKind::Group,
                })?;
                level = all.as_slice().len();
            }
            Piece::Closing => level = around(all.as_slice(), level),
        }
    }
    Ok(all)
}

/// Of what kind an item is that is no group.
fn kind_of<A: Allocator>(item: &Item<A>) -> EntryKind
    ensures { result ≡ item_kind (seen_item item.now) }
{
    match item {
        Item::Equal(_, _) => EntryKind::Equality,
        _ => EntryKind::Other,
    }
}

/// The level around a level: that in which its group stands.
fn around(all: &[Numbered], level: usize) -> usize
    requires { level ≤ length all.now }
    ensures { result ≡ level_around all.now level }
{
    if level == 0 {
        return 0;
    }
    all[level - 1].level
}

/// The item or group that stands in a level.
pub(crate) fn entry_in<'q, A: Allocator>(level: usize, piece: Option<&'q Piece<A>>) -> Entry<'q, A>
    ensures { seen_entry result ≡ entry_of level (piece_or piece.entry) }
{
    match piece {
        Some(Piece::Item(item)) => Entry::Item(level, item),
        Some(Piece::Opening(from_term, own)) => Entry::Group(level, *from_term, own.as_slice()),
        _ => Entry::Group(level, false, &[]),
    }
}
