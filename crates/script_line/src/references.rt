//! Entities and ids as lines name them.
ghost use Rattle.std.specs.Prelude.{◌≡◌, IfSome, Some, option_map, false};
ghost use Rattle.std.specs.List.{list_any, position_or_len};
ghost use Rattle.ecs_model.specs.Text.{trim_front};
ghost use Rattle.ecs_model.specs.Script.{handle_of, id_and_rest, pair_and_rest, pair_in, reference_of};
ghost use Rattle.ecs_model.specs.Orders.{plain_of};
ghost use Rattle.ecs_model.specs.References.{seen_id, seen_reference};
ghost use Rattle.script_line.specs.Line.{ends_reference, seen_handle, seen_id_and_rest, seen_reference_and_rest};
ghost use Rattle.script_line.specs.Line.{word_read};

use crate::blanks::{is_apart, is_blank, trim_front, trimmed};
use crate::decimals::number_within;
use ecs_id::EntityId;
use ecs_model::references::{IdReference, Reference};

/// How many digits the index of a handle may have.
const INDEX_DIGITS: usize = 9;

/// How many digits the generation of a handle may have.
const GENERATION_DIGITS: usize = 5;

/// Reads a reference to an entity: a name, or a handle where it begins with `#`.
pub(crate) fn reference_of(word: &str) -> Option<Reference<'_>>
    ensures { option_map seen_reference result ≡ reference_of word.now }
{
    if ends_within(word.as_bytes()) {
        return None;
    }
    whole_reference(word)
}

/// Reads the first word of a text that begins with it as a reference, and what stands after it.
// The text is gone over once: the first byte that ends a reference has to end the word too.
#[inline(always)]
pub(crate) fn reference_and_rest(text: &str) -> Option<(Reference<'_>, &str)>
    ensures { option_map seen_reference_and_rest result ≡ word_read reference_of text.now }
{
    let (word, behind) = text.split_at(reference_len(text.as_bytes()));
    if !is_apart(behind) {
        return None;
    }
    Some((whole_reference(word)?, behind))
}

/// Reads a reference of bytes that may all stand in one.
#[inline(always)]
fn whole_reference(word: &str) -> Option<Reference<'_>>
    requires { list_any ends_reference word.now ≡ false }
    ensures { option_map seen_reference result ≡ reference_of word.now }
{
    if word.is_empty() {
        return None;
    }
    if word.as_bytes()[0] == b'#' {
        return Some(Reference::Handle(handle_of(&word[1..])?));
    }
    Some(Reference::Name(word))
}

/// How many bytes stand before the first one that stands in no reference.
fn reference_len(bytes: &[u8]) -> usize
    ensures { result ≡ position_or_len ends_reference bytes.now }
{
    bytes.iter().take_while(|b| !ends_reference(**b)).count()
}

/// Whether some byte stands in no reference.
fn ends_within(bytes: &[u8]) -> bool
    ensures { result ≡ list_any ends_reference bytes.now }
{
    bytes.iter().any(|b| ends_reference(*b))
}

/// Whether a byte stands in no reference.
fn ends_reference(byte: u8) -> bool
    ensures { result ≡ ends_reference byte }
{
    byte <= b',' && (is_blank(byte) || byte == b'(' || byte == b')' || byte == b',')
}

/// Reads a handle after its `#`: an index of 1 to 9 digits, one `.`, and a generation of 1 to 5 digits, at most
/// 65,535.
#[cold]
#[inline(never)]
fn handle_of(text: &str) -> Option<EntityId>
    ensures { option_map seen_handle result ≡ handle_of text.now }
{
    let (index, generation) = text.split_once('.')?;
    let index = number_within(index.as_bytes(), INDEX_DIGITS)?;
    let generation = number_within(generation.as_bytes(), GENERATION_DIGITS)?;
    if generation > u128::from(u16::MAX) {
        return None;
    }
    Some(EntityId {
        index: index as u32,
        generation: generation as u16,
    })
}

/// Reads an id at the beginning of a text, and what stands after it.
#[inline(always)]
pub(crate) fn id_and_rest(text: &str) -> Option<(IdReference<'_>, &str)>
    ensures { option_map seen_id_and_rest result ≡ id_and_rest (trim_front text.now) }
{
    let text = trim_front(text);
    match text.strip_prefix('(') {
        Some(pair) => pair_and_rest(pair),
        None => plain_and_rest(text),
    }
}

/// Reads a pair after its `(`, and what stands after its `)`: nothing, or a blank first.
// Most pairs have no blanks.
#[inline(always)]
fn pair_and_rest(text: &str) -> Option<(IdReference<'_>, &str)>
    ensures { option_map seen_id_and_rest result ≡ pair_and_rest text.now }
{
    match close_pair_and_rest(text) {
        Some(read) => Some(read),
        None => any_pair_and_rest(text),
    }
}

/// Reads a pair without blanks after its `(`, and what stands after its `)`. None where there is no such pair: it may
/// be one with blanks.
// The text is gone over once.
#[inline(always)]
fn close_pair_and_rest(text: &str) -> Option<(IdReference<'_>, &str)>
    ensures { IfSome result (λ read. Some (seen_id_and_rest read) ≡ pair_and_rest text.now) }
{
    let (relationship, behind) = text.split_at(reference_len(text.as_bytes()));
    let behind = behind.strip_prefix(',')?;
    let (target, behind) = behind.split_at(reference_len(behind.as_bytes()));
    let rest = behind.strip_prefix(')')?;
    if !is_apart(rest) {
        return None;
    }
    let relationship = whole_reference(relationship)?;
    let target = whole_reference(target)?;
    Some((
        IdReference::Pair {
            relationship,
            target,
        },
        rest,
    ))
}

/// Reads a pair after its `(`, and what stands after its `)`, whether there are blanks in it or not.
#[cold]
#[inline(never)]
fn any_pair_and_rest(text: &str) -> Option<(IdReference<'_>, &str)>
    ensures { option_map seen_id_and_rest result ≡ pair_and_rest text.now }
{
    let (inside, rest) = text.split_once(')')?;
    if !is_apart(rest) {
        return None;
    }
    Some((pair_in(inside)?, rest))
}

/// Reads what stands between the brackets of a pair: two references with one `,` between, and blanks around each.
fn pair_in(text: &str) -> Option<IdReference<'_>>
    ensures { option_map seen_id result ≡ pair_in text.now }
{
    let (relationship, target) = text.split_once(',')?;
    Some(IdReference::Pair {
        relationship: reference_of(trimmed(relationship))?,
        target: reference_of(trimmed(target))?,
    })
}

/// Reads the first word of a text that begins with it as an id, and what stands after it.
#[inline(always)]
fn plain_and_rest(text: &str) -> Option<(IdReference<'_>, &str)>
    ensures { option_map seen_id_and_rest result ≡ option_map (λ r. (plain_of r.0, r.1))
        (word_read reference_of text.now) }
{
    let (reference, rest) = reference_and_rest(text)?;
    Some((IdReference::Plain(reference), rest))
}
