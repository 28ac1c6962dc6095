//! The forms of lines.
ghost use Rattle.std.specs.Prelude.{◌≡◌, ◌<◌, ℕ, ℤ, List, drop, length, map, slice_index, IfOk, IfSome, None, Some};
ghost use Rattle.std.specs.Prelude.{option_map, if◌then◌else◌};
ghost use Rattle.ecs_model.specs.Text.{trim_front, words};
ghost use Rattle.ecs_model.specs.Script.{Form, AskKept, BadLine, CarryOut, Show, all_of, component_line, entity_line};
ghost use Rattle.ecs_model.specs.Script.{fact_line, field_of_word, form_or_bad};
ghost use Rattle.ecs_model.specs.Script.{nothing_more, on_line, one_word, says_nothing, set_line, store_line};
ghost use Rattle.ecs_model.specs.Script.{value_of_word};
ghost use Rattle.ecs_model.specs.Orders.{EntityRef, IdRef, AddTo, DeleteOne, MakeEntity, MakeFresh, RemoveFrom, SetIn};
ghost use Rattle.ecs_model.specs.stored.Session.{Drop, InWorld};
ghost use Rattle.script_line.specs.Line.{by_first_word, by_rarer_word, deed_form, deed_line, deed_words, form_opened};
ghost use Rattle.script_line.specs.Line.{seen, seen_deed, seen_field};
ghost use Rattle.ecs_model.specs.References.{seen_id, seen_reference};

use crate::blanks::{blanks_at_front, next_word, trim_front, trimmed, word_and_rest, word_start};
use crate::references::{id_and_rest, reference_and_rest, reference_of};
use crate::words::{event_of_word, field_of_word, value_and_rest};
use crate::{Deed, Fact, Line, Opening};
use ecs_model::Kind;
use ecs_model::references::Reference;
use ecs_model::watches::StoredKind;
use std::alloc::{AllocError, Allocator};

/// The fields of a component.
type Fields<'a, A> = Vec<(&'a str, Kind), A>;

/// Reads the first word of a line of text.
#[inline(always)]
#[tactic(auto, unfolding(ecs_model::specs::Script::forms))]
pub(crate) fn text_opened(text: &str) -> Opening<'_>
    ensures { form_opened result ≡ by_first_word text.now }
{
    if let Some(opening) = opened_at_once(text) {
        return opening;
    }
    opened_by_word(text)
}

/// Reads the first word of a line of text, wherever it stands.
#[cold]
#[inline(never)]
#[tactic(auto, unfolding(ecs_model::specs::Script::forms))]
fn opened_by_word(text: &str) -> Opening<'_>
    ensures { form_opened result ≡ by_first_word text.now }
{
    let (word, rest) = word_and_rest(text);
    match word {
        "set" => Opening::Set { rest },
        "add" => Opening::Add { rest },
        "entity" => Opening::Entity { rest },
        "remove" => Opening::Remove { rest },
        "rows" => Opening::Rows { rest },
        _ => Opening::Other { text },
    }
}

/// Reads the first word of a line that begins with it, before a space, if it is one that most lines begin with; and the
/// line `new`.
// A few bytes are compared at once then, and none is looked at twice.
#[inline(always)]
#[tactic(auto, unfolding(ecs_model::specs::Script::forms))]
fn opened_at_once(text: &str) -> Option<Opening<'_>>
    ensures { IfSome result (λ opening. form_opened opening ≡ by_first_word text.now) }
{
    match text.as_bytes() {
        [b's', b'e', b't', b' ', ..] => Some(Opening::Set {
            rest: behind(text, 3),
        }),
        [b'a', b'd', b'd', b' ', ..] => Some(Opening::Add {
            rest: behind(text, 3),
        }),
        _ => longer_opened_at_once(text),
    }
}

/// The same of the longer words, and of the line `new`.
#[inline(always)]
#[tactic(auto, unfolding(ecs_model::specs::Script::forms))]
fn longer_opened_at_once(text: &str) -> Option<Opening<'_>>
    ensures { IfSome result (λ opening. form_opened opening ≡ by_first_word text.now) }
{
    match text.as_bytes() {
        [b'e', b'n', b't', b'i', b't', b'y', b' ', ..] => {
            Some(Opening::Entity {
                rest: behind(text, 6),
            })
        }
        [b'r', b'e', b'm', b'o', b'v', b'e', b' ', ..] => {
            Some(Opening::Remove {
                rest: behind(text, 6),
            })
        }
        [b'd', b'e', b'l', b'e', b't', b'e', b' ', ..] => {
            Some(Opening::Delete {
                rest: behind(text, 6),
            })
        }
        [b'n', b'e', b'w'] => Some(Opening::New),
        _ => None,
    }
}

/// The text after so many bytes, where a space comes next.
#[inline(always)]
fn behind(text: &str, count: usize) -> &str
    requires within { count < length text.now }
    requires space { slice_index text.now count ≡ 32 }
    ensures { result.now ≡ drop count text.now }
{
    text.split_at(count).1
}

/// Whether a line is blank or a comment.
pub(crate) fn says_nothing(line: &[u8]) -> bool
    ensures { result ≡ says_nothing (trim_front line.now) }
{
    matches!(&line[blanks_at_front(line)..], [] | [b'/', b'/', ..])
}

/// Reads a line by its first word.
#[tactic(auto, unfolding(ecs_model::specs::Script::forms))]
pub(crate) fn read_form<'a, A: Allocator + Copy>(
    alloc: A,
    line: &'a str,
    values: &mut Vec<i128, A>,
) -> Result<Line<'a, A>, AllocError>
    ensures { IfOk result (λ l. seen values.new.items l ≡ by_first_word line.now) }
{
    let (word, rest) = word_and_rest(line);
    match word {
        "set" => set_line(rest, values),
        "add" => Ok(add_line(rest)),
        "entity" => Ok(entity_line(rest)),
        "component" => component_line(alloc, rest),
        _ => Ok(rarer_line(word, rest)),
    }
}

/// Reads a line by its first word, which is none of those that most lines begin with.
// The words are compared one after another. `rows` and `remove` come last: a line that was opened comes here with
// neither.
#[tactic(auto, unfolding(ecs_model::specs::Script::forms))]
fn rarer_line<'a, A: Allocator>(word: &str, rest: &'a str) -> Line<'a, A>
    ensures { (values : List ℤ) → seen values result ≡ by_rarer_word word.now rest.now }
{
    match word {
        "delete" => delete_line(rest),
        "new" => new_line(rest),
        "show" => show_line(rest),
        "query" => Line::Query {
            text: trimmed(rest),
        },
        "keep" => store_line(StoredKind::Kept, rest),
        "monitor" => store_line(StoredKind::Monitor, rest),
        "on" => on_line(rest),
        "drop" => drop_line(rest),
        "rows" => rows_line(rest),
        "remove" => remove_line(rest),
        _ => Line::Bad,
    }
}

/// Reads what stands after `new`: nothing.
fn new_line<'a, A: Allocator>(rest: &'a str) -> Line<'a, A>
    ensures { (values : List ℤ) → seen values result ≡ nothing_more (CarryOut (InWorld MakeFresh)) (words rest.now) }
{
    match next_word(rest) {
        None => Line::New,
        Some(_) => Line::Bad,
    }
}

/// Reads what stands after `entity`: one word.
pub(crate) fn entity_line<'a, A: Allocator>(rest: &'a str) -> Line<'a, A>
    ensures { (values : List ℤ) → seen values result ≡ one_word (λ n. CarryOut (InWorld (MakeEntity n)))
        (words rest.now) }
{
    match only_word(rest) {
        Some(name) => Line::Entity { name },
        None => Line::Bad,
    }
}

/// Reads what stands after `delete`: an entity.
pub(crate) fn delete_line<'a, A: Allocator>(rest: &'a str) -> Line<'a, A>
    ensures { (values : List ℤ) → seen values result ≡ entity_line (λ r. CarryOut (InWorld (DeleteOne r))) rest.now }
{
    match only_entity(rest) {
        Some(entity) => Line::Delete { entity },
        None => Line::Bad,
    }
}

/// Reads what stands after `show`: an entity.
fn show_line<'a, A: Allocator>(rest: &'a str) -> Line<'a, A>
    ensures { (values : List ℤ) → seen values result ≡ entity_line Show rest.now }
{
    match only_entity(rest) {
        Some(entity) => Line::Show { entity },
        None => Line::Bad,
    }
}

/// Reads what stands after `rows`: one word.
pub(crate) fn rows_line<'a, A: Allocator>(rest: &'a str) -> Line<'a, A>
    ensures { (values : List ℤ) → seen values result ≡ one_word AskKept (words rest.now) }
{
    match only_word(rest) {
        Some(name) => Line::Rows { name },
        None => Line::Bad,
    }
}

/// Reads what stands after `drop`: one word.
fn drop_line<'a, A: Allocator>(rest: &'a str) -> Line<'a, A>
    ensures { (values : List ℤ) → seen values result ≡ one_word (λ n. CarryOut (Drop n)) (words rest.now) }
{
    match only_word(rest) {
        Some(name) => Line::Drop { name },
        None => Line::Bad,
    }
}

/// Reads what stands after `on`: an event, and what is stored for it.
fn on_line<'a, A: Allocator>(rest: &'a str) -> Line<'a, A>
    ensures { (values : List ℤ) → seen values result ≡ on_line rest.now }
{
    let (event, behind) = word_and_rest(rest);
    match event_of_word(event) {
        Some(kind) => store_line(kind, behind),
        None => Line::Bad,
    }
}

/// Reads what stands after `keep`, `monitor` or an event: a word, and a text, which may be empty.
fn store_line<'a, A: Allocator>(kind: StoredKind, rest: &'a str) -> Line<'a, A>
    ensures { (values : List ℤ) → seen values result ≡ store_line kind rest.now }
{
    let (name, behind) = word_and_rest(rest);
    if name.is_empty() {
        return Line::Bad;
    }
    Line::Store {
        kind,
        name,
        text: trimmed(behind),
    }
}

/// The word of a text of one word.
#[inline(always)]
pub fn only_word(text: &str) -> Option<&str>
    ensures { (f : List ℕ → Form) → one_word f (words text.now) ≡ form_or_bad (λ w. f w.now) result }
{
    match next_word(text) {
        Some((word, behind)) if word_start(behind).is_none() => Some(word),
        _ => None,
    }
}

/// The entity of a text of one word.
#[inline(always)]
pub fn only_entity(text: &str) -> Option<Reference<'_>>
    ensures { (f : EntityRef → Form) → entity_line f text.now ≡ form_or_bad (λ r. f (seen_reference r)) result }
{
    match only_word(text) {
        Some(word) => reference_of(word),
        None => None,
    }
}

/// Reads what stands after `component`: a name and fields.
fn component_line<'a, A: Allocator + Copy>(
    alloc: A,
    rest: &'a str,
) -> Result<Line<'a, A>, AllocError>
    ensures { IfOk result (λ l. (values : List ℤ) → seen values l ≡ component_line (words rest.now)) }
{
    let Some((name, behind)) = next_word(rest) else {
        return Ok(Line::Bad);
    };
    match fields_of(alloc, behind)? {
        Some(fields) => Ok(Line::Component { name, fields }),
        None => Ok(Line::Bad),
    }
}

/// Reads the words of a text as fields, if each is one.
fn fields_of<'a, A: Allocator>(alloc: A, text: &'a str) -> Result<Option<Fields<'a, A>>, AllocError>
    ensures { IfOk result (λ o. option_map (λ v. map seen_field v.items) o
        ≡ all_of field_of_word (words text.now)) }
{
    let mut fields = Vec::new(alloc);
    let mut rest = text;
    while let Some((word, behind)) = next_word(rest) {
        let Some(field) = field_of_word(word) else {
            return Ok(None);
        };
        fields.push(field)?;
        rest = behind;
    }
    Ok(Some(fields))
}

/// Reads an entity and an id, and what stands after them.
// A call would write the answer to memory, and its caller clear that before.
#[inline(always)]
fn fact_and_rest(text: &str) -> Option<(Fact<'_>, &str)>
    ensures { (f : EntityRef → IdRef → List (List ℕ) → Form) → fact_line f text.now
        ≡ form_or_bad (λ t. f (seen_reference (t.0).entity) (seen_id (t.0).id) (words t.1.now)) result }
{
    let (entity, behind) = reference_and_rest(trim_front(text))?;
    let (id, rest) = id_and_rest(behind)?;
    Some((Fact { entity, id }, rest))
}

/// Reads what stands after `add` or `remove`: an entity and an id.
#[inline(always)]
fn bare_fact(text: &str) -> Option<Fact<'_>>
    ensures { (f : EntityRef → IdRef → Form) → fact_line (λ r i. nothing_more (f r i)) text.now
        ≡ form_or_bad (λ t. f (seen_reference t.entity) (seen_id t.id)) result }
{
    let (fact, rest) = fact_and_rest(text)?;
    match word_start(rest) {
        None => Some(fact),
        Some(_) => None,
    }
}

/// Reads what stands after `set`: an entity, an id and one or more values, which come into `values` in place of what
/// stood there.
#[inline(always)]
fn valued_fact<'a, A: Allocator>(
    text: &'a str,
    values: &mut Vec<i128, A>,
) -> Result<Option<Fact<'a>>, AllocError>
    ensures { IfOk result (λ o. fact_line set_line text.now
        ≡ form_or_bad (λ t. CarryOut (InWorld (SetIn (seen_reference t.entity) (seen_id t.id) values.new.items))) o) }
{
    let Some((fact, rest)) = fact_and_rest(text) else {
        return Ok(None);
    };
    let are_values = read_values(rest, values)?;
    if are_values && !values.is_empty() {
        Ok(Some(fact))
    } else {
        Ok(None)
    }
}

/// Reads what stands after the word of a deed: an entity and an id, and after `set` one or more values, which come into
/// `values` in place of what stood there.
// One function for the three deeds, so that the code that reads an entity and an id stands once where it is inlined.
#[inline(always)]
pub fn fact_behind<'a, A: Allocator>(
    deed: Deed,
    text: &'a str,
    values: &mut Vec<i128, A>,
) -> Result<Option<Fact<'a>>, AllocError>
    ensures { IfOk result (λ o. deed_line deed text.now ≡ form_or_bad (seen_deed deed values.new.items) o) }
{
    let Some((fact, rest)) = fact_and_rest(text) else {
        return Ok(None);
    };
    let fits = fits_behind(deed, rest, values)?;
    if fits { Ok(Some(fact)) } else { Ok(None) }
}

/// Reads what stands after an entity and an id, and answers whether it fits the deed.
#[inline(always)]
fn fits_behind<A: Allocator>(
    deed: Deed,
    text: &str,
    values: &mut Vec<i128, A>,
) -> Result<bool, AllocError>
    ensures { IfOk result (λ fits. (r : EntityRef) → (i : IdRef) → deed_words deed r i (words text.now)
        ≡ (if fits then deed_form deed r i values.new.items else BadLine)) }
{
    match deed {
        Deed::Set => {
            let are_values = read_values(text, values)?;
            Ok(are_values && !values.is_empty())
        }
        Deed::Add => Ok(word_start(text).is_none()),
        Deed::Remove => Ok(word_start(text).is_none()),
    }
}

/// Reads what stands after `add`: an entity and an id.
pub(crate) fn add_line<'a, A: Allocator>(rest: &'a str) -> Line<'a, A>
    ensures { (values : List ℤ) → seen values result ≡ fact_line
        (λ r i. nothing_more (CarryOut (InWorld (AddTo r i)))) rest.now }
{
    match bare_fact(rest) {
        Some(fact) => Line::Add {
            entity: fact.entity,
            id: fact.id,
        },
        None => Line::Bad,
    }
}

/// Reads what stands after `remove`: an entity and an id.
pub(crate) fn remove_line<'a, A: Allocator>(rest: &'a str) -> Line<'a, A>
    ensures { (values : List ℤ) → seen values result ≡ fact_line
        (λ r i. nothing_more (CarryOut (InWorld (RemoveFrom r i)))) rest.now }
{
    match bare_fact(rest) {
        Some(fact) => Line::Remove {
            entity: fact.entity,
            id: fact.id,
        },
        None => Line::Bad,
    }
}

/// Reads what stands after `set`.
pub(crate) fn set_line<'a, A: Allocator>(
    rest: &'a str,
    values: &mut Vec<i128, A>,
) -> Result<Line<'a, A>, AllocError>
    ensures { IfOk result (λ l. seen values.new.items l ≡ fact_line set_line rest.now) }
{
    match valued_fact(rest, values)? {
        Some(fact) => Ok(Line::Set {
            entity: fact.entity,
            id: fact.id,
        }),
        None => Ok(Line::Bad),
    }
}

/// Reads the words of a text as values, and answers whether each is one.
fn read_values<A: Allocator>(text: &str, values: &mut Vec<i128, A>) -> Result<bool, AllocError>
    ensures { IfOk result (λ are_values. all_of value_of_word (words text.now)
        ≡ (if are_values then Some values.new.items else None)) }
{
    values.clear();
    let mut rest = text;
    while let Some(word) = word_start(rest) {
        let Some((value, behind)) = value_and_rest(word) else {
            return Ok(false);
        };
        list_growth::push(values, value)?;
        rest = behind;
    }
    Ok(true)
}
