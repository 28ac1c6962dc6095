//! Which entities the ids of tables mention.
ghost use Rattle.std.specs.Prelude.{◌≡◌, ◌<◌, ℕ, length, slice_index_or, false, true, OnOk};
ghost use Rattle.std.specs.List.{list_any};
ghost use Rattle.component_index.specs.Mentions.{Keeps, may_match, may_take};
ghost use Rattle.id_pattern.specs.Patterns.{matches};
ghost use Rattle.id_pattern.specs.declared.Pattern.{Pattern as Asked};

use ecs_id::Id;
use id_pattern::{Part, Pattern};
use std::alloc::{AllocError, Allocator};

/// A mark for each index that an id mentions which was noted, up to the greatest of them. Marks stay.
///
/// So a pattern that asks for an entity that no table ever mentioned is answered without a look-up, and most entities
/// are such.
pub type Marks<A> = Vec<bool, A>;

/// Notes what these ids mention.
pub fn note_all<A: Allocator>(marks: &mut Marks<A>, ids: &[Id]) -> Result<(), AllocError>
    ensures noted { OnOk result ((p : Asked) → list_any (matches p) ids.now ≡ true
        → may_match marks.new.items p ≡ true) }
    ensures kept { Keeps marks.old.items marks.new.items }
{
    for id in ids {
        note(marks, *id)?;
    }
    Ok(())
}

fn note<A: Allocator>(marks: &mut Marks<A>, id: Id) -> Result<(), AllocError>
    ensures noted { OnOk result ((p : Asked) → matches p id ≡ true → may_match marks.new.items p ≡ true) }
    ensures kept { Keeps marks.old.items marks.new.items }
{
    mark(marks, id.first())?;
    match id.second() {
        None => Ok(()),
        Some(target) => mark(marks, target),
    }
}

/// Whether a pattern may match an id that was noted.
#[inline(always)]
pub fn may_match(marks: &[bool], pattern: Pattern) -> bool
    ensures { result ≡ may_match marks.now pattern }
{
    if !may_take(marks, pattern.first) {
        return false;
    }
    match pattern.second {
        Some(second) => may_take(marks, second),
        None => true,
    }
}

#[inline(always)]
fn may_take(marks: &[bool], part: Part) -> bool
    ensures { result ≡ may_take marks.now part }
{
    match part {
        Part::Is(index) => is_marked(marks, index),
        Part::Any => true,
    }
}

#[inline(always)]
fn is_marked(marks: &[bool], index: u32) -> bool
    ensures { result ≡ slice_index_or marks.now index false }
{
    match marks.get(index as usize) {
        Some(mark) => *mark,
        None => false,
    }
}

fn mark<A: Allocator>(marks: &mut Marks<A>, index: u32) -> Result<(), AllocError>
    ensures marked { OnOk result (slice_index_or marks.new.items index false ≡ true) }
    ensures kept { Keeps marks.old.items marks.new.items }
{
    reach(marks, index)?;
    marks[index as usize] = true;
    Ok(())
}

// Makes the list long enough for the index.
fn reach<A: Allocator>(marks: &mut Marks<A>, index: u32) -> Result<(), AllocError>
    ensures within { OnOk result (index < length marks.new.items) }
    ensures same { (i : ℕ) → slice_index_or marks.new.items i false ≡ slice_index_or marks.old.items i false }
{
    let index = index as usize;
    if marks.len() <= index {
        marks.resize(index + 1, false)?;
    }
    Ok(())
}
