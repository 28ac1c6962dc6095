//! The entities that leave and enter the rows of a monitor whose query isn't local.

ghost use Rattle.std.specs.Prelude.{◌≡◌, ℕ, ◌+◌, ◌≤◌, ◌&&◌, ◌||◌, ◌++◌, ◌∷◌, [], None, IfOk, OnOk, false, filter, min};
ghost use Rattle.std.specs.Prelude.{not, true, if◌then◌else◌};
ghost use Rattle.std.specs.List.Sorted.{IsStrictlyIncreasing};
ghost use Rattle.ecs_model.specs.rows.View.{view_of};
ghost use Rattle.ecs_model.specs.stored.Watches.{matching};
ghost use Rattle.watch_stored.specs.Moves.{AddsMoves, AreMovesTo, AreNoMoves, CanBeAsked, IsTold, is_among, is_untold};
ghost use Rattle.watch_stored.specs.Moves.{rows_now, rows_then};
ghost use Rattle.query_meaning.specs.Sound.{IsSound};
ghost use Rattle.watch_stored.specs.Parts.{kept_rows};
ghost use Rattle.query_meaning.specs.Standing.{IsCurrentIn};
ghost use Rattle.watch_touched.specs.Before.{view_before};
ghost use Rattle.watch_touched.specs.Concerned.{is_concerned};
ghost use Rattle.watch_touched.specs.Moving.{finds_moving};
ghost use Rattle.watch_concerns.specs.Since.{IsAfter};

use crate::asking::{found_among, is_found};
use crate::report::{Effect, Searches};
use crate::stored::StoredQuery;
use crate::watched::whole_rows;
use asking_room::AskingRoom;
use ecs_world::World;
use entity_set::EntitySet;
use short_list::ShortList;
use std::alloc::{AllocError, Allocator};
use watch_asked::AskedQuery;
use watch_touched::{Moved, told_by_ids, who_may_have_moved};

/// Up to so many entities are searched one by one. For more, one search remembers what it has found.
const FEW: usize = 4;

/// The entities of a monitor's rows after a command: those that left and those that entered, each in ascending order.
#[derive(Drop)]
pub struct RowsAfter<A: Allocator> {
    pub(crate) left: ShortList<A>,
    pub(crate) entered: ShortList<A>,
    /// All entities of the rows. None where the set from before the command has room for the changes; then they are
    /// made in that set.
    pub(crate) these: Option<EntitySet<A>>,
}

impl<A: Allocator> RowsAfter<A> {
    /// No entity has left or entered.
    #[inline(always)]
    pub fn new() -> Self
        ensures { AreNoMoves result }
    {
        RowsAfter {
            left: ShortList::new(),
            entered: ShortList::new(),
            these: None,
        }
    }
}

/// The query of a monitor, and a world in which its rows are searched.
#[derive(Drop)]
struct Question<'q, A: Allocator> {
    alloc: A,
    world: &'q World<A>,
    query: &'q StoredQuery<A>,
}

/// For a monitor whose query isn't local. Answers whether the command concerns the query; if so, `rows` gets the
/// entities that left and entered. Where every candidate is known, its own ids decide, or a search for it; else all
/// rows are found, compared with those before, and counted. One room serves the searches of any number of queries.
///
/// Fails where memory is refused.
pub(crate) fn rows_after<A: Allocator + Copy>(
    effect: &Effect<'_, A>,
    query: &StoredQuery<A>,
    searches: &mut Searches<A>,
    rows: &mut RowsAfter<A>,
) -> Result<bool, AllocError>
    requires after { IsAfter effect.now.world.now.state effect.now.changes.now }
    requires current { IsCurrentIn effect.now.world.now.state (query.now.plan).query }
    requires was { query.now.these.items
        ≡ matching (view_before effect.now.world.now.state effect.now.changes.now) (query.now.plan).query }
    requires none { AreNoMoves rows.old }
    ensures concerned { IfOk result (λ concerned. concerned
        ≡ is_concerned (query.now.plan).query effect.now.changes.now) }
    ensures moves { IfOk result (λ concerned. concerned ≡ true → AreMovesTo query.now.these
        (matching (view_of effect.now.world.now.state) (query.now.plan).query) rows.new) }
    ensures compared { is_concerned (query.now.plan).query effect.now.changes.now ≡ false
        → searches.new.compared ≡ searches.old.compared }
    ensures counted { finds_moving (query.now.plan).query effect.now.changes.now ≡ false
        → is_concerned (query.now.plan).query effect.now.changes.now ≡ true
        → OnOk result (searches.new.compared ≡ min (searches.old.compared + 1) 18446744073709551615) }
    ensures grows { searches.old.compared ≤ searches.new.compared }
    ensures few { searches.new.compared ≤ searches.old.compared + 1 }
{
    let alloc = searches.alloc;
    let world = effect.world;
    let question = Question {
        alloc,
        world,
        query,
    };
    let mut moving = ShortList::new();
    let asked = query.plan.asked();
    let bonds = query.plan.bonds();
    match who_may_have_moved(alloc, world, effect.changes, &asked, bonds, &mut moving)? {
        Moved::Nobody => Ok(false),
        Moved::Few => {
            let room = &mut searches.room;
            rows_by_asking(&question, room, moving.as_slice(), rows)?;
            Ok(true)
        }
        Moved::Unknown => {
            rows_by_all(&question, &mut searches.compared, rows)?;
            Ok(true)
        }
    }
}

/// The rows, where every candidate is known.
fn rows_by_asking<A: Allocator + Copy>(
    question: &Question<'_, A>,
    room: &mut AskingRoom<A>,
    moving: &[u32],
    rows: &mut RowsAfter<A>,
) -> Result<(), AllocError>
    requires current { CanBeAsked question.now }
    requires ascends { IsStrictlyIncreasing (rows_then question.now) }
    requires told { IsTold (question.now.query.now.plan).query question.now.world.now.state (rows_then question.now)
        moving.now }
    requires none { AreNoMoves rows.old }
    ensures { OnOk result (AreMovesTo question.now.query.now.these (rows_now question.now) rows.new) }
{
    question.world.keeps();
    push_moves(question, room, moving, rows)?;
    fill_set(question.alloc, &question.query.these, rows)?;
    Ok(())
}

/// Of ascending candidates, adds those that have left the rows, and those that have entered them.
fn push_moves<A: Allocator + Copy>(
    question: &Question<'_, A>,
    room: &mut AskingRoom<A>,
    moving: &[u32],
    rows: &mut RowsAfter<A>,
) -> Result<(), AllocError>
    requires current { CanBeAsked question.now }
    requires ascend { IsStrictlyIncreasing moving.now }
    ensures { OnOk result (AddsMoves question.now moving.now rows.old rows.new) }
{
    if moving.len() <= FEW {
        return push_each(question, room, moving, rows);
    }
    push_searched(question, room, moving, rows)
}

/// The same, with one search for each candidate.
fn push_each<A: Allocator + Copy>(
    question: &Question<'_, A>,
    room: &mut AskingRoom<A>,
    moving: &[u32],
    rows: &mut RowsAfter<A>,
) -> Result<(), AllocError>
    requires current { CanBeAsked question.now }
    ensures { OnOk result (AddsMoves question.now moving.now rows.old rows.new) }
{
    for entity in moving {
        let is = is_in_rows(question, room, *entity)?;
        push_move(question, *entity, is, rows)?;
    }
    Ok(())
}

/// Whether an entity is in the rows of a query: its ids decide it, else a search.
fn is_in_rows<A: Allocator + Copy>(
    question: &Question<'_, A>,
    room: &mut AskingRoom<A>,
    entity: u32,
) -> Result<bool, AllocError>
    requires current { CanBeAsked question.now }
    ensures { IfOk result (λ is. is ≡ is_among (rows_now question.now) entity) }
{
    let world = question.world;
    let plan = &question.query.plan;
    match told_by_ids(&plan.asked(), world, entity) {
        Some(is) => Ok(is),
        None => is_found(question.alloc, world, plan, room, entity),
    }
}

/// The same, with one search for all candidates whose ids don't decide.
#[inline(never)]
fn push_searched<A: Allocator + Copy>(
    question: &Question<'_, A>,
    room: &mut AskingRoom<A>,
    moving: &[u32],
    rows: &mut RowsAfter<A>,
) -> Result<(), AllocError>
    requires current { CanBeAsked question.now }
    requires ascend { IsStrictlyIncreasing moving.now }
    ensures { OnOk result (AddsMoves question.now moving.now rows.old rows.new) }
{
    let alloc = question.alloc;
    let world = question.world;
    let plan = &question.query.plan;
    let asked = plan.asked();
    let mut untold = ShortList::new();
    push_untold(alloc, world, &asked, moving, &mut untold)?;
    let found = found_among(alloc, world, plan, room, untold.as_slice())?;
    let found = found.as_slice();
    for entity in moving {
        let is = is_told_or_found(world, &asked, found, *entity);
        push_move(question, *entity, is, rows)?;
    }
    Ok(())
}

/// Adds each of these entities whose ids don't decide whether it is in the rows of a query.
fn push_untold<A: Allocator + Copy>(
    alloc: A,
    world: &World<A>,
    asked: &AskedQuery<'_, A>,
    entities: &[u32],
    untold: &mut ShortList<A>,
) -> Result<(), AllocError>
    requires sound { IsSound asked.now }
    ensures { OnOk result (untold.new.items ≡ untold.old.items ++ filter
        (is_untold asked.now world.now.state) entities.now) }
{
    for entity in entities {
        if told_by_ids(asked, world, *entity).is_none() {
            untold.push(alloc, *entity)?;
        }
    }
    Ok(())
}

/// Whether an entity is in the rows of a query: its ids decide it, else whether it is among those that were found.
fn is_told_or_found<A: Allocator>(
    world: &World<A>,
    asked: &AskedQuery<'_, A>,
    found: &[u32],
    entity: u32,
) -> bool
    requires sound { IsSound asked.now }
    requires ascend { IsStrictlyIncreasing found.now }
    requires found { is_untold asked.now world.now.state entity ≡ true
        → is_among found.now entity ≡ is_among (matching (view_of world.now.state) asked.now) entity }
    ensures { result ≡ is_among (matching (view_of world.now.state) asked.now) entity }
{
    match told_by_ids(asked, world, entity) {
        Some(is) => is,
        None => is_among(found, entity),
    }
}

/// Adds an entity to those that left, if it was in the rows and isn't now; or to those that entered, if it is and
/// wasn't.
#[inline(always)]
fn push_move<A: Allocator + Copy>(
    question: &Question<'_, A>,
    entity: u32,
    is: bool,
    rows: &mut RowsAfter<A>,
) -> Result<(), AllocError>
    ensures left { OnOk result (rows.new.left.items ≡ rows.old.left.items
        ++ (if is_among (rows_then question.now) entity && not is then entity ∷ [] else [])) }
    ensures entered { OnOk result (rows.new.entered.items ≡ rows.old.entered.items
        ++ (if is && not (is_among (rows_then question.now) entity) then entity ∷ [] else [])) }
    ensures these { rows.new.these ≡ rows.old.these }
{
    let was = question.query.these.contains(entity);
    push_if(question.alloc, was & !is, entity, &mut rows.left)?;
    push_if(question.alloc, is & !was, entity, &mut rows.entered)
}

#[inline(always)]
fn push_if<A: Allocator>(
    alloc: A,
    wanted: bool,
    entity: u32,
    entities: &mut ShortList<A>,
) -> Result<(), AllocError>
    ensures { OnOk result (entities.new.items ≡ entities.old.items ++ (if wanted then entity ∷ [] else [])) }
{
    if wanted {
        entities.push(alloc, entity)?;
    }
    Ok(())
}

/// Whether an index is among ascending indexes.
fn is_among(entities: &[u32], entity: u32) -> bool
    requires { IsStrictlyIncreasing entities.now }
    ensures { result ≡ is_among entities.now entity }
{
    entities.binary_search(&entity).is_ok()
}

/// Makes a new set of the rows, if the old one has no room for the changes. Else they are made in the old one later.
///
/// Fails where memory is refused.
fn fill_set<A: Allocator + Copy>(
    alloc: A,
    these: &EntitySet<A>,
    rows: &mut RowsAfter<A>,
) -> Result<(), AllocError>
    requires none { rows.old.these ≡ None }
    ensures left { rows.new.left ≡ rows.old.left }
    ensures entered { rows.new.entered ≡ rows.old.entered }
    ensures ascends { OnOk result (IsStrictlyIncreasing (kept_rows rows.new these.now).items) }
    ensures members { OnOk result ((e : ℕ) → is_among (kept_rows rows.new these.now).items e
        ≡ ((is_among these.now.items e && not (is_among rows.old.left.items e)) || is_among rows.old.entered.items e)) }
{
    if these.has_room(rows.entered.as_slice()) {
        return Ok(());
    }
    let moved = these.moved(alloc, rows.left.as_slice(), rows.entered.as_slice())?;
    rows.these = Some(moved);
    Ok(())
}

/// The rows, found as a whole.
#[inline(never)]
fn rows_by_all<A: Allocator + Copy>(
    question: &Question<'_, A>,
    compared: &mut u64,
    rows: &mut RowsAfter<A>,
) -> Result<(), AllocError>
    requires current { CanBeAsked question.now }
    ensures moves { OnOk result (AreMovesTo question.now.query.now.these (rows_now question.now) rows.new) }
    ensures counted { compared.new ≡ min (compared.old + 1) 18446744073709551615 }
    ensures grows { compared.old ≤ compared.new }
{
    let alloc = question.alloc;
    let before = &question.query.these;
    let these = whole_rows(alloc, question.world, &question.query.plan, compared)?;
    let left = before.without(alloc, &these)?;
    rows.left = ShortList::from_vec(left);
    let entered = these.without(alloc, before)?;
    rows.entered = ShortList::from_vec(entered);
    rows.these = Some(these);
    Ok(())
}
