//! A row that moves to another table.
ghost use Rattle.std.specs.Prelude.{◌≡◌, ◌<◌, ◌∷◌, [], length, OnOk};
ghost use Rattle.ecs_table.specs.Archetype.{HaveEqualSizes, empty_table};

use ecs_id::{EntityId, Id};
use ecs_table::Table;
use raw_column::Memory;
use std::alloc::Global;
use std::process::Abort;
use std::test::Fail;

/// The ids of two tables: the one has the common id and the tag, the other the common id and the mark.
#[derive(Clone, Copy)]
struct Ids {
    common: Id,
    tag: Id,
    mark: Id,
}

/// Appends a row with a value in the table from which it is to move.
fn append_valued(source: &mut Table, target: &mut Table, ids: &Ids) -> Result<(), Memory>
    requires source { source.old ≡ empty_table (ids.now.common ∷ ids.now.tag ∷ []) (4 ∷ 0 ∷ []) }
    requires target { target.old ≡ empty_table (ids.now.common ∷ ids.now.mark ∷ []) (4 ∷ 1 ∷ []) }
    ensures row { OnOk result (0 < length source.new.entities) }
    ensures room { OnOk result (0 < target.new.room) }
    ensures sizes { OnOk result (HaveEqualSizes source.new target.new) }
{
    source.reserve(1)?;
    target.reserve(1)?;
    source.append(numbered(70));
    source.set_value(0, ids.common, &[1, 2, 3, 4]);
    Ok(())
}

fn move_valued(rt: &impl Abort, source: &mut Table, target: &mut Table, ids: &Ids)
    requires row { 0 < length source.old.entities }
    requires room { 0 < target.old.room }
    requires sizes { HaveEqualSizes source.old target.old }
{
    assert!(rt; source.move_to(0, target) == (0, None));
    assert!(rt; source.rows().is_empty());
    assert!(rt; target.rows() == [numbered(70)].as_slice());
    assert!(rt; has_value(target, 0, ids.common, &[1, 2, 3, 4]));
    assert!(rt; has_value(target, 0, ids.mark, &[0]));
    assert!(rt; target.value(0, ids.tag).is_none());
}

fn append_and_move(
    rt: &impl Abort,
    source: &mut Table,
    target: &mut Table,
    ids: &Ids,
) -> Result<(), Memory>
    requires source { source.old ≡ empty_table (ids.now.common ∷ ids.now.tag ∷ []) (4 ∷ 0 ∷ []) }
    requires target { target.old ≡ empty_table (ids.now.common ∷ ids.now.mark ∷ []) (4 ∷ 1 ∷ []) }
{
    append_valued(source, target, ids)?;
    move_valued(rt, source, target, ids);
    Ok(())
}

/// Makes the table to which the row is to move.
fn move_to_another(
    rt: &impl Abort,
    alloc: Global,
    source: &mut Table,
    ids: &Ids,
) -> Result<(), Memory>
    requires { source.old ≡ empty_table (ids.now.common ∷ ids.now.tag ∷ []) (4 ∷ 0 ∷ []) }
{
    let mut target = Table::new(alloc, &[ids.common, ids.mark], &[4, 1])?;
    let done = append_and_move(rt, source, &mut target, ids);
    drop(target);
    done
}

#[test]
fn a_row_that_moves_keeps_the_values_of_common_ids(rt: HostRuntime) -> Result<(), Fail> {
    let ids = Ids {
        common: Id::plain(64),
        tag: Id::plain(65),
        mark: Id::plain(66),
    };
    let mut source = Table::new(rt.alloc(), &[ids.common, ids.tag], &[4, 0])?;
    let done = move_to_another(&rt, rt.alloc(), &mut source, &ids);
    drop(source);
    Ok(done?)
}

fn has_value(table: &Table, row: usize, id: Id, bytes: &[u8]) -> bool
    requires { row < length table.now.entities }
{
    match table.value(row, id) {
        Some(value) => value == bytes,
        None => false,
    }
}

fn numbered(index: u32) -> EntityId
    ensures { result.index ≡ index }
{
    EntityId {
        index,
        generation: 0,
    }
}
