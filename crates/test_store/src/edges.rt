//! Tables are found again without memory.
use crate::sized::Sized;
use ecs_id::{Id, TableKey};
use raw_column::Memory;
use refusing_alloc::Refusing;
use std::alloc::Global;
use std::hash::RandomState;
use std::process::Abort;
use std::test::Fail;

/// Two ids, and the tables with none of them, with each, and with both.
#[derive(Clone, Copy)]
struct Square {
    tag: Id,
    position: Id,
    none: TableKey,
    tagged: TableKey,
    placed: TableKey,
    both: TableKey,
}

fn make_square(tables: &mut Sized<&Refusing<Global>>) -> Result<Square, Memory> {
    let (tag, position) = (Id::plain(100), Id::plain(64));
    let none = tables.root()?;
    let tagged = tables.with(none, tag)?;
    let placed = tables.with(none, position)?;
    let both = tables.with(tagged, position)?;
    Ok(Square {
        tag,
        position,
        none,
        tagged,
        placed,
        both,
    })
}

fn leads(found: Result<TableKey, Memory>, table: TableKey) -> bool {
    match found {
        Ok(key) => key == table,
        Err(Memory) => false,
    }
}

/// The table of both ids is found by its list, and leads back to those with one.
fn expect_back(rt: &impl Abort, tables: &mut Sized<&Refusing<Global>>, square: &Square) {
    let both = square.both;
    assert!(rt; leads(tables.pair(), both));
    assert!(rt; leads(tables.without(both, square.position), square.tagged));
    assert!(rt; leads(tables.without(both, square.tag), square.placed));
}

/// An id more leads from each table to another one.
fn expect_onward(rt: &impl Abort, tables: &mut Sized<&Refusing<Global>>, square: &Square) {
    let (tag, position) = (square.tag, square.position);
    assert!(rt; leads(tables.with(square.none, tag), square.tagged));
    assert!(rt; leads(tables.with(square.none, position), square.placed));
    assert!(rt; leads(tables.with(square.tagged, position), square.both));
    assert!(rt; leads(tables.with(square.placed, tag), square.both));
}

/// Makes four tables, and goes from one to another once there is no memory.
fn find_again(
    rt: &impl Abort,
    heap: &Refusing<Global>,
    tables: &mut Sized<&Refusing<Global>>,
) -> Result<(), Memory> {
    let square = make_square(tables)?;
    expect_back(rt, tables, &square);
    heap.refuse_after(0);
    expect_back(rt, tables, &square);
    expect_onward(rt, tables, &square);
    assert!(rt; tables.with(square.both, Id::plain(101)) == Err(Memory));
    heap.refuse_none();
    Ok(())
}

/// A table that stands is found without memory, along an edge or by its ids. A new one takes some.
#[test]
fn tables_are_found_without_memory(rt: HostRuntime) -> Result<(), Fail> {
    let heap = Refusing::new(rt.alloc());
    let mut tables = Sized::new(&heap, RandomState::new(&rt)?);
    let done = find_again(&rt, &heap, &mut tables);
    drop(tables);
    drop(heap);
    Ok(done?)
}
