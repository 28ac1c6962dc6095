//! Entities, names, and the tables of patterns.
use component_index::ComponentIndex;
use ecs_id::{EntityId, Id, TableKey};
use entity_index::{CreateError, EntityIndex};
use name_index::{BindError, NameIndex};
use std::hash::RandomState;
use std::process::Abort;
use std::test::Fail;

const SUN: EntityId = EntityId {
    index: 64,
    generation: 0,
};

const EARTH: EntityId = EntityId {
    index: 65,
    generation: 0,
};

/// The entity that stands at the index of the sun after it.
const NEXT_SUN: EntityId = EntityId {
    index: 64,
    generation: 1,
};

fn give_out_again(rt: &impl Abort, index: &mut EntityIndex) {
    assert!(rt; index.create() == Ok(SUN));
    assert!(rt; index.create() == Ok(EARTH));
    assert!(rt; index.create() == Err(CreateError::Full));
    assert!(rt; index.delete(SUN));
    assert!(rt; index.create() == Ok(NEXT_SUN));
}

#[test]
fn the_smallest_free_index_comes_next(rt: HostRuntime) -> Result<(), Fail> {
    let mut index = EntityIndex::new(rt.alloc(), 65)?;
    give_out_again(&rt, &mut index);
    drop(index);
    Ok(())
}

/// Binds a name to an entity, unless it has one.
fn bind(names: &mut NameIndex, name: &str, entity: EntityId) -> Result<(), BindError> {
    match names.name_of(entity) {
        None => names.bind(name, entity),
        Some(_) => Ok(()),
    }
}

#[test]
fn a_name_is_bound(rt: HostRuntime) -> Result<(), Fail> {
    let mut names = NameIndex::new(rt.alloc(), RandomState::new(&rt)?);
    assert!(rt; bind(&mut names, "Sun", SUN).is_ok());
    drop(names);
    Ok(())
}

#[test]
#[tactic(auto, using(component_index::specs::Entered::table_gets))]
fn a_table_is_entered(rt: HostRuntime) -> Result<(), Fail> {
    let mut index = ComponentIndex::new(rt.alloc(), RandomState::new(&rt)?);
    let key = TableKey { slot: 1, serial: 6 };
    assert!(rt; index.enter(key, &[Id::plain(80), Id::pair(70, 71)]).is_ok());
    drop(index);
    Ok(())
}
