//! Who leaves and who enters the rows of a local query.

ghost use Rattle.std.specs.Prelude.{◌≡◌, ◌++◌, IfOk, [], ◌∷◌, filter, map, option_map, if◌then◌else◌};
ghost use Rattle.std.specs.List.Sorted.{IsStrictlyIncreasing};
ghost use Rattle.ecs_model.specs.rows.View.{View};
ghost use Rattle.ecs_model.specs.stored.Watches.{matching, missing_from};
ghost use Rattle.query_local.specs.Telling.{enters, is_matched, leaves};
ghost use Rattle.query_local.specs.Touched.{AreTouched, touch_of};
ghost use Rattle.query_meaning.specs.Local.{IsLocal};

use crate::judging::judged;
use crate::touched::Touched;
use ecs_id::Id;
use query_check::Query;
use std::alloc::{AllocError, Allocator};

/// The entities, by their indexes in ascending order, that are `$this` of some row before a command and of none after
/// it, and those that are so only after it.
#[derive(Drop)]
pub struct Told<A: Allocator> {
    pub left: Vec<u32, A>,
    pub entered: Vec<u32, A>,
}

/// Who leaves and who enters the rows of a local query, of all entities, between two worlds that differ only in what
/// the touched ones hold. It gets neither world.
pub fn local_told<A: Allocator + Copy>(
    alloc: A,
    query: &Query<A>,
    touched: &[Touched<'_, A>],
) -> Result<Told<A>, AllocError>
    requires local { IsLocal query.now }
    requires ascends { IsStrictlyIncreasing (map (λ t. t.index) touched.now) }
    ensures left { IfOk result (λ told. (w v : View) → IsStrictlyIncreasing w.entities → IsStrictlyIncreasing v.entities
        → AreTouched (map touch_of touched.now) w v → told.left.items
        ≡ missing_from (matching w query.now) (matching v query.now)) }
    ensures entered { IfOk result (λ told. (w v : View) → IsStrictlyIncreasing w.entities
        → IsStrictlyIncreasing v.entities
        → AreTouched (map touch_of touched.now) w v → told.entered.items
        ≡ missing_from (matching v query.now) (matching w query.now)) }
{
    told_of(alloc, query, touched)
}

/// Those of the touched entities that are judged otherwise by what they held before than by what they hold after.
fn told_of<A: Allocator + Copy>(
    alloc: A,
    query: &Query<A>,
    touched: &[Touched<'_, A>],
) -> Result<Told<A>, AllocError>
    ensures left { IfOk result (λ told. told.left.items ≡ map (λ t. t.index)
        (filter (λ t. leaves query.now (touch_of t)) touched.now)) }
    ensures entered { IfOk result (λ told. told.entered.items ≡ map (λ t. t.index)
        (filter (λ t. enters query.now (touch_of t)) touched.now)) }
{
    let mut left = Vec::new(alloc);
    let mut entered = Vec::new(alloc);
    for entity in touched {
        let before = was_matched(query, entity);
        let after = is_matched(query, entity.index, entity.after);
        push_if(&mut left, entity.index, before && !after)?;
        push_if(&mut entered, entity.index, after && !before)?;
    }
    Ok(Told { left, entered })
}

/// Whether an entity was `$this` of some row before the command.
fn was_matched<A: Allocator>(query: &Query<A>, entity: &Touched<'_, A>) -> bool
    ensures { result ≡ is_matched query.now entity.now.index (touch_of entity.now).before }
{
    match &entity.before {
        Some(ids) => judged(query, entity.index, ids.as_slice()),
        None => false,
    }
}

/// Whether an entity is `$this` of some row where it lives with these ids: never where it doesn't live.
fn is_matched<A: Allocator>(query: &Query<A>, entity: u32, ids: Option<&[Id]>) -> bool
    ensures { result ≡ is_matched query.now entity (option_map (λ ids. ids.now) ids.entry) }
{
    match ids {
        Some(ids) => judged(query, entity, ids),
        None => false,
    }
}

fn push_if<A: Allocator>(list: &mut Vec<u32, A>, index: u32, wanted: bool) -> Result<(), AllocError>
    ensures { IfOk result (λ _. list.new.items ≡ list.old.items ++ (if wanted then index ∷ [] else [])) }
{
    if wanted {
        list.push(index)?;
    }
    Ok(())
}
