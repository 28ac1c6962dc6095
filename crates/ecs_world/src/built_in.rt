//! The built-in entities and their facts.

ghost use Rattle.std.specs.Prelude.{◌≡◌, ◌+◌, ◌<◌, [], IfOk, OnOk, IsTrue, map};
ghost use Rattle.std.specs.List.{list_all};
ghost use Rattle.ecs_archetypes.specs.Housing.{holdings_of};
ghost use Rattle.ecs_id.specs.Id.{id_cmp};
ghost use Rattle.ecs_model.specs.Map.{IsMap};
ghost use Rattle.ecs_model.specs.World.{built_in_names};
ghost use Rattle.ecs_world.specs.BuiltIn.{AreFirstNames, IsSettled, is_first_tag, tags_of};

use ecs_archetypes::Archetypes;
use ecs_id::{EntityId, Id};
use ecs_model::LAST_BUILT_IN;
pub(crate) use ecs_model::built_ins::{COMPONENT, PAIR_IS_TAG};
use ecs_model::built_ins::{
    ACYCLIC, CHILD_OF, DELETE, EXCLUSIVE, IS_A, ON_DELETE, ON_DELETE_TARGET, ON_INSTANTIATE,
    REFLEXIVE, TRANSITIVE, TRAVERSABLE, WITH,
};
use name_index::NameIndex;
use raw_column::Memory;
use rel_traits::PinCounts;
use std::alloc::Allocator;
use std::hash::RandomState;
use table_store::SizedId;

/// In order of index, from 1 on.
const NAMES: [&str; 22] = [
    "ChildOf",
    "IsA",
    "Component",
    "Prefab",
    "Disabled",
    "Exclusive",
    "Symmetric",
    "Transitive",
    "Reflexive",
    "Acyclic",
    "Traversable",
    "PairIsTag",
    "With",
    "OnDelete",
    "OnDeleteTarget",
    "Remove",
    "Delete",
    "Panic",
    "OnInstantiate",
    "Override",
    "Inherit",
    "DontInherit",
];

/// The counts of the built-in entities, before any query is stored.
pub(crate) fn pins<A: Allocator>(alloc: A) -> Result<PinCounts<A>, Memory>
    ensures none { IfOk result (λ pins. pins.entries ≡ []) }
    ensures covers { IfOk result (λ pins. 22 < pins.reach) }
{
    let mut pins = PinCounts::new(alloc);
    pins.cover(LAST_BUILT_IN)?;
    Ok(pins)
}

/// The built-in entities, each in its table.
pub(crate) fn archetypes<A: Allocator + Copy>(
    alloc: A,
    random: RandomState,
) -> Result<Archetypes<A>, Memory>
    ensures { IfOk result (λ a. IsSettled (holdings_of a) 22) }
{
    let mut archetypes = Archetypes::new(alloc, random)?;
    for settled in 0..LAST_BUILT_IN {
        settle(&mut archetypes, settled)?;
    }
    Ok(archetypes)
}

/// Puts the next built-in entity into its table, where so many stand in theirs.
fn settle<A: Allocator + Copy>(archetypes: &mut Archetypes<A>, settled: u32) -> Result<(), Memory>
    requires few { settled < 22 }
    requires before { IsSettled (holdings_of archetypes.old) settled }
    ensures { OnOk result (IsSettled (holdings_of archetypes.new) (settled + 1)) }
{
    let exclusive = SizedId::tag(Id::plain(EXCLUSIVE));
    let acyclic = SizedId::tag(Id::plain(ACYCLIC));
    let traversable = SizedId::tag(Id::plain(TRAVERSABLE));
    let pair_is_tag = SizedId::tag(Id::plain(PAIR_IS_TAG));
    match settled + 1 {
        CHILD_OF => {
            let deletes_with_target = SizedId::tag(Id::pair(ON_DELETE_TARGET, DELETE));
            let ids = [
                exclusive,
                acyclic,
                traversable,
                pair_is_tag,
                deletes_with_target,
            ];
            put(archetypes, settled, &ids)
        }
        IS_A => {
            let transitive = SizedId::tag(Id::plain(TRANSITIVE));
            let reflexive = SizedId::tag(Id::plain(REFLEXIVE));
            let ids = [transitive, reflexive, acyclic, traversable, pair_is_tag];
            put(archetypes, settled, &ids)
        }
        TRANSITIVE => put(
            archetypes,
            settled,
            &[SizedId::tag(Id::pair(WITH, TRAVERSABLE))],
        ),
        TRAVERSABLE => put(
            archetypes,
            settled,
            &[SizedId::tag(Id::pair(WITH, ACYCLIC))],
        ),
        WITH => put(archetypes, settled, &[pair_is_tag]),
        ON_DELETE | ON_DELETE_TARGET | ON_INSTANTIATE => {
            put(archetypes, settled, &[exclusive, pair_is_tag])
        }
        _ => put(archetypes, settled, &[]),
    }
}

/// Puts the next built-in entity into the table of its ids, where so many stand in theirs.
fn put<A: Allocator + Copy>(
    archetypes: &mut Archetypes<A>,
    settled: u32,
    ids: &[SizedId],
) -> Result<(), Memory>
    requires few { settled < 22 }
    requires before { IsSettled (holdings_of archetypes.old) settled }
    requires tags { ids.now ≡ tags_of (settled + 1) }
    requires ascend { IsMap id_cmp ids.now }
    requires first { IsTrue (list_all is_first_tag ids.now) }
    ensures { OnOk result (IsSettled (holdings_of archetypes.new) (settled + 1)) }
{
    let entity = EntityId {
        index: settled + 1,
        generation: 0,
    };
    archetypes.settle(entity, ids)
}

/// The names of the built-in entities.
pub(crate) fn names<A: Allocator + Copy>(
    alloc: A,
    random: RandomState,
) -> Result<NameIndex<A>, Memory>
    ensures { IfOk result (λ n. AreFirstNames n 22) }
{
    bound(alloc, random, &NAMES)
}

/// These names, bound to the entities from index 1 on.
fn bound<A: Allocator + Copy>(
    alloc: A,
    random: RandomState,
    list: &[&str],
) -> Result<NameIndex<A>, Memory>
    requires { map (λ t. t.now) list.now ≡ built_in_names }
    ensures { IfOk result (λ n. AreFirstNames n 22) }
{
    let mut names = NameIndex::new(alloc, random);
    let mut count = 0;
    for name in list {
        count += 1;
        let entity = EntityId {
            index: count,
            generation: 0,
        };
        if names.bind(name, entity).is_err() {
            return Err(Memory);
        }
    }
    Ok(names)
}
