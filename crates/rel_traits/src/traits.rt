//! The traits of a component or relationship as a set of bits.
ghost use Rattle.std.specs.Prelude.{⊤, ◌≡◌, ◌≤◌, ◌<◌, ◌^◌, ◌==◌, ℕ, false, [], ◌∷◌, codes, slice_index_or};
ghost use Rattle.std.specs.Int.RustNames.{bit_and};
ghost use Rattle.ecs_id.specs.Id.{pair as pair_id, plain as plain_id};
ghost use Rattle.ecs_model.specs.Links.{is_held};
ghost use Rattle.rel_traits.specs.TraitBits.{bits_from, trait_ids};

use bitflags::{Flag, Flags, bitflag_items};
use ecs_id::Id;
use ecs_model::built_ins::{
    ACYCLIC, DELETE, DONT_INHERIT, EXCLUSIVE, INHERIT, ON_DELETE, ON_DELETE_TARGET, ON_INSTANTIATE,
    PAIR_IS_TAG, PANIC, REFLEXIVE, SYMMETRIC, TRANSITIVE, TRAVERSABLE,
};
use rel_travel::Graph;

/// Which traits a component or relationship has.
#[derive(Clone, Copy, PartialEq, Eq, Debug)]
pub struct TraitSet(u16);

bitflag_items! {
    impl TraitSet: u16 {
        const EXCLUSIVE = 1;
        const SYMMETRIC = 2;
        const TRANSITIVE = 4;
        const REFLEXIVE = 8;
        const ACYCLIC = 16;
        const TRAVERSABLE = 32;
        const PAIR_IS_TAG = 64;
        const ON_DELETE_DELETE = 128;
        const ON_DELETE_PANIC = 256;
        const ON_DELETE_TARGET_DELETE = 512;
        const ON_DELETE_TARGET_PANIC = 1024;
        const ON_INSTANTIATE_INHERIT = 2048;
        const ON_INSTANTIATE_DONT_INHERIT = 4096;
    }
}

impl Flags for TraitSet {
    type Bits = u16;

    ghost exact = { ⊤ };

    ghost table = { (codes "EXCLUSIVE", 1) ∷ (codes "SYMMETRIC", 2) ∷ (codes "TRANSITIVE", 4) ∷ (codes "REFLEXIVE", 8)
        ∷ (codes "ACYCLIC", 16)
        ∷ (codes "TRAVERSABLE", 32) ∷ (codes "PAIR_IS_TAG", 64) ∷ (codes "ON_DELETE_DELETE", 128)
        ∷ (codes "ON_DELETE_PANIC", 256)
        ∷ (codes "ON_DELETE_TARGET_DELETE", 512) ∷ (codes "ON_DELETE_TARGET_PANIC", 1024)
        ∷ (codes "ON_INSTANTIATE_INHERIT", 2048)
        ∷ (codes "ON_INSTANTIATE_DONT_INHERIT", 4096) ∷ [] };

    ghost set_of = { λ s. s.0 };

    fn flags<'a>() -> &'a [Flag<TraitSet>] {
        TraitSet::FLAGS
    }

    fn bits(&self) -> u16 {
        self.0
    }

    fn from_bits_retain(bits: u16) -> TraitSet {
        TraitSet(bits)
    }
}

/// The traits of an entity: each bit is set exactly if its fact is held, and no other bit is.
pub fn traits_of<G: Graph>(graph: &G, index: u32) -> TraitSet
    ensures held { (b : ℕ) → b < 13 → (bit_and result.0 (2 ^ b) == 2 ^ b)
        ≡ is_held (G.ids graph.now index) (slice_index_or trait_ids b (plain_id 0)) }
    ensures no_more { (b : ℕ) → 13 ≤ b → (bit_and result.0 (2 ^ b) == 2 ^ b) ≡ false }
{
    traits_among(graph.ids(index))
}

/// The traits of one that holds these ids: each bit is set exactly if its fact is among them, and no other bit is. It
/// takes one pass over the ids.
pub fn traits_among(ids: &[Id]) -> TraitSet
    ensures held { (b : ℕ) → b < 13 → (bit_and result.0 (2 ^ b) == 2 ^ b)
        ≡ is_held ids.now (slice_index_or trait_ids b (plain_id 0)) }
    ensures no_more { (b : ℕ) → 13 ≤ b → (bit_and result.0 (2 ^ b) == 2 ^ b) ≡ false }
{
    let mut traits = TraitSet::empty();
    for id in ids {
        traits.insert(flag_of(*id));
    }
    traits
}

/// The flag of an id that is one of these traits.
fn flag_of(id: Id) -> TraitSet
    ensures { result.0 ≡ bits_from (id ∷ []) 0 trait_ids }
{
    match id.second() {
        None => plain_flag(id.first()),
        Some(target) => pair_flag(id.first(), target),
    }
}

/// The flag of a trait that is a plain id.
fn plain_flag(index: u32) -> TraitSet
    ensures { result.0 ≡ bits_from (plain_id index ∷ []) 0 trait_ids }
{
    match index {
        EXCLUSIVE => TraitSet::EXCLUSIVE,
        SYMMETRIC => TraitSet::SYMMETRIC,
        TRANSITIVE => TraitSet::TRANSITIVE,
        REFLEXIVE => TraitSet::REFLEXIVE,
        ACYCLIC => TraitSet::ACYCLIC,
        TRAVERSABLE => TraitSet::TRAVERSABLE,
        PAIR_IS_TAG => TraitSet::PAIR_IS_TAG,
        _ => TraitSet::empty(),
    }
}

/// The flag of a trait that is a pair.
fn pair_flag(relationship: u32, target: u32) -> TraitSet
    ensures { result.0 ≡ bits_from (pair_id relationship target ∷ []) 0 trait_ids }
{
    match (relationship, target) {
        (ON_DELETE, DELETE) => TraitSet::ON_DELETE_DELETE,
        (ON_DELETE, PANIC) => TraitSet::ON_DELETE_PANIC,
        (ON_DELETE_TARGET, DELETE) => TraitSet::ON_DELETE_TARGET_DELETE,
        (ON_DELETE_TARGET, PANIC) => TraitSet::ON_DELETE_TARGET_PANIC,
        (ON_INSTANTIATE, INHERIT) => TraitSet::ON_INSTANTIATE_INHERIT,
        (ON_INSTANTIATE, DONT_INHERIT) => TraitSet::ON_INSTANTIATE_DONT_INHERIT,
        _ => TraitSet::empty(),
    }
}
