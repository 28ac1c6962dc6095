//! Which ids are traits, and which facts come to what is built in.
ghost use Rattle.std.specs.Prelude.{◌≡◌};
ghost use Rattle.std.specs.List.{list_any};
ghost use Rattle.ecs_model.specs.steps.Rules.{is_trait as is_trait_id};
ghost use Rattle.rel_traits.specs.Additions.{is_of_built_in};

use ecs_id::Id;
use ecs_model::built_ins::{
    COMPONENT, EXCLUSIVE, ON_DELETE, ON_DELETE_TARGET, ON_INSTANTIATE, PAIR_IS_TAG, WITH,
};
use ecs_model::{FactKey, LAST_BUILT_IN};

/// Whether an id is a trait of the component or relationship that holds it.
pub fn is_trait(id: Id) -> bool
    ensures { result ≡ is_trait_id id }
{
    let first = id.first();
    match id.second() {
        None => EXCLUSIVE <= first && first <= PAIR_IS_TAG,
        Some(_) => {
            first == WITH
                || first == ON_DELETE
                || first == ON_DELETE_TARGET
                || first == ON_INSTANTIATE
        }
    }
}

/// Whether one of the facts is of a built-in entity, or is the tag of components.
pub fn adds_built_in(facts: &[FactKey]) -> bool
    ensures { result ≡ list_any is_of_built_in facts.now }
{
    facts.iter().any(|fact| is_fixed(*fact))
}

/// Whether one fact is.
pub(crate) fn is_fixed(fact: FactKey) -> bool
    ensures { result ≡ is_of_built_in fact }
{
    let entity = fact.entity();
    1 <= entity && entity <= LAST_BUILT_IN || fact.id() == Id::plain(COMPONENT)
}
