//! The indexes of the built-in entities that rules of change, of reach, of deletion, of copying and of queries name.

/// The relationship of children to their parents.
pub const CHILD_OF: u32 = 1;

/// The relationship that leads from an instance to its base.
pub const IS_A: u32 = 2;

/// The tag of components.
pub const COMPONENT: u32 = 3;

/// A tag of entities that queries pass over, unless they ask for it.
pub const PREFAB: u32 = 4;

/// Another such tag.
pub const DISABLED: u32 = 5;

/// A trait of a relationship: an entity has one target of it.
pub const EXCLUSIVE: u32 = 6;

/// A trait of a relationship: each of its pairs has a mirror.
pub const SYMMETRIC: u32 = 7;

/// A trait of a relationship: what leads to its end by a chain of pairs is reached.
pub const TRANSITIVE: u32 = 8;

/// A trait of a relationship: each entity is reached from itself.
pub const REFLEXIVE: u32 = 9;

/// A trait of a relationship: no chain of its pairs closes.
pub const ACYCLIC: u32 = 10;

/// A trait of a relationship: queries can go along it.
pub const TRAVERSABLE: u32 = 11;

/// A trait of a relationship: its pairs have no data.
pub const PAIR_IS_TAG: u32 = 12;

/// The relationship of the rules by which one component or relationship brings another.
pub const WITH: u32 = 13;

/// The relationship of the rules by which the users of a component or relationship go with it.
pub const ON_DELETE: u32 = 14;

/// The relationship of the rules by which the sources of a relationship's pairs go with their targets.
pub const ON_DELETE_TARGET: u32 = 15;

/// The target of these rules where the others are deleted too.
pub const DELETE: u32 = 17;

/// The target of these rules where the deletion is refused.
pub const PANIC: u32 = 18;

/// The relationship of the rules by which instances get facts of their bases.
pub const ON_INSTANTIATE: u32 = 19;

/// The target of these rules where instances read the facts on their bases.
pub const INHERIT: u32 = 21;

/// The target of these rules where instances have nothing of them.
pub const DONT_INHERIT: u32 = 22;
