//! What a checked query is made of, and what a reference is to its part.

ghost use Rattle.std.specs.Prelude.{◌≡◌};
ghost use Rattle.query_model.specs.Local.{asks_first, asks_one_id, is_direct, is_entity};
ghost use Rattle.query_model.specs.Observers.{is_constant, is_first};

use ecs_id::EntityId;

/// What a reference is to the part in which it stands.
#[derive(Clone, Copy, Debug, PartialEq, Eq)]
pub enum Position {
    Component,
    Source,
    Target,
    /// The relationship after `up` or `cascade`.
    Risen,
    /// The left side of an equality.
    Left,
    Right,
}

/// What a reference stands for.
#[derive(Clone, Copy, Debug, PartialEq, Eq)]
pub enum Ref {
    /// An entity by its index.
    Is(u32),
    /// A variable by its number.
    Var(usize),
    /// `*`
    Any,
    /// `_`
    AnyOnce,
}

impl Ref {
    /// Whether it is the first variable, which is `$this` where that occurs.
    pub fn is_first(self) -> bool
        ensures { result ≡ is_first self }
    {
        matches!(self, Ref::Var(0))
    }

    /// Whether it is no variable.
    pub fn is_constant(self) -> bool
        ensures { result ≡ is_constant self }
    {
        !matches!(self, Ref::Var(_))
    }

    pub fn is_entity(self) -> bool
        ensures { result ≡ is_entity self }
    {
        matches!(self, Ref::Is(_))
    }
}

/// A term: it asks for ids of its component, and target if it has one, on its source or on an ancestor of it.
#[derive(Clone, Copy, Debug, PartialEq, Eq)]
pub struct Term {
    pub component: Ref,
    pub target: Option<Ref>,
    pub source: Ref,
    /// Whether the source itself is asked.
    pub on_source: bool,
    /// The relationship along which ancestors are asked.
    pub up: Option<u32>,
    /// Whether it follows its relationship as transitive or reflexive.
    pub closed: bool,
    /// Whether its fields show values.
    pub shows_value: bool,
}

impl Term {
    /// Whether it asks its source alone, for ids that are stored.
    pub fn is_direct(&self) -> bool
        ensures { result ≡ is_direct self.now }
    {
        self.on_source && self.up.is_none() && !self.closed
    }

    /// Whether it asks the first variable so.
    pub fn asks_first(&self) -> bool
        ensures { result ≡ asks_first self.now }
    {
        self.source.is_first() && self.is_direct()
    }

    /// Whether it asks it for one id.
    pub fn asks_one_id(&self) -> bool
        ensures { result ≡ asks_one_id self.now }
    {
        self.asks_first() && self.component.is_entity() && self.target.map_or(true, Ref::is_entity)
    }
}

/// An entity that a query's text names, and its traits on which the check relied.
#[derive(Clone, Copy, Debug, PartialEq, Eq)]
pub struct Mention {
    pub entity: EntityId,
    pub traversable: bool,
    pub transitive: bool,
    pub reflexive: bool,
    /// Whether instances inherit its facts from their bases.
    pub inherited: bool,
}
