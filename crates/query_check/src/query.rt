//! The checked query, and how it is built from a syntax without faults.

ghost use Rattle.std.specs.Prelude.{◌≡◌, ◌<◌, ◌≤◌, ◌==◌, ◌++◌, [], ◌∷◌, ◌↔◌, IsTrue, flat_map, fold, length, map};
ghost use Rattle.std.specs.Prelude.{option_map, slice_get, IfOk, MatchOption};
ghost use Rattle.std.specs.Prelude.{Some, Ok, Err};
ghost use Rattle.std.specs.List.{list_all, list_any};
ghost use Rattle.query_check.specs.Found.{AreFound, IsFound, follows_ref, inherited_ref};
ghost use Rattle.query_check.specs.Places.{IsRooted, IsTree, places_of};
ghost use Rattle.query_check.specs.Numbered.{places_from};
ghost use Rattle.query_check.specs.Seen.{level_uses, seen_cascading, seen_entry, seen_item, seen_occurrence};
ghost use Rattle.query_check.specs.Seen.{seen_piece, seen_use, seen_variable, syntax_of};
ghost use Rattle.query_model.specs.Levels.{Path, alternatives, level_of, placed_parts, with_alternatives};
ghost use Rattle.query_model.specs.Cascades.{cascades as cascades_in};
ghost use Rattle.query_model.specs.Query.{add_mention, cascade_of, chain_of, checked_equality, checked_query};
ghost use Rattle.query_model.specs.Query.{checked_term, entity_cascaded, entity_of};
ghost use Rattle.query_model.specs.Query.{checked_entries, is_definite_target, on_source_of, pieces_of, pieces_of_part};
ghost use Rattle.query_model.specs.Query.{ref_of, mention_of, mentioned_by};
ghost use Rattle.query_model.specs.Query.{is_as_checked, is_current, source_of, up_of, visible_names};
ghost use Rattle.query_model.specs.Faults.{fault_at};
ghost use Rattle.query_model.specs.Local.{is_local, is_simple};
ghost use Rattle.query_model.specs.Observers.{monitored, observed, whole};
ghost use Rattle.query_model.specs.Scope.{sightings};
ghost use Rattle.query_model.specs.Numbers.{numbers_from};
ghost use Rattle.query_check.specs.Terms.{item_terms, piece_terms, terms};
ghost use Rattle.query_model.specs.Query as specs;
ghost use Rattle.query_model.specs.Seen.{seen_flags, seen_part, seen_reference, seen_term};

use crate::cascades::Cascading;
use crate::copies::{copy_of_names, copy_of_pieces};
use crate::faults::fault_at;
use crate::local::{are_local, are_simple, has_must, is_one_term};
use crate::lookup::Lookup;
use crate::numbered::{Entry, Numbered, entry_in, places_of_entries};
use crate::numbers::{Variable, has_this, number_of, own_numbers, variables};
use crate::places::PartPlace;
use crate::scope::{Occurrence, alternative, name_of};
use crate::terms::terms;
use crate::uses::Use;
use ecs_id::EntityId;
use query_model::Span;
use query_model::faults::{Fault, FaultKind};
use query_model::query::{Mention, Ref, Term};
use query_model::syntax::{Flags, Part, Reference, Rise, Role, Spoken, TermSyntax};
use std::alloc::{AllocError, Allocator, Global};
use std::marker::Model;
use std::slice::from_ref;

/// The index of the built-in relationship ChildOf, along which a plain `up` or `cascade` asks.
const CHILD_OF: u32 = 1;

/// The index of IsA, which leads from an instance to its base.
const IS_A: u32 = 2;

/// An item that is no group.
#[derive(Debug, Drop)]
pub enum Item<A: Allocator = Global> {
    /// A term that must match.
    And(Term),
    /// A term that may match.
    Optional(Term),
    /// Alternatives.
    Or(Vec<Term, A>),
    /// A variable and a reference are one entity.
    Equal(usize, Ref),
    /// They are two.
    Differ(usize, Ref),
}

impl<A: Allocator> Item<A> {
    /// Its terms: one, or its alternatives. An equality has none.
    pub fn terms(&self) -> &[Term]
        ensures { result.now ≡ item_terms (seen_item self.now) }
    {
        match self {
            Item::And(term) | Item::Optional(term) => from_ref(term),
            Item::Or(terms) => terms.as_slice(),
            Item::Equal(_, _) | Item::Differ(_, _) => &[],
        }
    }
}

/// A piece of a query in the order of its text.
#[derive(Debug, Drop)]
pub enum Piece<A: Allocator = Global> {
    Item(Item<A>),
    /// The beginning of a negated group: whether it was written as one term, and the numbers of its own variables.
    Opening(bool, Vec<usize, A>),
    /// The end of the innermost group.
    Closing,
}

/// A checked query: names are entities, understood sources and flags are written out, and variables go by numbers.
///
/// Items go by numbers too, in the order of the text, a group before the items inside it; a Not term is a group with
/// one item.
pub struct Query<A: Allocator = Global> {
    variables: Vec<Vec<u8, A>, A>,
    has_this: bool,
    pieces: Vec<Piece<A>, A>,
    cascade: Option<EntityId>,
    numbered: Vec<Numbered, A>,
    terms: Vec<Term, A>,
    mentions: Vec<Mention, A>,
    length: usize,
}

// By hand, so that the drops of its parts are proved here, and not again wherever one goes.
impl<A: Allocator> Drop for Query<A> {
    fn drop(self) {
        let Self {
            variables: _,
            has_this: _,
            pieces: _,
            cascade: _,
            numbered: _,
            terms: _,
            mentions: _,
            length: _,
        } = self;
    }
}

impl<A: Allocator> Model for Query<A> {
    ghost use Rattle.std.specs.Prelude.{◌≡◌, [], flat_map, map};
    ghost use Rattle.query_model.specs.Query as model;
    ghost use Rattle.query_check.specs.Terms.{piece_terms};
    ghost use Rattle.query_check.specs.Numbered.{places_from};
    ghost use Rattle.query_check.specs.Seen.{seen_piece};

    ghost Value = { model.Query };

    ghost view = { λ q. record {
      variables = map (λ n. n.items) q.variables.items;
      has_this = q.has_this;
      pieces = map seen_piece q.pieces.items;
      cascade = q.cascade;
      mentions = q.mentions.items;
      length = q.length;
    } };

    ghost invariant = { λ q. (q.numbered.items ≡ places_from 0 0 [] (map seen_piece q.pieces.items))
        × (q.terms.items ≡ flat_map piece_terms (map seen_piece q.pieces.items)) };
}

impl<A: Allocator> Query<A> {
    /// The names of the visible variables, without their `$`. They have the first numbers, in this order.
    pub fn variables(&self) -> &[Vec<u8, A>]
        ensures { map (λ n. n.items) result.now ≡ (self.now).variables }
    {
        self.variables.as_slice()
    }

    /// Whether `$this` is the first of them.
    pub fn has_this(&self) -> bool
        ensures { result ≡ (self.now).has_this }
    {
        self.has_this
    }

    /// The items in the order of the text, and the ends of groups.
    pub fn pieces(&self) -> &[Piece<A>]
        ensures { map seen_piece result.now ≡ (self.now).pieces }
    {
        self.pieces.as_slice()
    }

    /// The relationship along which the rows are ordered: by the depth of `$this`, where a term has `cascade`.
    pub fn cascade(&self) -> Option<EntityId>
        ensures { result ≡ (self.now).cascade }
    {
        self.cascade
    }

    /// How many items there are, groups and the items inside them among them. Their numbers are those below.
    pub fn items(&self) -> usize
        ensures { result ≡ length (checked_entries self.now) }
    {
        self.numbered.len()
    }

    /// Where each item and group stands, in the order of their numbers.
    pub fn entries(&self) -> &[Numbered]
        ensures { result.now ≡ places_from 0 0 [] (self.now).pieces }
    {
        self.numbered.as_slice()
    }

    /// The item or the group with a number, and its level.
    pub fn entry<'q>(&'q self, number: usize) -> Entry<'q, A>
        requires { number < length (checked_entries self.now) }
        ensures { slice_get (checked_entries self.now) number ≡ Some (seen_entry result) }
    {
        let at = self.numbered[number];
        entry_in(at.level, self.pieces.get(at.piece))
    }

    /// How many bytes its text has.
    pub fn length(&self) -> usize
        ensures { result ≡ (self.now).length }
    {
        self.length
    }

    /// The terms in the order of the text, those of alternatives and those inside groups too.
    pub fn terms(&self) -> &[Term]
        ensures { result.now ≡ terms self.now }
    {
        self.terms.as_slice()
    }

    /// The entities that the text names, each once, by first appearance.
    pub fn mentions(&self) -> &[Mention]
        ensures { result.now ≡ (self.now).mentions }
    {
        self.mentions.as_slice()
    }

    /// The fault of a query whose monitor is notified of entities that enter and leave its rows, which needs `$this`:
    /// NoThis at the whole text.
    pub fn monitor_fault(&self) -> Option<Fault>
        ensures { MatchOption result (monitored self.now ≡ Ok self.now) (λ fault. monitored self.now ≡ Err fault) }
    {
        if self.has_this {
            None
        } else {
            Some(self.fault(FaultKind::NoThis))
        }
    }

    /// The fault of a query whose observer is notified of ids that are added, removed or set: NoThis, or NotOneTerm
    /// where it isn't one term that must match, asks `$this` itself and names no other variable. Both are at the whole
    /// text.
    pub fn observer_fault(&self) -> Option<Fault>
        ensures { MatchOption result (observed self.now ≡ Ok self.now) (λ fault. observed self.now ≡ Err fault) }
    {
        if !self.has_this {
            return Some(self.fault(FaultKind::NoThis));
        }
        if is_one_term(self.pieces.as_slice()) {
            None
        } else {
            Some(self.fault(FaultKind::NotOneTerm))
        }
    }

    /// A fault of the whole text.
    fn fault(&self, kind: FaultKind) -> Fault
        ensures { result ≡ fault_at kind (whole self.now) }
    {
        let end = self.length;
        fault_at(kind, Span { start: 0, end })
    }

    /// Whether the query is local: `$this` is its one variable, and every term, inside groups too, asks it itself, for
    /// stored ids. Then an entity's own ids decide whether it is `$this` of an answer.
    pub fn is_local(&self) -> bool
        ensures { result ≡ is_local self.now }
    {
        self.has_this && self.variables.len() == 1 && are_local(self.pieces.as_slice())
    }

    /// Whether the query is simple: it has no groups and no equalities, every term asks `$this` itself for one stored
    /// id, and at least one must match.
    pub fn is_simple(&self) -> bool
        ensures { result ≡ is_simple self.now }
    {
        let pieces = self.pieces.as_slice();
        self.has_this && are_simple(pieces) && has_must(pieces)
    }

    /// Whether all that the text names is alive, with its traits as they were at the check.
    pub fn is_current<W: Lookup>(&self, world: &W) -> bool
        ensures { result ≡ is_current (W.known world.now) self.now }
    {
        are_as_checked(world, self.mentions.as_slice())
    }
}

impl<A: Allocator + Copy> Query<A> {
    /// The same query in memory of its own. Fails where memory is refused.
    pub fn try_clone(&self, alloc: A) -> Result<Self, AllocError>
        ensures { IfOk result (λ copy. copy ≡ self.now) }
    {
        Ok(Query {
            variables: copy_of_names(alloc, self.variables.as_slice())?,
            has_this: self.has_this,
            pieces: copy_of_pieces(alloc, self.pieces.as_slice())?,
            cascade: self.cascade,
            numbered: Vec::from_slice(alloc, self.numbered.as_slice())?,
            terms: Vec::from_slice(alloc, self.terms.as_slice())?,
            mentions: Vec::from_slice(alloc, self.mentions.as_slice())?,
            length: self.length,
        })
    }
}

fn are_as_checked<W: Lookup>(world: &W, mentions: &[Mention]) -> bool
    ensures { result ≡ list_all (is_as_checked (W.known world.now)) mentions.now }
{
    mentions.iter().all(|mention| is_as_checked(world, mention))
}

/// Whether an entity is alive, with its traits as they were at the check.
fn is_as_checked<W: Lookup>(world: &W, mention: &Mention) -> bool
    ensures { result ≡ is_as_checked (W.known world.now) mention.now }
{
    let index = mention.entity.index;
    world.is_alive(mention.entity)
        && world.is_traversable(index) == mention.traversable
        && world.is_transitive(index) == mention.transitive
        && world.is_reflexive(index) == mention.reflexive
        && world.is_inherited(index) == mention.inherited
}

/// The query of parts without faults, from a text of this length.
pub(crate) fn build<'a, A: Allocator + Copy, W: Lookup>(
    alloc: A,
    world: &W,
    parts: &[Part<'a>],
    text_length: usize,
    places: &[PartPlace],
    uses: &[Use<'a>],
    found: &[Occurrence<'a>],
    cascades: &[Cascading<'a>],
) -> Result<Query<A>, AllocError>
    requires places { places.now ≡ places_of (map seen_part parts.now) }
    requires length { length places.now ≡ length parts.now }
    requires tree { IsTree places.now }
    requires uses { map seen_use uses.now ≡ level_uses (map seen_part parts.now) }
    requires found { AreFound (W.known world.now) uses.now }
    requires occurrences { map seen_occurrence found.now ≡ sightings (map seen_part parts.now) }
    requires cascades { map seen_cascading cascades.now ≡ cascades_in (map seen_part parts.now) }
    ensures { IfOk result (λ query. query ≡ checked_query (W.known world.now)
        (syntax_of (map seen_part parts.now) text_length)) }
{
    let numbered = variables(alloc, parts, places, found)?;
    let numbered = numbered.as_slice();
    let scope = Scope {
        places,
        found,
        numbered,
    };
    let pieces = pieces(alloc, world, &scope, parts)?;
    let visible = visible_names(alloc, numbered)?;
    let mentions = mentions(alloc, world, uses)?;
    let terms = terms(alloc, pieces.as_slice())?;
    let entries = places_of_entries(alloc, pieces.as_slice())?;
    Ok(Query {
        variables: visible,
        has_this: has_this(parts, found),
        pieces,
        cascade: cascade_of(world, cascades),
        numbered: entries,
        terms,
        mentions,
        length: text_length,
    })
}

/// The relationship of the first `cascade`.
fn cascade_of<W: Lookup>(world: &W, cascades: &[Cascading<'_>]) -> Option<EntityId>
    ensures { result ≡ cascade_of (W.known world.now) (map seen_cascading cascades.now) }
{
    entity_cascaded(world, &cascades.first()?.along)
}

/// The entity after a `cascade`, ChildOf where none is written.
fn entity_cascaded<W: Lookup>(world: &W, along: &Option<Reference<'_>>) -> Option<EntityId>
    ensures { result ≡ entity_cascaded (W.known world.now) (option_map seen_reference along.now) }
{
    match along {
        None => Some(EntityId {
            index: CHILD_OF,
            generation: 0,
        }),
        Some(reference) => match reference.spoken {
            Spoken::Word(word) => world.find(word),
            _ => None,
        },
    }
}

/// The names of the variables of the whole query.
fn visible_names<A: Allocator + Copy>(
    alloc: A,
    numbered: &[Variable<'_>],
) -> Result<Vec<Vec<u8, A>, A>, AllocError>
    ensures { IfOk result (λ names. map (λ n. n.items) names.items ≡ visible_names (map seen_variable numbered.now)) }
{
    let mut names = Vec::with_capacity(alloc, numbered.len())?;
    for variable in numbered {
        if variable.level == 0 {
            names.push(copy_of(alloc, variable.name)?)?;
        }
    }
    Ok(names)
}

fn copy_of<A: Allocator>(alloc: A, bytes: &[u8]) -> Result<Vec<u8, A>, AllocError>
    ensures { IfOk result (λ copy. copy.items ≡ bytes.now) }
{
    Vec::from_slice(alloc, bytes)
}

/// The entities that references name, each once, with the traits on which the check relies.
fn mentions<A: Allocator, W: Lookup>(
    alloc: A,
    world: &W,
    uses: &[Use<'_>],
) -> Result<Vec<Mention, A>, AllocError>
    requires { AreFound (W.known world.now) uses.now }
    ensures { IfOk result (λ mentions. mentions.items ≡ fold (add_mention (W.known world.now)) []
        (flat_map (λ u. mentioned_by (W.known world.now) u.1) (map seen_use uses.now))) }
{
    let mut mentions = Vec::with_capacity(alloc, uses.len())?;
    for used in uses {
        add_named(world, used, &mut mentions)?;
    }
    Ok(mentions)
}

/// Adds the entity that a reference names, unless it is there.
fn add_named<A: Allocator, W: Lookup>(
    world: &W,
    used: &Use<'_>,
    mentions: &mut Vec<Mention, A>,
) -> Result<(), AllocError>
    requires { IsFound (W.known world.now) used.now }
    ensures { IfOk result (λ _. mentions.new.items ≡ fold (add_mention (W.known world.now)) mentions.old.items
        (mentioned_by (W.known world.now) (seen_use used.now).1)) }
{
    match used.entity {
        Some(entity) => add_mention(world, entity, mentions),
        None => Ok(()),
    }
}

fn add_mention<A: Allocator, W: Lookup>(
    world: &W,
    entity: EntityId,
    mentions: &mut Vec<Mention, A>,
) -> Result<(), AllocError>
    ensures { IfOk result (λ _. mentions.new.items ≡ add_mention (W.known world.now) mentions.old.items entity) }
{
    if !is_mentioned(mentions.as_slice(), entity.index) {
        mentions.push(mention_of(world, entity))?;
    }
    Ok(())
}

fn is_mentioned(mentions: &[Mention], index: u32) -> bool
    ensures { result ≡ list_any (λ m. (m.entity).index == index) mentions.now }
{
    mentions.iter().any(|mention| mention.entity.index == index)
}

fn mention_of<W: Lookup>(world: &W, entity: EntityId) -> Mention
    ensures { result ≡ mention_of (W.known world.now) entity }
{
    Mention {
        entity,
        traversable: world.is_traversable(entity.index),
        transitive: world.is_transitive(entity.index),
        reflexive: world.is_reflexive(entity.index),
        inherited: world.is_inherited(entity.index),
    }
}

/// What the references of a query are read by: the places of its parts, its variables where they occur, and by number.
#[derive(Clone, Copy)]
pub(crate) struct Scope<'s, 'a> {
    pub(crate) places: &'s [PartPlace],
    pub(crate) found: &'s [Occurrence<'a>],
    pub(crate) numbered: &'s [Variable<'a>],
}

/// The pieces of a query's parts.
pub(crate) fn pieces<A: Allocator + Copy, W: Lookup>(
    alloc: A,
    world: &W,
    scope: &Scope<'_, '_>,
    parts: &[Part<'_>],
) -> Result<Vec<Piece<A>, A>, AllocError>
    requires places { scope.now.places.now ≡ places_of (map seen_part parts.now) }
    requires length { length scope.now.places.now ≡ length parts.now }
    requires tree { IsTree scope.now.places.now }
    ensures { IfOk result (λ pieces. map seen_piece pieces.items
        ≡ flat_map (pieces_of_part (W.known world.now) (map seen_occurrence scope.now.found.now)
        (map seen_variable scope.now.numbered.now))
        (with_alternatives (placed_parts (map seen_part parts.now)))) }
{
    let mut pieces = Vec::new(alloc);
    for (i, part) in parts.iter().enumerate() {
        add_pieces(
            alloc,
            world,
            scope,
            scope.places[i].level,
            part,
            &parts[i + 1..],
            &mut pieces,
        )?;
    }
    Ok(pieces)
}

/// Adds the pieces of a part.
fn add_pieces<A: Allocator + Copy, W: Lookup>(
    alloc: A,
    world: &W,
    scope: &Scope<'_, '_>,
    level: usize,
    part: &Part<'_>,
    behind: &[Part<'_>],
    pieces: &mut Vec<Piece<A>, A>,
) -> Result<(), AllocError>
    requires tree { IsTree scope.now.places.now }
    requires within { level ≤ length scope.now.places.now }
    ensures { IfOk result (λ _. (path : Path) → level ≡ level_of path → IsRooted scope.now.places.now path
        → map seen_piece pieces.new.items ≡ map seen_piece pieces.old.items
        ++ pieces_of (W.known world.now) (map seen_occurrence scope.now.found.now)
        (map seen_variable scope.now.numbered.now) path
        (alternatives (map seen_part behind.now)) (seen_part part.now)) }
{
    match part {
        Part::Term(Role::And, term) => {
            add_chain(alloc, world, scope, level, term, behind, pieces)
        }
        Part::Term(Role::Or, _) => Ok(()),
        Part::Term(Role::Optional, term) => {
            let term = term_of(world, scope, level, term);
            add_item(Item::Optional(term), pieces)
        }
        Part::Term(Role::Not, term) => {
            add_opening(alloc, scope, level, true, pieces)?;
            let term = term_of(world, scope, level, term);
            add_item(Item::And(term), pieces)?;
            add_closing(pieces)
        }
        Part::Opened(_) => add_opening(alloc, scope, level, false, pieces),
        Part::Closed => add_closing(pieces),
        Part::Equality(left, same, right) => {
            add_item(equality(world, scope, level, left, *same, right), pieces)
        }
    }
}

// (a piece is large: each kind is made in a function of its own, so a part makes none of the others)

/// Adds an item.
fn add_item<A: Allocator>(item: Item<A>, pieces: &mut Vec<Piece<A>, A>) -> Result<(), AllocError>
    ensures { IfOk result (λ _. map seen_piece pieces.new.items
        ≡ map seen_piece pieces.old.items ++ specs.item (seen_item item) ∷ []) }
{
    pieces.reserve(1)?;
    pieces.push_reserved(Piece::Item(item));
    Ok(())
}

/// Adds the beginning of a group, with the numbers of its own variables.
fn add_opening<A: Allocator + Copy>(
    alloc: A,
    scope: &Scope<'_, '_>,
    level: usize,
    from_term: bool,
    pieces: &mut Vec<Piece<A>, A>,
) -> Result<(), AllocError>
    ensures { IfOk result (λ _. map seen_piece pieces.new.items
        ≡ map seen_piece pieces.old.items ++ specs.opening from_term
        (numbers_from 0 level (map seen_variable scope.now.numbered.now)) ∷ []) }
{
    pieces.reserve(1)?;
    let own = own_numbers(alloc, scope.numbered, level)?;
    pieces.push_reserved(Piece::Opening(from_term, own));
    Ok(())
}

/// Adds the end of a group.
fn add_closing<A: Allocator>(pieces: &mut Vec<Piece<A>, A>) -> Result<(), AllocError>
    ensures { IfOk result (λ _. map seen_piece pieces.new.items
        ≡ map seen_piece pieces.old.items ++ specs.closing ∷ []) }
{
    pieces.reserve(1)?;
    pieces.push_reserved(Piece::Closing);
    Ok(())
}

/// Adds the item of a term after which others stand: a term that must match, or alternatives.
fn add_chain<A: Allocator, W: Lookup>(
    alloc: A,
    world: &W,
    scope: &Scope<'_, '_>,
    level: usize,
    term: &TermSyntax<'_>,
    behind: &[Part<'_>],
    pieces: &mut Vec<Piece<A>, A>,
) -> Result<(), AllocError>
    requires tree { IsTree scope.now.places.now }
    requires within { level ≤ length scope.now.places.now }
    ensures { IfOk result (λ _. (path : Path) → level ≡ level_of path → IsRooted scope.now.places.now path
        → let term_at = checked_term (W.known world.now) (map seen_occurrence scope.now.found.now)
        (map seen_variable scope.now.numbered.now) path in
        map seen_piece pieces.new.items ≡ map seen_piece pieces.old.items
        ++ specs.item (chain_of (term_at (seen_term term.now)) (map term_at
        (alternatives (map seen_part behind.now)))) ∷ []) }
{
    let first = term_of(world, scope, level, term);
    if !has_alternative(behind) {
        return add_item(Item::And(first), pieces);
    }
    let mut all = Vec::new(alloc);
    all.push(first)?;
    add_alternatives(world, scope, level, behind, &mut all)?;
    add_item(Item::Or(all), pieces)
}

/// Whether parts begin with an alternative.
fn has_alternative(parts: &[Part<'_>]) -> bool
    ensures { IsTrue result ↔ 0 < length (alternatives (map seen_part parts.now)) }
{
    parts
        .first()
        .is_some_and(|part| alternative(part).is_some())
}

/// Adds what each of the alternatives at the beginning of parts asks.
fn add_alternatives<A: Allocator, W: Lookup>(
    world: &W,
    scope: &Scope<'_, '_>,
    level: usize,
    parts: &[Part<'_>],
    all: &mut Vec<Term, A>,
) -> Result<(), AllocError>
    requires tree { IsTree scope.now.places.now }
    requires within { level ≤ length scope.now.places.now }
    ensures { IfOk result (λ _. (path : Path) → level ≡ level_of path → IsRooted scope.now.places.now path
        → all.new.items ≡ all.old.items ++ map (checked_term (W.known world.now)
        (map seen_occurrence scope.now.found.now)
        (map seen_variable scope.now.numbered.now) path) (alternatives (map seen_part parts.now))) }
{
    for part in parts {
        let Some(term) = alternative(part) else {
            return Ok(());
        };
        all.push(term_of(world, scope, level, term))?;
    }
    Ok(())
}

/// What a term asks.
fn term_of<W: Lookup>(world: &W, scope: &Scope<'_, '_>, level: usize, term: &TermSyntax<'_>) -> Term
    requires tree { IsTree scope.now.places.now }
    requires within { level ≤ length scope.now.places.now }
    ensures { (path : Path) → level ≡ level_of path → IsRooted scope.now.places.now path
        → result ≡ checked_term (W.known world.now) (map seen_occurrence scope.now.found.now)
        (map seen_variable scope.now.numbered.now) path
        (seen_term term.now) }
{
    let risen = up_of(world, &term.flags);
    let component = ref_of(world, scope, level, &term.component);
    let closed = is_definite_target(&term.target) && risen.is_none() && follows(world, component);
    let reads_bases = term.flags.is_none() && !closed && is_inherited(world, component);
    let up = if reads_bases { Some(IS_A) } else { risen };
    Term {
        component,
        target: target_of(world, scope, level, &term.target),
        source: source_of(world, scope, level, &term.source),
        on_source: on_source_of(&term.flags),
        up,
        closed,
        shows_value: term.shows_value,
    }
}

fn target_of<W: Lookup>(
    world: &W,
    scope: &Scope<'_, '_>,
    level: usize,
    target: &Option<Reference<'_>>,
) -> Option<Ref>
    requires tree { IsTree scope.now.places.now }
    requires within { level ≤ length scope.now.places.now }
    ensures { (path : Path) → level ≡ level_of path → IsRooted scope.now.places.now path
        → result ≡ option_map (ref_of (W.known world.now) (map seen_occurrence scope.now.found.now)
        (map seen_variable scope.now.numbered.now) path)
        (option_map seen_reference target.now) }
{
    match target {
        Some(reference) => Some(ref_of(world, scope, level, reference)),
        None => None,
    }
}

/// The source of a term, `$this` where none is written.
fn source_of<W: Lookup>(
    world: &W,
    scope: &Scope<'_, '_>,
    level: usize,
    source: &Option<Reference<'_>>,
) -> Ref
    requires tree { IsTree scope.now.places.now }
    requires within { level ≤ length scope.now.places.now }
    ensures { (path : Path) → level ≡ level_of path → IsRooted scope.now.places.now path
        → result ≡ source_of (W.known world.now) (map seen_occurrence scope.now.found.now)
        (map seen_variable scope.now.numbered.now) path
        (option_map seen_reference source.now) }
{
    match source {
        Some(reference) => ref_of(world, scope, level, reference),
        None => Ref::Var(0),
    }
}

/// What a reference in a level stands for.
fn ref_of<W: Lookup>(
    world: &W,
    scope: &Scope<'_, '_>,
    level: usize,
    reference: &Reference<'_>,
) -> Ref
    requires tree { IsTree scope.now.places.now }
    requires within { level ≤ length scope.now.places.now }
    ensures { (path : Path) → level ≡ level_of path → IsRooted scope.now.places.now path
        → result ≡ ref_of (W.known world.now) (map seen_occurrence scope.now.found.now)
        (map seen_variable scope.now.numbered.now) path
        (seen_reference reference.now) }
{
    match reference.spoken {
        Spoken::Word(word) => Ref::Is(entity_of(world, word)),
        Spoken::Variable(name) => Ref::Var(number_of(scope, name_of(name), level)),
        Spoken::Any => Ref::Any,
        Spoken::AnyOnce => Ref::AnyOnce,
    }
}

/// The entity of a word, and 0 where there is none.
fn entity_of<W: Lookup>(world: &W, word: &str) -> u32
    ensures { result ≡ entity_of (W.known world.now) word.now }
{
    world.find(word).map_or(0, |entity| entity.index)
}

/// Whether a relationship is an entity with Transitive or Reflexive.
fn follows<W: Lookup>(world: &W, first: Ref) -> bool
    ensures { result ≡ follows_ref (W.known world.now) first }
{
    match first {
        Ref::Is(entity) => world.is_transitive(entity) || world.is_reflexive(entity),
        _ => false,
    }
}

/// Whether a component or relationship is an entity whose facts instances inherit.
fn is_inherited<W: Lookup>(world: &W, first: Ref) -> bool
    ensures { result ≡ inherited_ref (W.known world.now) first }
{
    match first {
        Ref::Is(entity) => world.is_inherited(entity),
        _ => false,
    }
}

fn is_definite_target(target: &Option<Reference<'_>>) -> bool
    ensures { result ≡ is_definite_target (option_map seen_reference target.now) }
{
    target.is_some_and(|reference| {
        matches!(reference.spoken, Spoken::Word(_) | Spoken::Variable(_))
    })
}

fn on_source_of(flags: &Option<Flags<'_>>) -> bool
    ensures { result ≡ on_source_of (option_map seen_flags flags.now) }
{
    flags.is_none_or(|flags| flags.on_source)
}

/// The relationship along which ancestors are asked, if any are: ChildOf where none is written.
fn up_of<W: Lookup>(world: &W, flags: &Option<Flags<'_>>) -> Option<u32>
    ensures { result ≡ up_of (W.known world.now) (option_map seen_flags flags.now) }
{
    let Some(flags) = flags else {
        return None;
    };
    match flags.rise {
        Rise::No => None,
        Rise::Up(_, None) => Some(CHILD_OF),
        Rise::Up(_, Some(along)) => match along.spoken {
            Spoken::Word(word) => Some(entity_of(world, word)),
            _ => None,
        },
    }
}

/// The item of an equality.
fn equality<A: Allocator, W: Lookup>(
    world: &W,
    scope: &Scope<'_, '_>,
    level: usize,
    left: &Reference<'_>,
    same: bool,
    right: &Reference<'_>,
) -> Item<A>
    requires tree { IsTree scope.now.places.now }
    requires within { level ≤ length scope.now.places.now }
    ensures { (path : Path) → level ≡ level_of path → IsRooted scope.now.places.now path
        → seen_item result ≡ checked_equality (W.known world.now) (map seen_occurrence scope.now.found.now)
        (map seen_variable scope.now.numbered.now) path
        (seen_reference left.now).spoken same (seen_reference right.now) }
{
    let other = ref_of(world, scope, level, right);
    let Spoken::Variable(name) = left.spoken else {
        return Item::Equal(0, other);
    };
    let number = number_of(scope, name_of(name), level);
    if same {
        Item::Equal(number, other)
    } else {
        Item::Differ(number, other)
    }
}
