//! Texts that are kept from row to row, since neighbouring rows mostly show the same.

ghost use Rattle.std.specs.Prelude.{◌≡◌, ◌+◌, ◌<◌, ◌≤◌, ◌++◌, ◌↔◌, All, IfOk, IsTrue, OnOk, Some, codes, length, take};
ghost use Rattle.ecs_model.specs.Print.{id_text, index_text};
ghost use Rattle.ecs_model.specs.World.{WorldState};
ghost use Rattle.world_query.specs.Lines.{IsAskedOnce, IsEntityText, IsKept, IsLabel, IsLabelOf, IsTextAt};
ghost use Rattle.world_query.specs.Lines.{binding_start, field_end, text_of};

use crate::sheet::{make_room, put_at};
use ecs_id::Id;
use ecs_print::{write_id, write_index};
use ecs_schema::Schema;
use ecs_world::World;
use std::alloc::{AllocError, Allocator};

/// A text with room after it, as a sheet needs it: the first `count` bytes are the text.
#[derive(Drop)]
pub(crate) struct PaddedText<B: Allocator> {
    pub(crate) bytes: Vec<u8, B>,
    pub(crate) count: usize,
}

/// An entity by its index, with its text: the first `alone` bytes. With the bracket that closes a field it is the first
/// `closed`, and with the end of the line after that the first `ended`. Of no entity yet, it has no bytes.
#[derive(Drop)]
pub(crate) struct EntityText<B: Allocator> {
    pub(crate) index: u64,
    pub(crate) bytes: Vec<u8, B>,
    pub(crate) alone: usize,
    pub(crate) closed: usize,
    pub(crate) ended: usize,
}

/// In place of an index: above that of any entity, so one comparison decides whose a text is.
const NOBODY: u64 = 1 << 32;

/// An id with what all fields of it share: how they begin, ` [ID@`, and the fields of its values. Of no id yet, it has
/// neither.
#[derive(Drop)]
pub(crate) struct Label<'w, A: Allocator, B: Allocator> {
    pub(crate) id: Option<Id>,
    pub(crate) text: PaddedText<B>,
    pub(crate) schema: Option<&'w Schema<A>>,
}

impl<B: Allocator> PaddedText<B> {
    /// How a row begins with the binding of a variable: `row $v=`.
    pub(crate) fn first_binding(alloc: B, name: &[u8]) -> Result<Self, AllocError>
        ensures { IfOk result (λ p. text_of p ≡ codes "row" ++ binding_start name.now) }
    {
        let mut bytes = Vec::new(alloc);
        bytes.extend_from_slice(b"row $")?;
        bytes.extend_from_slice(name)?;
        bytes.extend_from_slice(b"=")?;
        let mut piece = PaddedText { bytes, count: 0 };
        piece.close()?;
        Ok(piece)
    }

    /// How the binding of a variable begins: ` $v=`.
    pub(crate) fn binding(alloc: B, name: &[u8]) -> Result<Self, AllocError>
        ensures { IfOk result (λ p. text_of p ≡ binding_start name.now) }
    {
        let mut bytes = Vec::new(alloc);
        bytes.extend_from_slice(b" $")?;
        bytes.extend_from_slice(name)?;
        bytes.extend_from_slice(b"=")?;
        let mut piece = PaddedText { bytes, count: 0 };
        piece.close()?;
        Ok(piece)
    }

    /// Takes all that was written as its text, and makes room after it.
    fn close(&mut self) -> Result<(), AllocError>
        ensures { OnOk result (text_of self.new ≡ ((self.old).bytes).items) }
    {
        self.count = self.bytes.len();
        make_room(&mut self.bytes)
    }
}

impl<B: Allocator> EntityText<B> {
    /// A text of no entity. It takes no memory.
    pub(crate) fn new(alloc: B) -> Self
        ensures { (w : WorldState) → IsKept w result }
    {
        EntityText {
            index: NOBODY,
            bytes: Vec::new(alloc),
            alone: 0,
            closed: 0,
            ended: 0,
        }
    }

    /// Whether it is the text of the entity at an index.
    #[inline(always)]
    pub(crate) fn is_of(&self, index: u32) -> bool
        ensures { IsTrue result ↔ ((self.now).index ≡ index) }
    {
        self.index == u64::from(index)
    }

    /// Becomes the text of an entity: its name or handle, and nothing where none lives. A name for which there is room
    /// is copied at once.
    #[inline(always)]
    fn change_to<A: Allocator>(&mut self, world: &World<A>, index: u32) -> Result<(), AllocError>
        requires { 0 < length ((self.old).bytes).items → 32 ≤ length ((self.old).bytes).items }
        ensures index { OnOk result (self.new.index ≡ index) }
        ensures text { OnOk result (IsEntityText world.now.state self.new) }
    {
        world.keeps();
        if let Some(name) = world.name_of(index) {
            let name = name.as_bytes();
            if name.len() + 2 <= self.bytes.len() {
                self.take_name(name);
                self.index = u64::from(index);
                return Ok(());
            }
        }
        self.rewrite(world, index)
    }

    /// Takes a name for which there is room.
    fn take_name(&mut self, name: &[u8])
        requires { length name.now + 2 ≤ length ((self.old).bytes).items }
        ensures alone { take self.new.alone ((self.new).bytes).items ≡ name.now }
        ensures closed { take self.new.closed ((self.new).bytes).items ≡ name.now ++ codes "]" }
        ensures ended { take self.new.ended ((self.new).bytes).items ≡ name.now ++ codes "]\n" }
        ensures long { length ((self.new).bytes).items ≡ length ((self.old).bytes).items }
    {
        let count = name.len();
        put_at(name, 0, &mut self.bytes);
        self.bytes[count] = b']';
        self.bytes[count + 1] = b'\n';
        self.alone = count;
        self.closed = count + 1;
        self.ended = count + 2;
    }

    /// How many bytes are the text with the bracket that closes a field, and after the last one the end of the line.
    #[inline(always)]
    pub(crate) fn closing<A: Allocator>(&self, world: &World<A>, is_last: bool) -> usize
        requires { IsEntityText world.now.state self.now }
        ensures { take result ((self.now).bytes).items ≡ index_text world.now.state (self.now).index
            ++ field_end is_last }
    {
        if is_last { self.ended } else { self.closed }
    }

    /// Becomes the text of an entity, and makes room after it.
    #[inline(never)]
    fn rewrite<A: Allocator>(&mut self, world: &World<A>, index: u32) -> Result<(), AllocError>
        ensures index { OnOk result (self.new.index ≡ index) }
        ensures text { OnOk result (IsEntityText world.now.state self.new) }
    {
        self.bytes.clear();
        write_index(world, index, &mut self.bytes)?;
        self.alone = self.bytes.len();
        self.bytes.extend_from_slice(b"]")?;
        self.closed = self.bytes.len();
        self.bytes.extend_from_slice(b"\n")?;
        self.ended = self.bytes.len();
        self.index = u64::from(index);
        make_room(&mut self.bytes)
    }
}

impl<'w, A: Allocator, B: Allocator> Label<'w, A, B> {
    /// A label of no id.
    pub(crate) fn new(alloc: B) -> Self
        ensures { (w : WorldState) → IsLabel w result }
    {
        Label {
            id: None,
            text: PaddedText {
                bytes: Vec::new(alloc),
                count: 0,
            },
            schema: None,
        }
    }

    /// Becomes the label of an id, if it isn't yet.
    #[inline(always)]
    pub(crate) fn turn_to(&mut self, world: &'w World<A>, id: Id) -> Result<(), AllocError>
        requires { IsLabel world.now.state self.old }
        ensures id { OnOk result (self.new.id ≡ Some id) }
        ensures label { OnOk result (IsLabelOf world.now.state self.new id) }
    {
        if let Some(last) = self.id {
            if last == id {
                return Ok(());
            }
        }
        self.change_to(world, id)
    }

    /// Becomes the label of an id.
    fn change_to(&mut self, world: &'w World<A>, id: Id) -> Result<(), AllocError>
        ensures id { OnOk result (self.new.id ≡ Some id) }
        ensures label { OnOk result (IsLabelOf world.now.state self.new id) }
    {
        self.text.bytes.clear();
        self.text.bytes.extend_from_slice(b" [")?;
        write_id(world, id, &mut self.text.bytes)?;
        self.text.bytes.extend_from_slice(b"@")?;
        self.text.close()?;
        self.schema = world.type_of(id);
        self.id = Some(id);
        Ok(())
    }
}

/// The place where an entity's text stands: this place of a row, or one before it. Where none of them has it, it is
/// looked up into this one.
#[inline(always)]
pub(crate) fn place_of_text<A: Allocator, B: Allocator>(
    world: &World<A>,
    texts: &mut [EntityText<B>],
    place: usize,
    entity: u32,
) -> Result<usize, AllocError>
    requires place { place < length texts.old }
    requires texts { All (IsKept world.now.state) texts.old }
    ensures texts { OnOk result (All (IsKept world.now.state) texts.new) }
    ensures place { IfOk result (IsTextAt world.now.state texts.new entity) }
    ensures once { OnOk result (IsAskedOnce texts.old texts.new entity place) }
{
    if texts[place].is_of(entity) {
        return Ok(place);
    }
    for before in 0..place {
        if texts[before].is_of(entity) {
            return Ok(before);
        }
    }
    texts[place].change_to(world, entity)?;
    Ok(place)
}

/// The same at the place of a field: most fields are of the entity that a row shows first, so the first place is asked
/// before the others.
#[inline(always)]
pub(crate) fn place_of_source<A: Allocator, B: Allocator>(
    world: &World<A>,
    texts: &mut [EntityText<B>],
    place: usize,
    entity: u32,
) -> Result<usize, AllocError>
    requires place { place < length texts.old }
    requires texts { All (IsKept world.now.state) texts.old }
    ensures texts { OnOk result (All (IsKept world.now.state) texts.new) }
    ensures place { IfOk result (IsTextAt world.now.state texts.new entity) }
    ensures once { OnOk result (IsAskedOnce texts.old texts.new entity place) }
{
    if texts[0].is_of(entity) {
        return Ok(0);
    }
    place_of_text(world, texts, place, entity)
}
