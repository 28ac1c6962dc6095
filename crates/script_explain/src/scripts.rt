//! A script as it is read, kept for its lines and the names that they make.
ghost use Rattle.std.specs.Prelude.{◌≤◌, length, IfSome};
ghost use Rattle.script_explain.specs.Nearness.{IsNear};

use crate::names::{Made, MadeNames, Names, Sort};
use crate::nearness::nearer;
use crate::parts::Part;
use memchr::memchr;
use std::alloc::{Allocator, Global};

/// For so many refused lines names are looked up.
const MOST_ADVISED: usize = 1_000;

/// In the order of their indexes.
static BUILT_IN: [&str; 22] = [
    "ChildOf",
    "IsA",
    "Component",
    "Prefab",
    "Disabled",
    "Exclusive",
    "Symmetric",
    "Transitive",
    "Reflexive",
    "Acyclic",
    "Traversable",
    "PairIsTag",
    "With",
    "OnDelete",
    "OnDeleteTarget",
    "Remove",
    "Delete",
    "Panic",
    "OnInstantiate",
    "Override",
    "Inherit",
    "DontInherit",
];

/// The bytes of a script that were read so far, in which lines are looked up by ascending numbers, and the names that
/// the lines before the last one looked up have made.
#[derive(Drop)]
pub struct Script<A: Allocator = Global> {
    bytes: Vec<u8, A>,
    /// Memory was refused: what came since isn't kept.
    is_cut: bool,
    /// The line that begins at a place, by its number from 0.
    line: usize,
    start: usize,
    /// This line is the refused one that was looked up last.
    is_refused: bool,
    /// So many refused lines were looked up.
    refused: usize,
    names: MadeNames<A>,

    ghost within: { start ≤ length bytes.items },
}

/// Whether a built-in entity has a name.
fn is_built_in(name: &[u8]) -> bool {
    for built_in in &BUILT_IN {
        if built_in.as_bytes() == name {
            return true;
        }
    }
    false
}

impl<A: Allocator + Copy> Script<A> {
    ghost use Rattle.std.specs.Prelude.{◌≤◌, length};

    /// Nothing was read.
    pub fn new(alloc: A) -> Self {
        Script {
            bytes: Vec::new(alloc),
            is_cut: false,
            line: 0,
            start: 0,
            is_refused: false,
            refused: 0,
            names: MadeNames::new(alloc),
        }
    }
}

impl<A: Allocator> Script<A> {
    ghost use Rattle.std.specs.Prelude.{◌≤◌, length};

    /// Keeps the bytes that came next. Where memory is refused, these and all later ones are lost.
    pub(crate) fn keep(&mut self, bytes: &[u8]) {
        if !self.is_cut && self.bytes.extend_from_slice(bytes).is_err() {
            self.is_cut = true;
        }
    }

    /// Goes on to the refused line of a number from 1 on, which is greater than that of the last call. Lines that are
    /// passed were accepted.
    pub(crate) fn go_to(&mut self, number: usize) {
        let line = number.saturating_sub(1);
        for _ in self.line..line {
            if !self.pass_line() {
                return;
            }
        }
        self.is_refused = true;
        self.refused = self.refused.saturating_add(1);
    }

    /// Goes on to the next line, and answers whether its start was kept.
    fn pass_line(&mut self) -> bool {
        let was_refused = self.is_refused;
        self.is_refused = false;
        let Some(length) = memchr(b'\n', &self.bytes[self.start..]) else {
            return false;
        };
        let end = self.start + length;
        if !was_refused {
            let start = self.start;
            self.names.note(&self.bytes, Part { start, end });
        }
        self.start = end + 1;
        self.line = self.line.saturating_add(1);
        true
    }

    /// The refused line that was looked up last, if all of it was kept.
    pub(crate) fn refused_line(&self) -> Option<&[u8]> {
        if !self.is_refused {
            return None;
        }
        let rest = &self.bytes[self.start..];
        match memchr(b'\n', rest) {
            Some(end) => Some(&rest[..end]),
            None if self.is_cut => None,
            None => Some(rest),
        }
    }

    /// The bytes of a part.
    fn text(&self, part: Part) -> &[u8] {
        part.bytes_in(&self.bytes)
    }

    /// What has these names. After so many refused lines they aren't looked at.
    fn made<'a>(&self, names: &'a Names<A>) -> &'a [Made] {
        if self.refused > MOST_ADVISED {
            &[]
        } else {
            names.made()
        }
    }

    /// The last of those with a name.
    fn last<'a>(&self, names: &'a Names<A>, name: &[u8]) -> Option<&'a Made> {
        let made = self.made(names);
        for last in made.iter().rev() {
            if self.text(last.name) == name {
                return Some(last);
            }
        }
        None
    }

    /// Whether an entity had a name, as far as the names are kept.
    pub(crate) fn has_made(&self, name: &[u8]) -> bool {
        self.last(&self.names.entities, name).is_some()
            || self.last(&self.names.components, name).is_some()
    }

    /// Whether no entity had or has a name.
    pub(crate) fn is_new(&self, name: &[u8]) -> bool {
        self.refused <= MOST_ADVISED
            && self.names.are_all_entities()
            && !self.has_made(name)
            && !is_built_in(name)
    }

    /// The words of the last line that made a component of this name, from the fields on.
    pub(crate) fn fields_of(&self, name: &[u8]) -> Option<&[u8]> {
        let made = self.last(&self.names.components, name)?;
        let fields = Part {
            start: made.name.end,
            end: made.end,
        };
        Some(self.text(fields))
    }

    /// What was stored last under a name.
    pub(crate) fn stored(&self, name: &[u8]) -> Option<Sort> {
        let made = self.last(&self.names.queries, name)?;
        Some(made.sort)
    }

    /// The name of an entity that is nearest to a word, if one is near.
    pub(crate) fn nearest_entity(&self, word: &[u8]) -> Option<&[u8]>
        ensures { IfSome result (λ name. IsNear word.now name.now) }
    {
        let mut found = None;
        for name in &BUILT_IN {
            found = nearer(word, found, name.as_bytes());
        }
        for made in self.made(&self.names.components) {
            found = nearer(word, found, self.text(made.name));
        }
        for made in self.made(&self.names.entities) {
            found = nearer(word, found, self.text(made.name));
        }
        let near = found?;
        Some(near.name)
    }

    /// The name of a query that is nearest to a word, if one is near.
    pub(crate) fn nearest_query(&self, word: &[u8], is_kept: bool) -> Option<&[u8]>
        ensures { IfSome result (λ name. IsNear word.now name.now) }
    {
        let mut found = None;
        for made in self.made(&self.names.queries) {
            if !is_kept || made.sort == Sort::Kept {
                found = nearer(word, found, self.text(made.name));
            }
        }
        let near = found?;
        Some(near.name)
    }
}
