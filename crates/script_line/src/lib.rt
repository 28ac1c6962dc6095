//! The lines of a script, a format of this product's own: reads one line into what it asks.
//!
//! Reading takes time linear in the line. Names and texts are slices of the line, and only fields and values are
//! allocated.
#![tactic(auto)]

ghost use Rattle.std.specs.Prelude.{◌≡◌, IfOk, IsTrue, MatchOption, nat_lt};
ghost use Rattle.std.specs.List.{list_all};
ghost use Rattle.std.specs.Str.{IsAscii, IsUtf8};
ghost use Rattle.ecs_model.specs.Script.{form_of};
ghost use Rattle.script_line.specs.Line.{form_opened, seen};

mod blanks;
mod decimals;
mod line_forms;
mod references;
mod words;

use ecs_model::Kind;
pub use ecs_model::references::{IdReference, Reference};
use ecs_model::watches::StoredKind;
pub use line_forms::{fact_behind, only_entity, only_word};
use std::alloc::{AllocError, Allocator, Global};
use std::str;

/// The greatest number of bytes that a line may have.
pub const MAX_LINE: usize = 4096;

/// What a line of a script asks.
#[derive(Drop)]
#[derive_where(Debug)]
pub enum Line<'a, A: Allocator = Global> {
    /// Nothing: the line is blank or a comment.
    Nothing,
    /// The line has more than 4,096 bytes.
    TooLong,
    /// The line is no UTF-8, or it fits no form.
    Bad,
    /// `new`: a new entity without a name.
    New,
    /// `entity N`: a new entity. The name is any word.
    Entity {
        name: &'a str,
    },
    /// `component N f:kind ..`: a new component with these fields. The names are any words, a field's may be empty.
    Component {
        name: &'a str,
        fields: Vec<(&'a str, Kind), A>,
    },
    /// `add E ID`: an entity gets a fact.
    Add {
        entity: Reference<'a>,
        id: IdReference<'a>,
    },
    /// `set E ID v ..`: a fact of an entity gets the values that were read, of which there is at least one.
    Set {
        entity: Reference<'a>,
        id: IdReference<'a>,
    },
    /// `remove E ID`: a fact of an entity goes.
    Remove {
        entity: Reference<'a>,
        id: IdReference<'a>,
    },
    /// `delete E`: an entity goes.
    Delete {
        entity: Reference<'a>,
    },
    /// `show E`: the facts of an entity are printed.
    Show {
        entity: Reference<'a>,
    },
    /// `query TEXT`: the rows of a query. The text has no blanks at its ends, and may be empty.
    Query {
        text: &'a str,
    },
    /// `keep N TEXT`, `monitor N TEXT` or `on EVENT N TEXT`: a new stored query. The name is any word. The text has no
    /// blanks at its ends, and may be empty.
    Store {
        kind: StoredKind,
        name: &'a str,
        text: &'a str,
    },
    /// `rows N`: the rows of a kept query. The name is any word.
    Rows {
        name: &'a str,
    },
    /// `drop N`: a stored query goes. The name is any word.
    Drop {
        name: &'a str,
    },
}

/// A line whose first word was read: of the forms that most lines have, what stands after it.
#[derive(Clone, Copy, Debug)]
pub enum Opening<'a> {
    /// The line is blank or a comment.
    Nothing,
    /// The line has more than 4,096 bytes.
    TooLong,
    /// The line is no UTF-8.
    Bad,
    /// `set ..`
    Set { rest: &'a str },
    /// `add ..`
    Add { rest: &'a str },
    /// `remove ..`
    Remove { rest: &'a str },
    /// `entity ..`
    Entity { rest: &'a str },
    /// `rows ..`
    Rows { rest: &'a str },
    /// `delete ..`
    Delete { rest: &'a str },
    /// `new`, and nothing after it.
    New,
    /// Any other line, from its start.
    Other { text: &'a str },
}

/// What a line does with a fact.
#[derive(Clone, Copy, Debug)]
pub enum Deed {
    Set,
    Add,
    Remove,
}

/// An entity and an id of which a line says something.
#[derive(Clone, Copy, Debug)]
pub struct Fact<'a> {
    pub entity: Reference<'a>,
    pub id: IdReference<'a>,
}

/// Reads the first word of a line, which is given without its line feed.
///
/// A line of more than 4,096 bytes is too long whatever it holds, and a comment may hold any bytes.
#[inline(always)]
pub fn line_opened(line: &[u8]) -> Opening<'_>
    ensures { form_opened result ≡ form_of line.now }
{
    if line.len() > MAX_LINE {
        return Opening::TooLong;
    }
    if line_forms::says_nothing(line) {
        return Opening::Nothing;
    }
    match text_of(line) {
        Some(text) => line_forms::text_opened(text),
        None => Opening::Bad,
    }
}

/// The text that bytes spell, if they are UTF-8. Most lines are ASCII, which is seen sooner.
#[inline(always)]
fn text_of(bytes: &[u8]) -> Option<&str>
    ensures { MatchOption result (¬ (IsUtf8 bytes.now)) (λ text. (text.now ≡ bytes.now) × IsUtf8 bytes.now) }
{
    if are_ascii(bytes) {
        // SAFETY: what is ASCII is UTF-8.
        return Some(unsafe { str::from_utf8_unchecked(bytes) });
    }
    other_text_of(bytes)
}

/// The text that bytes spell, if they are UTF-8.
#[cold]
#[inline(never)]
fn other_text_of(bytes: &[u8]) -> Option<&str>
    ensures { MatchOption result (¬ (IsUtf8 bytes.now)) (λ text. (text.now ≡ bytes.now) × IsUtf8 bytes.now) }
{
    str::from_utf8(bytes).ok()
}

/// Whether bytes are ASCII, which is asked of eight at a time, and then of the last eight; of fewer one by one.
#[inline(always)]
fn are_ascii(bytes: &[u8]) -> bool
    ensures { IsTrue result → IsAscii bytes.now }
{
    let Some(last) = bytes.len().checked_sub(8) else {
        return are_few_ascii(bytes);
    };
    let mut at = 0;
    'words: loop {
        let from = last.min(at);
        if !bytes[from..from + 8].is_ascii() {
            return false;
        }
        if last <= at {
            return true;
        }
        at += 8;
    }
}

/// Whether each of a few bytes is ASCII.
#[inline(always)]
fn are_few_ascii(bytes: &[u8]) -> bool
    ensures { result ≡ list_all (λ b. nat_lt b 128) bytes.now }
{
    bytes.iter().all(|byte| *byte < 128)
}

/// Reads a line whose first word was read.
///
/// The values of a `set` come into `values`, in place of what stood there, so that one list serves all lines of a
/// script. The only error is that memory for fields or values was refused.
pub fn read_opened<'a, A: Allocator + Copy>(
    alloc: A,
    opening: Opening<'a>,
    values: &mut Vec<i128, A>,
) -> Result<Line<'a, A>, AllocError>
    ensures { IfOk result (λ l. seen values.new.items l ≡ form_opened opening.entry) }
{
    match opening {
        Opening::Nothing => Ok(Line::Nothing),
        Opening::TooLong => Ok(Line::TooLong),
        Opening::Bad => Ok(Line::Bad),
        Opening::Set { rest } => line_forms::set_line(rest, values),
        Opening::Add { rest } => Ok(line_forms::add_line(rest)),
        Opening::Remove { rest } => Ok(line_forms::remove_line(rest)),
        Opening::Entity { rest } => Ok(line_forms::entity_line(rest)),
        Opening::Rows { rest } => Ok(line_forms::rows_line(rest)),
        Opening::Delete { rest } => Ok(line_forms::delete_line(rest)),
        Opening::New => Ok(Line::New),
        Opening::Other { text } => line_forms::read_form(alloc, text, values),
    }
}
