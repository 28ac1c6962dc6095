//! What is found in a refused line: the part that is wrong, and advice.
ghost use Rattle.std.specs.Prelude.{◌≡◌, ◌≤◌, length, IfSome};
ghost use Rattle.script_explain.specs.Places.{IsWithin};

use crate::bytes::{len_without_blanks, place_of};
use crate::commands::{Command, command_of};
use crate::hints::hint_of;
use crate::names::{Sort, name_from};
use crate::parts::{Part, text_start, word_from};
use crate::ranges::{Range, range_of};
use crate::refusals::Refusal;
use crate::scripts::Script;
use std::alloc::Allocator;

/// What is said after the sentence of a kind.
#[derive(Clone, Copy)]
pub(crate) enum Advice<'a> {
    Nothing,
    /// A name that is near to an unknown one.
    Name(&'a [u8]),
    Sentence(&'static str),
    /// What a field takes.
    Range(Range),
    /// The name of a query is missing; the command has its form.
    QueryName(Command),
    /// The name of a query or its text is missing.
    QueryText(Command),
}

/// The part of a line that is wrong, and advice.
#[derive(Clone, Copy)]
pub(crate) struct Finding<'a> {
    pub part: Option<Part>,
    pub advice: Advice<'a>,
}

const DELETED: &str = "An earlier line made it, and it was deleted since.";

const DROPPED: &str = "An earlier line stored it, and it was dropped since.";

const REPORTING: &str =
    "An earlier line stored it as a monitor or an observer, which have no rows.";

/// A component has at most so many fields.
const MOST_FIELDS: usize = 8;

/// What is found in a line that was refused.
pub(crate) fn finding_of<'a, A: Allocator>(
    script: &'a Script<A>,
    line: &[u8],
    refusal: &Refusal,
) -> Finding<'a>
    ensures { IfSome result.part (IsWithin line.now) }
{
    let (part, advice) = match part_and_advice(script, line, refusal) {
        (None, advice) => (None, advice),
        (Some(part), advice) => (Some(part.clamped(line)), advice),
    };
    Finding { part, advice }
}

/// The same. (That the part is within the line is made sure of afterwards.)
fn part_and_advice<'a, A: Allocator>(
    script: &'a Script<A>,
    line: &[u8],
    refusal: &Refusal,
) -> (Option<Part>, Advice<'a>) {
    let word = word_from(line, 0);
    let Some(command) = command_of(word.of(line)) else {
        return (None, Advice::Nothing);
    };
    let span = part_of_span(line, command, refusal.span);
    match refusal.kind {
        "UnknownName" => {
            let name = span.or(unknown_name(script, line, command, word.end));
            (name, name_advice(script, line, name))
        }
        "UnknownQuery" => {
            let name = word_from(line, word.end);
            (Some(name), query_advice(script, command, name.of(line)))
        }
        "BadName" => {
            let name = name_from(line, command, word.end);
            (Some(name), bad_name_advice(command, name.of(line)))
        }
        "Range" => value_and_range(script, line, word.end),
        "Syntax" if is_without_text(line, command) => (span, Advice::QueryText(command)),
        kind => (span, hint_advice(kind, line, span)),
    }
}

/// The part of a line that a span of its query's text is.
fn part_of_span(line: &[u8], command: Command, span: Option<(usize, usize)>) -> Option<Part> {
    let (start, end) = span?;
    let text = text_start(line, command.words_before_text());
    let room = line.len() - text;
    let start = text + start.min(room);
    let end = (text + end.min(room)).max(start);
    Some(Part { start, end })
}

/// What the table of hints has at a part of a line.
fn hint_advice<'a>(kind: &str, line: &[u8], part: Option<Part>) -> Advice<'a> {
    let Some(part) = part else {
        return Advice::Nothing;
    };
    match hint_of(kind, line, part) {
        Some(hint) => Advice::Sentence(hint),
        None => Advice::Nothing,
    }
}

/// Whether a line that stores a query ends where the query's text would begin.
fn is_without_text(line: &[u8], command: Command) -> bool {
    let words = command.words_before_text();
    words > 1 && text_start(line, words) >= len_without_blanks(line)
}

/// Which name of a command on the world no entity has, as far as the line and the names that are kept tell it: the
/// line's only name, or the first that no line made.
fn unknown_name<A: Allocator>(
    script: &Script<A>,
    line: &[u8],
    command: Command,
    from: usize,
) -> Option<Part>
    requires { from ≤ length line.now }
{
    let mut only = None;
    let mut are_several = false;
    for part in references_of(line, command, from) {
        let name = part.bytes_in(line);
        if matches!(name, [] | [b'#', ..]) {
            continue;
        }
        if script.is_new(name) {
            return Some(part);
        }
        are_several = only.is_some();
        only = Some(part);
    }
    if are_several { None } else { only }
}

/// The entity of a command on the world, and the parts of its id: empty where there are none.
fn references_of(line: &[u8], command: Command, from: usize) -> [Part; 3]
    requires { from ≤ length line.now }
{
    let entity = word_from(line, from);
    match command {
        Command::Add | Command::Set | Command::Remove => {
            let id = id_from(line, entity.end);
            [entity, id.first, id.target]
        }
        _ => [entity, Part::EMPTY, Part::EMPTY],
    }
}

/// An id: its plain reference or its relationship, its target, which is empty where it has none, and its end.
#[derive(Clone, Copy)]
struct IdParts {
    first: Part,
    target: Part,
    end: usize,
}

/// The next id of a line.
fn id_from(line: &[u8], from: usize) -> IdParts
    requires { from ≤ length line.now }
    ensures { result.end ≤ length line.now }
{
    let word = word_from(line, from);
    let rest = &line[word.start..];
    let places = (place_of(rest, b','), place_of(rest, b')'));
    match places {
        (Some(comma), Some(close))
            if rest.starts_with(b"(".as_slice()) && 0 < comma && comma < close => {
            let comma = word.start + comma;
            let close = word.start + close;
            IdParts {
                first: word_from(&line[..comma], word.start + 1),
                target: word_from(&line[..close], comma + 1),
                end: close + 1,
            }
        }
        _ => IdParts {
            first: word,
            target: Part::EMPTY,
            end: word.end,
        },
    }
}

/// What is said of a name that no entity has.
fn name_advice<'a, A: Allocator>(
    script: &'a Script<A>,
    line: &[u8],
    part: Option<Part>,
) -> Advice<'a> {
    let Some(found) = part else {
        return Advice::Nothing;
    };
    let name = found.bytes_in(line);
    if script.has_made(name) {
        return Advice::Sentence(DELETED);
    }
    match script.nearest_entity(name) {
        Some(nearest) => Advice::Name(nearest),
        None => hint_advice("UnknownName", line, part),
    }
}

/// What is said of a name that no query has.
fn query_advice<'a, A: Allocator>(
    script: &'a Script<A>,
    command: Command,
    name: &[u8],
) -> Advice<'a> {
    let is_rows = matches!(command, Command::Rows);
    match (script.stored(name), is_rows) {
        (Some(Sort::Reporting), true) => return Advice::Sentence(REPORTING),
        (Some(_), _) => return Advice::Sentence(DROPPED),
        (None, _) => {}
    }
    match script.nearest_query(name, is_rows) {
        Some(nearest) => Advice::Name(nearest),
        None => Advice::Nothing,
    }
}

/// What is said of a new name that is none: before the text of a query it may be missing.
fn bad_name_advice<'a>(command: Command, name: &[u8]) -> Advice<'a> {
    if command.words_before_text() > 1 && has_mark(name) {
        Advice::QueryName(command)
    } else {
        Advice::Nothing
    }
}

/// Whether a mark that the text of a query has, and no name, stands in a word.
fn has_mark(word: &[u8]) -> bool {
    for byte in word {
        if b"(),!?$*|{}[]=".contains(byte) {
            return true;
        }
    }
    false
}

/// The first value of a `set` that is outside the range of its field's kind, where the component's fields are known.
fn value_and_range<'a, A: Allocator>(
    script: &Script<A>,
    line: &[u8],
    from: usize,
) -> (Option<Part>, Advice<'a>)
    requires { from ≤ length line.now }
{
    let entity = word_from(line, from);
    let id = id_from(line, entity.end);
    let fields = script.fields_of(id.first.bytes_in(line));
    match fields.or(script.fields_of(id.target.bytes_in(line))) {
        Some(fields) => value_outside(fields, line, id.end),
        None => (None, Advice::Nothing),
    }
}

/// The first value that is outside the range of its field's kind.
fn value_outside<'a>(fields: &[u8], line: &[u8], from: usize) -> (Option<Part>, Advice<'a>)
    requires { from ≤ length line.now }
{
    let mut field_at = 0;
    let mut at = from;
    for _ in 0..MOST_FIELDS {
        let field = word_from(fields, field_at);
        let value = word_from(line, at);
        if let Some(range) = range_of_field(field.of(fields))
            && range.excludes(value.of(line))
        {
            return (Some(value), Advice::Range(range));
        }
        field_at = field.end;
        at = value.end;
    }
    (None, Advice::Nothing)
}

/// The range of a field's kind.
fn range_of_field(field: &[u8]) -> Option<Range> {
    let colon = place_of(field, b':')?;
    range_of(&field[colon + 1..])
}
