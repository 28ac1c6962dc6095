//! Which word of a line fits none of the forms, and why.
ghost use Rattle.std.specs.Prelude.{◌≡◌, ◌≤◌, length, IfErr, IfOk, IfSome};
ghost use Rattle.script_explain.specs.Places.{IsWithin};

use crate::bytes::{is_blank, is_number, len_without_blanks, place_of};
use crate::commands::{Command, command_of, nearest};
use crate::parts::{Part, word_from};
use crate::ranges::range_of;

/// Why a part of a line doesn't fit.
#[derive(Clone, Copy)]
pub(crate) enum Reason {
    /// The mark by which some editors begin a file.
    ByteOrderMark,
    NotUtf8,
    /// The word that a line begins with is none, and perhaps like one.
    Unknown(Option<Command>),
    /// The line ends too early.
    Missing,
    /// A word too many.
    Surplus,
    /// What looks like a comment after a command.
    Comment,
    Reference,
    Handle,
    Pair,
    Value,
    /// A value with a point.
    Fraction,
    Field,
    Kind,
    /// A field or a value with a comma.
    Comma,
    Event,
    /// Nothing was found.
    Unclear,
}

/// A part of a line that doesn't fit, why not, and the command of the line, if it has one.
#[derive(Clone, Copy)]
pub(crate) struct Misfit {
    pub part: Part,
    pub reason: Reason,
    pub command: Option<Command>,
}

/// The first part of a line that fits no form.
pub(crate) fn misfit_of(line: &[u8]) -> Misfit
    ensures { IsWithin line.now result.part }
{
    let word = word_from(line, 0);
    let command = command_of(word.of(line));
    let end = line.len();
    let (part, reason) = match line_fault(command, line, word) {
        Err(found) => found,
        Ok(()) => (Part { start: 0, end }, Reason::Unclear),
    };
    Misfit {
        part,
        reason,
        command,
    }
}

/// Reads a line that begins with this word, which is this command, if it is one.
fn line_fault(command: Option<Command>, line: &[u8], word: Part) -> OrMisfit<()>
    requires { IsWithin line.now word }
    ensures { IfErr result (λ e. IsWithin line.now e.0) }
{
    if line.starts_with(b"\xEF\xBB\xBF".as_slice()) {
        return Err((Part { start: 0, end: 3 }, Reason::ByteOrderMark));
    }
    if let Some(start) = broken_at(line) {
        return Err((Part { start, end: start }, Reason::NotUtf8));
    }
    match command {
        None => Err((word, Reason::Unknown(nearest(word.of(line))))),
        Some(command) => rest_fault(command, line, word.end),
    }
}

/// Where a line is no more UTF-8.
fn broken_at(line: &[u8]) -> Option<usize>
    ensures { IfSome result (λ at. at ≤ length line.now) }
{
    match std::str::from_utf8(line) {
        Ok(_) => None,
        Err(error) => Some(error.valid_up_to().min(line.len())),
    }
}

/// What was found in a line, or a part that doesn't fit.
type OrMisfit<T> = Result<T, (Part, Reason)>;

/// Reads what stands after a command.
fn rest_fault(command: Command, line: &[u8], from: usize) -> OrMisfit<()>
    requires { from ≤ length line.now }
    ensures { IfErr result (λ e. IsWithin line.now e.0) }
{
    match command {
        Command::New => no_more(line, from),
        Command::Entity | Command::Rows | Command::Drop => {
            let name = some_word(line, from)?;
            no_more(line, name.end)
        }
        Command::Delete | Command::Show => {
            let entity = entity_from(line, from)?;
            no_more(line, entity.end)
        }
        Command::Add | Command::Remove => {
            let id = id_of_fact(line, from)?;
            no_more(line, id.end)
        }
        Command::Set => {
            let id = id_of_fact(line, from)?;
            some_word(line, id.end)?;
            words_from(line, id.end, false)
        }
        Command::Component => {
            let name = some_word(line, from)?;
            words_from(line, name.end, true)
        }
        Command::Query => Ok(()),
        Command::Keep | Command::Monitor => {
            some_word(line, from)?;
            Ok(())
        }
        Command::On => {
            let event = event_from(line, from)?;
            some_word(line, event.end)?;
            Ok(())
        }
    }
}

/// The next word, which has to be there.
fn some_word(line: &[u8], from: usize) -> OrMisfit<Part>
    requires { from ≤ length line.now }
    ensures word { IfOk result (IsWithin line.now) }
    ensures missing { IfErr result (λ e. IsWithin line.now e.0) }
{
    let word = word_from(line, from);
    if word.start == word.end {
        Err((word, Reason::Missing))
    } else {
        Ok(word)
    }
}

/// No word more may stand in the line.
fn no_more(line: &[u8], from: usize) -> OrMisfit<()>
    requires { from ≤ length line.now }
    ensures { IfErr result (λ e. IsWithin line.now e.0) }
{
    let word = word_from(line, from);
    if word.start == word.end {
        return Ok(());
    }
    let reason = if begins_comment(word.of(line)) {
        Reason::Comment
    } else {
        Reason::Surplus
    };
    Err((word, reason))
}

/// Whether a word looks like the start of a comment.
fn begins_comment(word: &[u8]) -> bool {
    matches!(
        word,
        [b'/', b'/', ..] | [b'#'] | [b'#', b'#', ..] | [b'-', b'-', ..] | [b';', ..]
    )
}

/// The next word as an entity.
fn entity_from(line: &[u8], from: usize) -> OrMisfit<Part>
    requires { from ≤ length line.now }
    ensures word { IfOk result (IsWithin line.now) }
    ensures fault { IfErr result (λ e. IsWithin line.now e.0) }
{
    let word = some_word(line, from)?;
    match reference_fault(word.of(line)) {
        Some(reason) => Err((word, reason)),
        None => Ok(word),
    }
}

/// Why a word names no entity.
fn reference_fault(word: &[u8]) -> Option<Reason> {
    match word {
        [] => Some(Reason::Reference),
        _ if has_several_parts(word) => Some(Reason::Reference),
        [b'#', handle @ ..] if !is_handle(handle) => Some(Reason::Handle),
        _ => None,
    }
}

/// Whether a blank, a bracket or a comma stands in a word.
fn has_several_parts(word: &[u8]) -> bool {
    for byte in word {
        if is_blank(*byte) || matches!(*byte, b'(' | b')' | b',') {
            return true;
        }
    }
    false
}

/// Whether a text is that of a handle after its `#`.
fn is_handle(text: &[u8]) -> bool {
    match place_of(text, b'.') {
        None => false,
        Some(dot) => is_number(&text[..dot], 9) && is_generation(&text[dot + 1..]),
    }
}

/// Whether these are one to five digits of a number that is at most 65,535.
fn is_generation(digits: &[u8]) -> bool {
    is_number(digits, 5) && (digits.len() < 5 || digits <= b"65535".as_slice())
}

/// An id: an entity, or a pair.
fn id_from(line: &[u8], from: usize) -> OrMisfit<Part>
    requires { from ≤ length line.now }
    ensures word { IfOk result (IsWithin line.now) }
    ensures fault { IfErr result (λ e. IsWithin line.now e.0) }
{
    let word = some_word(line, from)?;
    if !word.of(line).starts_with(b"(".as_slice()) {
        return entity_from(line, from);
    }
    let Some(length) = place_of(&line[word.start..], b')') else {
        let end = len_without_blanks(line).max(word.end);
        return Err((Part { end, ..word }, Reason::Pair));
    };
    let end = word.start + length + 1;
    pair_at(line, Part { end, ..word })
}

/// The id after an entity.
fn id_of_fact(line: &[u8], from: usize) -> OrMisfit<Part>
    requires { from ≤ length line.now }
    ensures word { IfOk result (IsWithin line.now) }
    ensures fault { IfErr result (λ e. IsWithin line.now e.0) }
{
    let entity = entity_from(line, from)?;
    id_from(line, entity.end)
}

/// A pair in its brackets, after which a blank or the end of the line has to stand.
fn pair_at(line: &[u8], part: Part) -> OrMisfit<Part>
    requires { IsWithin line.now part }
    ensures word { IfOk result (IsWithin line.now) }
    ensures fault { IfErr result (λ e. IsWithin line.now e.0) }
{
    let after = word_from(line, part.end);
    if after.start == part.end && after.start < after.end {
        let end = after.end;
        return Err((Part { end, ..part }, Reason::Pair));
    }
    match pair_fault(part.of(line)) {
        Some(reason) => Err((part, reason)),
        None => Ok(part),
    }
}

/// Why a text in brackets is no pair.
fn pair_fault(text: &[u8]) -> Option<Reason> {
    let Some(comma) = place_of(text, b',') else {
        return Some(Reason::Pair);
    };
    let behind = &text[comma + 1..];
    let target = &behind[..behind.len().saturating_sub(1)];
    let relationship = &text[1.min(comma)..comma];
    match reference_fault(trimmed(relationship)).or(reference_fault(trimmed(target))) {
        Some(Reason::Reference) => Some(Reason::Pair),
        other => other,
    }
}

/// Bytes without the blanks at both ends.
fn trimmed(bytes: &[u8]) -> &[u8] {
    let bytes = &bytes[..len_without_blanks(bytes)];
    &bytes[crate::bytes::blanks_at_start(bytes)..]
}

/// Fields, or else values, up to the end of the line.
fn words_from(line: &[u8], from: usize, are_fields: bool) -> OrMisfit<()>
    requires { from ≤ length line.now }
    ensures { IfErr result (λ e. IsWithin line.now e.0) }
{
    let mut at = from;
    for _ in 0..line.len() {
        let word = word_from(line, at);
        if word.start == word.end {
            return Ok(());
        }
        if let Some(reason) = word_fault(word.of(line), are_fields) {
            return Err((word, reason));
        }
        at = word.end;
    }
    Ok(())
}

/// Why a word is no field, or else no value.
fn word_fault(word: &[u8], is_field: bool) -> Option<Reason> {
    if is_field {
        field_fault(word)
    } else {
        value_fault(word)
    }
}

/// Why a word is no value.
fn value_fault(word: &[u8]) -> Option<Reason> {
    let digits = match word {
        [b'-', digits @ ..] => digits,
        _ => word,
    };
    if is_number(digits, 38) {
        return None;
    }
    if begins_comment(word) {
        return Some(Reason::Comment);
    }
    if place_of(digits, b',').is_some() {
        return Some(Reason::Comma);
    }
    match place_of(digits, b'.') {
        Some(dot) if is_number(&digits[..dot], usize::MAX) => Some(Reason::Fraction),
        _ => Some(Reason::Value),
    }
}

/// Why a word is no field.
fn field_fault(word: &[u8]) -> Option<Reason> {
    match place_of(word, b':') {
        None if begins_comment(word) => Some(Reason::Comment),
        _ if place_of(word, b',').is_some() => Some(Reason::Comma),
        None => Some(Reason::Field),
        Some(colon) if range_of(&word[colon + 1..]).is_some() => None,
        Some(_) => Some(Reason::Kind),
    }
}

/// The next word as an event that is observed.
fn event_from(line: &[u8], from: usize) -> OrMisfit<Part>
    requires { from ≤ length line.now }
    ensures word { IfOk result (IsWithin line.now) }
    ensures fault { IfErr result (λ e. IsWithin line.now e.0) }
{
    let word = some_word(line, from)?;
    if is_event(word.of(line)) {
        Ok(word)
    } else {
        Err((word, Reason::Event))
    }
}

/// Whether a word is that of an event.
fn is_event(word: &[u8]) -> bool {
    matches!(word, b"add" | b"remove" | b"set")
}
