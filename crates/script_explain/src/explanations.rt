//! The text that explains a refused line.
ghost use Rattle.std.specs.Prelude.{◌≡◌, ◌≤◌, length, IfSome};
ghost use Rattle.script_explain.specs.Places.{IsWithin};

use crate::bytes::len_without_blanks;
use crate::commands::Command;
use crate::findings::{Advice, finding_of};
use crate::kinds::sentence_of;
use crate::misfits::{Misfit, Reason, misfit_of};
use crate::parts::Part;
use crate::quotes::{write_marks, write_quote};
use crate::refusals::Refusal;
use crate::scripts::Script;
use std::alloc::{AllocError, Allocator};

/// So many bytes of a line are quoted.
const MOST_QUOTED: usize = 160;

/// Writes what is wrong with a refused line of a script: where it stands and its kind, the line with marks under what
/// is wrong, a sentence, and advice.
pub(crate) fn write_explanation<A: Allocator>(
    file: &str,
    refusal: &Refusal,
    script: &Script<A>,
    out: &mut Vec<u8, A>,
) -> Result<(), AllocError> {
    write_parts(out, &[file, ":", refusal.number, ": ", refusal.kind, "\n"])?;
    let Some(line) = script.refused_line() else {
        write_sentence(refusal.kind, out)?;
        return write_text("\n", out);
    };
    if refusal.kind == "BadLine" {
        let misfit = misfit_of(line);
        write_quoted(line, Some(misfit.part), out)?;
        return write_misfit(line, &misfit, out);
    }
    let finding = finding_of(script, line, refusal);
    write_quoted(line, finding.part, out)?;
    write_sentence(refusal.kind, out)?;
    write_advice(finding.advice, out)?;
    write_text("\n", out)
}

/// Writes a text.
fn write_text<A: Allocator>(text: &str, out: &mut Vec<u8, A>) -> Result<(), AllocError> {
    out.extend_from_slice(text.as_bytes())
}

/// Writes texts one after the other.
fn write_parts<A: Allocator>(out: &mut Vec<u8, A>, parts: &[&str]) -> Result<(), AllocError> {
    for part in parts {
        out.extend_from_slice(part.as_bytes())?;
    }
    Ok(())
}

/// Writes the sentence of a kind.
fn write_sentence<A: Allocator>(kind: &str, out: &mut Vec<u8, A>) -> Result<(), AllocError> {
    match sentence_of(kind) {
        Some(sentence) => write_parts(out, &["  ", sentence]),
        None => Ok(()),
    }
}

/// Writes advice after a sentence.
fn write_advice<A: Allocator>(advice: Advice<'_>, out: &mut Vec<u8, A>) -> Result<(), AllocError> {
    match advice {
        Advice::Nothing => Ok(()),
        Advice::Sentence(sentence) => write_parts(out, &[" ", sentence]),
        Advice::Range(range) => write_parts(out, &[" ", range.text, "."]),
        Advice::Name(name) => write_name_meant(name, out),
        Advice::QueryName(command) => write_missing("name is", command, out),
        Advice::QueryText(command) => write_missing("name or its text is", command, out),
    }
}

/// Asks whether a name was meant.
fn write_name_meant<A: Allocator>(name: &[u8], out: &mut Vec<u8, A>) -> Result<(), AllocError> {
    write_text(" Did you mean `", out)?;
    write_quote(true, name, out)?;
    write_text("`?", out)
}

/// Writes what a command lacks of its query, and its form.
fn write_missing<A: Allocator>(
    lacking: &'static str,
    command: Command,
    out: &mut Vec<u8, A>,
) -> Result<(), AllocError> {
    write_parts(out, &[" The query's ", lacking, " missing: the form is `"])?;
    write_parts(out, &[command.form(), "`."])
}

/// Writes a line and the marks under a part of it. Of a long line its first bytes are quoted, up to the part at least.
fn write_quoted<A: Allocator>(
    line: &[u8],
    part: Option<Part>,
    out: &mut Vec<u8, A>,
) -> Result<(), AllocError>
    requires { IfSome part (IsWithin line.now) }
{
    let is_text = std::str::from_utf8(line).is_ok();
    write_start(is_text, line, quoted_end(line, part), out)?;
    match part {
        Some(part) => write_marked(is_text, line, part, out),
        None => Ok(()),
    }
}

/// Writes so many bytes of a line, and whether more follow.
fn write_start<A: Allocator>(
    is_text: bool,
    line: &[u8],
    end: usize,
    out: &mut Vec<u8, A>,
) -> Result<(), AllocError>
    requires { end ≤ length line.now }
{
    write_text("  ", out)?;
    write_quote(is_text, &line[..end], out)?;
    let is_whole = end >= len_without_blanks(line);
    write_text(if is_whole { "\n" } else { " ..\n" }, out)
}

/// Writes marks under a part of a line.
fn write_marked<A: Allocator>(
    is_text: bool,
    line: &[u8],
    part: Part,
    out: &mut Vec<u8, A>,
) -> Result<(), AllocError>
    requires { IsWithin line.now part }
{
    write_text("  ", out)?;
    write_marks(is_text, line, part, out)?;
    write_text("\n", out)
}

/// Up to where a line is quoted: without blanks at its end, and the first bytes of a long one, with the marked part.
fn quoted_end(line: &[u8], part: Option<Part>) -> usize
    requires { IfSome part (IsWithin line.now) }
    ensures { result ≤ length line.now }
{
    let least = match part {
        Some(part) => part.end,
        None => 0,
    };
    len_without_blanks(line).min(MOST_QUOTED).max(least)
}

/// Writes why a line fits no form.
fn write_misfit<A: Allocator>(
    line: &[u8],
    misfit: &Misfit,
    out: &mut Vec<u8, A>,
) -> Result<(), AllocError>
    requires { IsWithin line.now misfit.now.part }
{
    write_text("  ", out)?;
    if is_named(misfit.reason) {
        write_word(misfit.part.of(line), out)?;
    }
    write_text(reason_text(misfit.reason), out)?;
    match form_meant(misfit) {
        Some(command) => write_parts(out, &["`", command.form(), "`.\n"]),
        None => write_text("\n", out),
    }
}

/// Writes what doesn't fit, or that it is what is marked, where it is long.
fn write_word<A: Allocator>(word: &[u8], out: &mut Vec<u8, A>) -> Result<(), AllocError> {
    if word.len() > MOST_QUOTED {
        return write_text("What is marked ", out);
    }
    write_text("`", out)?;
    write_quote(true, word, out)?;
    write_text("` ", out)
}

/// The form that the line has, or the nearest one.
fn form_meant(misfit: &Misfit) -> Option<Command> {
    match misfit.reason {
        Reason::Unknown(nearest) => nearest,
        Reason::NotUtf8 | Reason::Unclear => None,
        _ => misfit.command,
    }
}

/// Whether a sentence begins with what doesn't fit.
fn is_named(reason: Reason) -> bool {
    !matches!(
        reason,
        Reason::ByteOrderMark
            | Reason::NotUtf8
            | Reason::Missing
            | Reason::Comment
            | Reason::Unclear
    )
}

/// What is wrong, up to the form that is meant.
fn reason_text(reason: Reason) -> &'static str {
    match reason {
        Reason::ByteOrderMark =>
            "The file begins with a byte order mark, which is no part of a line: save it as UTF-8 without one.",
        Reason::NotUtf8 => "From the mark on the line isn't UTF-8.",
        Reason::Unknown(Some(_)) => "is no command; the nearest form is ",
        Reason::Unknown(None) =>
            "is no command, and like none: `flecsq --help` lists the forms of lines.",
        Reason::Missing => "A word is missing here; the form is ",
        Reason::Surplus => "is a word too many; the form is ",
        Reason::Comment => "A comment is a line of its own, which begins with `//`; the form is ",
        Reason::Reference =>
            "is neither a name nor a handle, which have no brackets and commas; the form is ",
        Reason::Handle => "is no handle: that is `#index.generation`, as `#64.0`; the form is ",
        Reason::Pair =>
            "is no pair: that is `(RELATIONSHIP,TARGET)`, with a blank or nothing after it; the form is ",
        Reason::Value => "is no value: that is a whole number of at most 38 digits; the form is ",
        Reason::Fraction =>
            "is no value: values are whole numbers, and a fraction has to be scaled; the form is ",
        Reason::Field => "is no field: that is FIELD:KIND, as `x:i32`; the form is ",
        Reason::Kind =>
            "is no field: KIND is i8, u8, i16, u16, i32, u32, i64 or u64, and there are no floats; the form is ",
        Reason::Comma => "has a comma, and spaces separate fields and values; the form is ",
        Reason::Event => "is no event: that is add, remove or set; the form is ",
        Reason::Unclear => "The line fits none of the forms that `flecsq --help` lists.",
    }
}
