//! How a line is quoted, with marks under a part of it.
ghost use Rattle.std.specs.Prelude.{◌≡◌, ◌++◌, ◌<◌, ◌≤◌, OnOk, flat_map, length, map};
ghost use Rattle.script_explain.specs.Places.{IsWithin, gap, goes_on, mark, marks, shown};

use crate::parts::Part;
use std::alloc::{AllocError, Allocator};

/// A byte as it is quoted: one that a terminal may obey, and of a line that isn't UTF-8 one beyond ASCII, becomes `?`.
fn shown(is_text: bool, byte: u8) -> u8
    ensures { result ≡ shown is_text byte }
{
    if (byte < 32 && byte != b'\t') || byte == 127 || (byte >= 128 && !is_text) {
        b'?'
    } else {
        byte
    }
}

/// Whether a byte goes on with a character.
fn goes_on(is_text: bool, byte: u8) -> bool
    ensures { result ≡ goes_on is_text byte }
{
    is_text && byte >= 128 && byte < 192
}

/// Writes the bytes of a line as they are quoted.
pub(crate) fn write_quote<A: Allocator>(
    is_text: bool,
    line: &[u8],
    out: &mut Vec<u8, A>,
) -> Result<(), AllocError>
    ensures { OnOk result (out.new.items ≡ out.old.items ++ map (shown is_text) line.now) }
{
    for byte in line {
        out.push(shown(is_text, *byte))?;
    }
    Ok(())
}

/// Writes what stands under these bytes before the marks.
fn write_gap<A: Allocator>(
    is_text: bool,
    bytes: &[u8],
    out: &mut Vec<u8, A>,
) -> Result<(), AllocError>
    ensures { OnOk result (out.new.items ≡ out.old.items ++ flat_map (gap is_text) bytes.now) }
{
    for byte in bytes {
        if !goes_on(is_text, *byte) {
            out.push(if *byte == b'\t' { b'\t' } else { b' ' })?;
        }
    }
    Ok(())
}

/// Writes what stands under these bytes, which are marked.
fn write_run<A: Allocator>(
    is_text: bool,
    bytes: &[u8],
    out: &mut Vec<u8, A>,
) -> Result<(), AllocError>
    ensures { OnOk result (out.new.items ≡ out.old.items ++ flat_map (mark is_text) bytes.now) }
{
    for byte in bytes {
        if !goes_on(is_text, *byte) {
            out.push(b'^')?;
        }
    }
    Ok(())
}

/// Writes the line of marks under a part of a line: at least one, at the column where the part begins.
pub(crate) fn write_marks<A: Allocator>(
    is_text: bool,
    line: &[u8],
    part: Part,
    out: &mut Vec<u8, A>,
) -> Result<(), AllocError>
    requires { IsWithin line.now part }
    ensures { OnOk result (out.new.items ≡ out.old.items ++ marks is_text line.now part) }
{
    write_gap(is_text, &line[..part.start], out)?;
    out.push(b'^')?;
    if part.start < part.end {
        write_run(is_text, &line[part.start + 1..part.end], out)?;
    }
    Ok(())
}
