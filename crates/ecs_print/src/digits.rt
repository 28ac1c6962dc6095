//! Numbers in decimal.
ghost use Rattle.std.specs.Prelude.{◌≡◌, ◌+◌, ◌^◌, ◌<◌, ◌≤◌, ◌∷◌, ◌++◌, OnErr, OnOk, decimal, drop, length, unsigned_abs};
ghost use Rattle.std.specs.Fmt.{signed_decimal};
ghost use Rattle.ecs_print.specs.Values.{behind_comma};

use itoa::{Buffer, write_digits};
use std::alloc::{AllocError, Allocator};

/// Writes a whole number in decimal. Where memory is refused, nothing is written.
pub fn write_number<A: Allocator>(number: usize, out: &mut Vec<u8, A>) -> Result<(), AllocError>
    ensures written { OnOk result (out.new.items ≡ out.old.items ++ decimal number) }
    ensures refused { OnErr result (out.new.items ≡ out.old.items) }
{
    let mut buffer = Buffer::new();
    out.extend_from_slice(buffer.format(number).as_bytes())
}

/// Writes a byte and a whole number right before `end`, and answers where they start.
pub(crate) fn write_marked(mark: u8, number: u64, text: &mut [u8], end: usize) -> usize
    requires room { 21 ≤ end }
    requires within { end ≤ length text.old }
    ensures room { end ≤ result + 21 }
    ensures some { result < end }
    ensures written { drop result text.new ≡ mark ∷ (decimal number ++ drop end text.old) }
{
    let start = write_whole(number, text, end) - 1;
    text[start] = mark;
    start
}

/// Writes a whole number right before `end`, and answers where it starts.
fn write_whole(number: u64, text: &mut [u8], end: usize) -> usize
    requires room { 21 ≤ end }
    requires within { end ≤ length text.old }
    ensures room { end ≤ result + 20 }
    ensures within { result ≤ end }
    ensures written { drop result text.new ≡ decimal number ++ drop end text.old }
{
    write_digits(number, text, end)
}

/// Writes a comma and a number of a value right before `end`, and answers where they start.
pub(crate) fn write_next(number: i128, text: &mut [u8], end: usize) -> usize
    requires word { unsigned_abs number < 2 ^ 64 }
    requires room { 22 ≤ end }
    requires within { end ≤ length text.old }
    ensures room { end ≤ result + 22 }
    ensures some { result < end }
    ensures written { drop result text.new ≡ behind_comma number ++ drop end text.old }
{
    let start = write_integer(number, text, end) - 1;
    text[start] = b',';
    start
}

/// Writes a number of a value right before `end`, and answers where it starts.
fn write_integer(number: i128, text: &mut [u8], end: usize) -> usize
    requires word { unsigned_abs number < 2 ^ 64 }
    requires room { 21 ≤ end }
    requires within { end ≤ length text.old }
    ensures room { end ≤ result + 21 }
    ensures within { result ≤ end }
    ensures written { drop result text.new ≡ signed_decimal number ++ drop end text.old }
{
    let start = write_digits(number.unsigned_abs() as u64, text, end);
    if number >= 0 {
        return start;
    }
    text[start - 1] = b'-';
    start - 1
}
