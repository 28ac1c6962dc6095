//! Numbers of each kind, and their bytes.

ghost use Rattle.std.specs.Prelude.{◌≡◌, ◌≤◌, length, IsTrue};
ghost use Rattle.ecs_model.specs.Schema.{fits_kind, width};
ghost use Rattle.ecs_model.specs.Bytes.{number_bytes, number_in};

use ecs_model::Kind;

/// How many bytes a number of a kind has.
pub fn width(kind: Kind) -> usize
    ensures value { result ≡ width kind }
    ensures some { 1 ≤ result }
    ensures few { result ≤ 8 }
{
    match kind {
        Kind::I8 | Kind::U8 => 1,
        Kind::I16 | Kind::U16 => 2,
        Kind::I32 | Kind::U32 => 4,
        Kind::I64 | Kind::U64 => 8,
    }
}

/// Whether a number is in the range of a kind.
pub fn fits(kind: Kind, number: i128) -> bool
    ensures { result ≡ fits_kind kind number }
{
    match kind {
        Kind::I8 => -0x80 <= number && number <= 0x7f,
        Kind::U8 => 0 <= number && number <= 0xff,
        Kind::I16 => -0x8000 <= number && number <= 0x7fff,
        Kind::U16 => 0 <= number && number <= 0xffff,
        Kind::I32 => -0x8000_0000 <= number && number <= 0x7fff_ffff,
        Kind::U32 => 0 <= number && number <= 0xffff_ffff,
        Kind::I64 => -0x8000_0000_0000_0000 <= number && number <= 0x7fff_ffff_ffff_ffff,
        Kind::U64 => 0 <= number && number <= 0xffff_ffff_ffff_ffff,
    }
}

/// Writes the bytes of a number.
pub fn write_number(kind: Kind, number: i128, bytes: &mut [u8])
    requires fits { IsTrue (fits_kind kind number) }
    requires width { length bytes.old ≡ width kind }
    ensures { bytes.new ≡ number_bytes kind number }
{
    match kind {
        Kind::I8 => bytes.copy_from_slice(&(number as i8).to_le_bytes()),
        Kind::U8 => bytes.copy_from_slice(&(number as u8).to_le_bytes()),
        Kind::I16 => bytes.copy_from_slice(&(number as i16).to_le_bytes()),
        Kind::U16 => bytes.copy_from_slice(&(number as u16).to_le_bytes()),
        Kind::I32 => bytes.copy_from_slice(&(number as i32).to_le_bytes()),
        Kind::U32 => bytes.copy_from_slice(&(number as u32).to_le_bytes()),
        Kind::I64 => bytes.copy_from_slice(&(number as i64).to_le_bytes()),
        Kind::U64 => bytes.copy_from_slice(&(number as u64).to_le_bytes()),
    }
}

/// Reads the number that bytes mean.
pub fn read_number(kind: Kind, bytes: &[u8]) -> i128
    requires { length bytes.now ≡ width kind }
    ensures { result ≡ number_in kind bytes.now }
{
    match kind {
        Kind::I8 => i128::from(i8::from_le_bytes([bytes[0]])),
        Kind::U8 => i128::from(bytes[0]),
        Kind::I16 => i128::from(i16::from_le_bytes([bytes[0], bytes[1]])),
        Kind::U16 => i128::from(u16::from_le_bytes([bytes[0], bytes[1]])),
        Kind::I32 => i128::from(i32::from_le_bytes(four(bytes))),
        Kind::U32 => i128::from(u32::from_le_bytes(four(bytes))),
        Kind::I64 => i128::from(i64::from_le_bytes(eight(bytes))),
        Kind::U64 => i128::from(u64::from_le_bytes(eight(bytes))),
    }
}

fn four(bytes: &[u8]) -> [u8; 4]
    requires { length bytes.now ≡ 4 }
    ensures { result ≡ bytes.now }
{
    [bytes[0], bytes[1], bytes[2], bytes[3]]
}

fn eight(bytes: &[u8]) -> [u8; 8]
    requires { length bytes.now ≡ 8 }
    ensures { result ≡ bytes.now }
{
    [
        bytes[0], bytes[1], bytes[2], bytes[3], bytes[4], bytes[5], bytes[6], bytes[7],
    ]
}
