//! Short names as keys.
ghost use Rattle.std.specs.Prelude.{◌≡◌, ◌+◌, ◌≤◌, ◌∷◌, ◌++◌, [], drop, false, true, length, nat_eq, MatchOption};
ghost use Rattle.std.specs.Cmp.{partial_equiv_from_equiv};
ghost use Rattle.std.specs.Cmp.Lexicographic.{bytes_decides, nat_list_eq_equiv, pointwise};
ghost use Rattle.std.proofs.Common.{ap};
ghost use Rattle.name_index.specs.Short.{is_short, padded, word_at};

use std::hash::{Hash, Hasher};
use std::marker::Model;
use std::str;

/// So many bytes a short name has at most.
pub(crate) const MOST: usize = 15;

/// A name of at most 15 bytes, as a key that takes no block and is compared as two words.
#[derive(Clone, Copy)]
pub struct ShortName {
    /// Those of the name, zeros, and the length.
    bytes: [u8; 16],
}

impl Model for ShortName {
    ghost use Rattle.std.specs.Prelude.{List, ℕ};
    ghost use Rattle.std.proofs.Common.{ap, sym};
    ghost use Rattle.name_index.specs.Short.{IsKey, padded, text_in};

    ghost Value = { List ℕ };

    ghost view = { λ k. text_in k.bytes };

    ghost inverse = { λ text. record { bytes = padded text } };

    ghost inverse_ok = { λ k h. ap (λ bytes. record { bytes = bytes }) (sym h.whole) };

    ghost invariant = { λ k. IsKey k.bytes };
}

impl ShortName {
    /// The key of a text, if that is short.
    #[inline(always)]
    pub(crate) fn new(text: &str) -> Option<ShortName>
        ensures { MatchOption result (is_short text.now ≡ false) (λ k. (k ≡ text.now) × (is_short text.now ≡ true)) }
    {
        if text.len() > MOST {
            return None;
        }
        Some(ShortName {
            bytes: key_bytes(text.as_bytes()),
        })
    }

    /// The text.
    pub(crate) fn as_str(&self) -> &str
        ensures { result.now ≡ self.now }
    {
        let count = usize::from(self.bytes[MOST]);
        // SAFETY: these bytes were those of a text.
        unsafe { str::from_utf8_unchecked(&self.bytes[..count]) }
    }
}

/// The bytes of the key of a short text.
#[inline(always)]
fn key_bytes(text: &[u8]) -> [u8; 16]
    requires { length text.now ≤ 15 }
    ensures { result ≡ padded text.now }
{
    let mut bytes = [0; 16];
    put_short(text, &mut bytes);
    bytes[MOST] = text.len() as u8;
    bytes
}

/// Writes a short text over the first bytes. Words are copied, since a call that copies any number of bytes takes
/// longer.
#[inline(always)]
fn put_short(text: &[u8], bytes: &mut [u8])
    requires short { length text.now ≤ 15 }
    requires room { length text.now ≤ length bytes.old }
    ensures { bytes.new ≡ text.now ++ drop (length text.now) bytes.old }
{
    let count = text.len();
    if count >= 8 {
        put_ends(text, 8, bytes);
    } else if count >= 4 {
        put_ends(text, 4, bytes);
    } else if count >= 2 {
        put_ends(text, 2, bytes);
    } else if count == 1 {
        bytes[0] = text[0];
    }
}

/// The same of a text of so many bytes to twice as many: the first of them are copied, and then the last.
#[inline(always)]
fn put_ends(text: &[u8], size: usize, bytes: &mut [u8])
    requires least { size ≤ length text.now }
    requires most { length text.now ≤ size + size }
    requires room { length text.now ≤ length bytes.old }
    ensures { bytes.new ≡ text.now ++ drop (length text.now) bytes.old }
{
    let last = text.len() - size;
    bytes[..size].copy_from_slice(&text[..size]);
    bytes[last..last + size].copy_from_slice(&text[last..last + size]);
}

impl PartialEq for ShortName {
    ghost eq = { pointwise nat_eq };

    ghost laws = { partial_equiv_from_equiv nat_list_eq_equiv };

    #[inline(always)]
    fn eq(&self, other: &Self) -> bool {
        are_same(&self.bytes, &other.bytes)
    }
}

impl Eq for ShortName {
    ghost laws = { nat_list_eq_equiv };
}

impl Hash for ShortName {
    ghost hash_input = { λ text. padded text ∷ [] };

    ghost respects_eq = { λ x y h. ap (λ t. padded t ∷ []) ((bytes_decides x y).0 h) };

    #[inline(always)]
    fn hash<H: Hasher>(&self, state: &mut H) {
        state.write(&self.bytes);
    }
}

/// Whether the bytes of two keys are the same, by two words of each.
#[inline(always)]
fn are_same(some: &[u8], others: &[u8]) -> bool
    requires some { length some.now ≡ 16 }
    requires others { length others.now ≡ 16 }
    ensures { result ≡ pointwise nat_eq some.now others.now }
{
    word(some, 0) == word(others, 0) && word(some, 8) == word(others, 8)
}

/// Eight bytes as a number.
#[inline(always)]
fn word(bytes: &[u8], at: usize) -> u64
    requires { at + 8 ≤ length bytes.now }
    ensures { result ≡ word_at bytes.now at }
{
    u64::from_le_bytes([
        bytes[at],
        bytes[at + 1],
        bytes[at + 2],
        bytes[at + 3],
        bytes[at + 4],
        bytes[at + 5],
        bytes[at + 6],
        bytes[at + 7],
    ])
}
