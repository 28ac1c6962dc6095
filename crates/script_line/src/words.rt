//! What words stand for.
ghost use Rattle.std.specs.Prelude.{◌≡◌, ◌<◌, IfSome, IsTrue, length, option_map};
ghost use Rattle.std.specs.List.{list_all};
ghost use Rattle.query_model.specs.Text.{is_digit};
ghost use Rattle.ecs_model.specs.Script.{event_words, field_of_word, kind_words, looked_up, value_of_word};
ghost use Rattle.script_line.specs.Line.{seen_field, seen_value_and_rest, unsigned_of_word, word_read};

use crate::blanks::is_apart;
use crate::decimals::{digits_len, number_among};
use ecs_model::Kind;
use ecs_model::watches::StoredKind;

/// The greatest number of digits of a value.
const MAX_DIGITS: usize = 38;

/// Reads the first word of a text that begins with it as a value, an optional `-` and 1 to 38 digits, and what stands
/// after it.
#[inline(always)]
pub(crate) fn value_and_rest(text: &str) -> Option<(i128, &str)>
    ensures value { option_map seen_value_and_rest result ≡ word_read value_of_word text.now }
    ensures shorter { IfSome result (λ p. length p.1.now < length text.now) }
{
    match text.strip_prefix('-') {
        Some(digits) => {
            let (value, rest) = unsigned_and_rest(digits)?;
            Some((-value, rest))
        }
        None => unsigned_and_rest(text),
    }
}

/// Reads the first word of a text that begins with it as 1 to 38 digits, and what stands after it.
// The text is gone over once for both: the first byte that is no digit has to end the word.
#[inline(always)]
fn unsigned_and_rest(text: &str) -> Option<(i128, &str)>
    ensures value { option_map seen_value_and_rest result ≡ word_read unsigned_of_word text.now }
    ensures shorter { IfSome result (λ p. length p.1.now < length text.now) }
{
    let (digits, rest) = text.split_at(digits_len(text.as_bytes()));
    if !is_apart(rest) {
        return None;
    }
    Some((unsigned_value(digits.as_bytes())?, rest))
}

/// The value that digits spell, if they are 1 to 38.
fn unsigned_value(digits: &[u8]) -> Option<i128>
    requires { IsTrue (list_all is_digit digits.now) }
    ensures value { result ≡ unsigned_of_word digits.now }
    ensures some { IfSome result (λ _. 0 < length digits.now) }
{
    Some(number_among(digits, MAX_DIGITS)? as i128)
}

/// Reads a field: a name, which may be empty, one `:` and a kind.
pub(crate) fn field_of_word(word: &str) -> Option<(&str, Kind)>
    ensures { option_map seen_field result ≡ field_of_word word.now }
{
    let (name, kind) = word.split_once(':')?;
    Some((name, kind_of(kind)?))
}

/// Reads a kind.
fn kind_of(word: &str) -> Option<Kind>
    ensures { result ≡ looked_up kind_words word.now }
{
    match word {
        "i8" => Some(Kind::I8),
        "u8" => Some(Kind::U8),
        "i16" => Some(Kind::I16),
        "u16" => Some(Kind::U16),
        "i32" => Some(Kind::I32),
        "u32" => Some(Kind::U32),
        "i64" => Some(Kind::I64),
        "u64" => Some(Kind::U64),
        _ => None,
    }
}

/// Reads an event that is observed, as the kind of its observers.
pub(crate) fn event_of_word(word: &str) -> Option<StoredKind>
    ensures { result ≡ looked_up event_words word.now }
{
    match word {
        "add" => Some(StoredKind::OnAdd),
        "remove" => Some(StoredKind::OnRemove),
        "set" => Some(StoredKind::OnSet),
        _ => None,
    }
}
