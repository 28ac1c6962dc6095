//! Names.

ghost use Rattle.std.specs.Prelude.{◌≡◌};
ghost use Rattle.std.specs.List.{list_all};
ghost use Rattle.ecs_model.specs.Text.{is_name};
ghost use Rattle.query_model.specs.Text.{is_name_byte, is_spelled};

use query_model::{is_name_byte, is_reserved};

/// How many bytes a name has at most.
const LONGEST_NAME: usize = 64;

/// Whether a text is a name: 1 to 64 letters, digits, `_` and `.`, the first a letter, and none of the words of the
/// query language.
pub fn is_name(text: &[u8]) -> bool
    ensures { result ≡ is_name text.now }
{
    text.len() <= LONGEST_NAME && is_spelled_as_name(text) && !is_reserved(text)
}

fn is_spelled_as_name(text: &[u8]) -> bool
    ensures { result ≡ is_spelled is_name_byte text.now }
{
    match text.split_first() {
        None => false,
        Some((first, rest)) => first.is_ascii_alphabetic() && are_name_bytes(rest),
    }
}

fn are_name_bytes(text: &[u8]) -> bool
    ensures { result ≡ list_all is_name_byte text.now }
{
    text.iter().all(|byte| is_name_byte(*byte))
}
