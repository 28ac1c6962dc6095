//! Blanks, words, and numbers, as lines of scripts have them.
ghost use Rattle.std.specs.Prelude.{◌≡◌, ◌≤◌, ◌<◌, length, IfSome};
ghost use Rattle.std.specs.List.{prefix_len, position_or_len};
ghost use Rattle.ecs_model.specs.Text.{is_blank};

/// Whether a byte is a space, a tab or a carriage return.
pub(crate) fn is_blank(byte: u8) -> bool
    ensures { result ≡ is_blank byte }
{
    byte == b' ' || byte == b'\t' || byte == b'\r'
}

/// How many blanks stand at the start.
pub(crate) fn blanks_at_start(bytes: &[u8]) -> usize
    ensures value { result ≡ prefix_len is_blank bytes.now }
    ensures within { result ≤ length bytes.now }
{
    bytes.iter().take_while(|b| is_blank(**b)).count()
}

/// How many bytes stand before the first blank.
pub(crate) fn word_len(bytes: &[u8]) -> usize
    ensures value { result ≡ position_or_len is_blank bytes.now }
    ensures within { result ≤ length bytes.now }
{
    bytes.iter().take_while(|b| !is_blank(**b)).count()
}

/// How many bytes stand before the blanks at the end.
pub(crate) fn len_without_blanks(bytes: &[u8]) -> usize
    ensures { result ≤ length bytes.now }
{
    bytes.len() - bytes.iter().rev().take_while(|b| is_blank(**b)).count()
}

/// Where a byte stands first.
pub(crate) fn place_of(bytes: &[u8], byte: u8) -> Option<usize>
    ensures { IfSome result (λ at. at < length bytes.now) }
{
    bytes.iter().position(|b| *b == byte)
}

/// Whether these are one to so many digits.
pub(crate) fn is_number(bytes: &[u8], most: usize) -> bool {
    if bytes.is_empty() || bytes.len() > most {
        return false;
    }
    for byte in bytes {
        if !byte.is_ascii_digit() {
            return false;
        }
    }
    true
}
