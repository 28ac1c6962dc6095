//! Numbers in decimal.
ghost use Rattle.std.specs.Prelude.{◌≡◌, ◌^◌, ◌<◌, ◌≤◌, IfSome, IsTrue, length, if◌then◌else◌};
ghost use Rattle.std.specs.List.{list_all, prefix_len};
ghost use Rattle.ecs_model.specs.Text.{is_number, number_of};
ghost use Rattle.query_model.specs.Text.{is_digit};

/// So many digits spell a number of 64 bits.
const SHORT: usize = 19;

/// Reads a number of 1 to `most` digits.
pub(crate) fn number_within(text: &[u8], most: usize) -> Option<u128>
    requires { most ≤ 38 }
    ensures value { result ≡ (if is_number 1 most text.now then Some (number_of text.now) else None) }
    ensures bound { IfSome result (λ n. n < 10 ^ most) }
{
    if all_digits(text) {
        number_among(text, most)
    } else {
        None
    }
}

/// The number that digits spell, if they are 1 to `most`.
pub(crate) fn number_among(digits: &[u8], most: usize) -> Option<u128>
    requires digits { IsTrue (list_all is_digit digits.now) }
    requires most { most ≤ 38 }
    ensures value { result ≡ (if is_number 1 most digits.now then Some (number_of digits.now) else None) }
    ensures bound { IfSome result (λ n. n < 10 ^ most) }
    ensures some { IfSome result (λ _. 0 < length digits.now) }
{
    if digits.is_empty() {
        return None;
    }
    if digits.len() > most {
        return None;
    }
    Some(number_of(digits))
}

/// Whether each byte is a decimal digit.
fn all_digits(bytes: &[u8]) -> bool
    ensures { result ≡ list_all is_digit bytes.now }
{
    bytes.iter().all(|b| is_digit(*b))
}

/// How many digits stand at the beginning.
pub(crate) fn digits_len(bytes: &[u8]) -> usize
    ensures { result ≡ prefix_len is_digit bytes.now }
{
    bytes.iter().take_while(|b| is_digit(**b)).count()
}

/// Whether a byte is a decimal digit.
fn is_digit(byte: u8) -> bool
    ensures { result ≡ is_digit byte }
{
    byte.is_ascii_digit()
}

/// The number that digits spell.
fn number_of(digits: &[u8]) -> u128
    requires digits { IsTrue (list_all is_digit digits.now) }
    requires length { length digits.now ≤ 38 }
    ensures value { result ≡ number_of digits.now }
    ensures bound { result < 10 ^ length digits.now }
{
    if digits.len() <= SHORT {
        return u128::from(short_number_of(digits));
    }
    let mut number = 0;
    for digit in digits {
        number = number * 10 + u128::from(*digit - b'0');
    }
    number
}

/// The number that a few digits spell, in one machine word.
fn short_number_of(digits: &[u8]) -> u64
    requires digits { IsTrue (list_all is_digit digits.now) }
    requires length { length digits.now ≤ 19 }
    ensures value { result ≡ number_of digits.now }
    ensures bound { result < 10 ^ length digits.now }
{
    let mut number = 0;
    for digit in digits {
        number = number * 10 + u64::from(*digit - b'0');
    }
    number
}
