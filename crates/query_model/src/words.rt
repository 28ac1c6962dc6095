//! Words of query text.

ghost use Rattle.std.specs.Prelude.{◌≡◌};
ghost use Rattle.query_model.specs.Text.{is_name_byte, is_reserved};

/// Whether a byte may stand in a name: an ASCII letter, a digit, `_` or `.`.
pub fn is_name_byte(byte: u8) -> bool
    ensures { result ≡ is_name_byte byte }
{
    // (most bytes of names are small letters)
    byte.is_ascii_lowercase()
        || byte.is_ascii_digit()
        || byte.is_ascii_uppercase()
        || byte == b'_'
        || byte == b'.'
}

/// Whether a text is one of the words of the query language, which name nothing.
pub fn is_reserved(text: &[u8]) -> bool
    ensures { result ≡ is_reserved text.now }
{
    text == b"self".as_slice()
        || text == b"up".as_slice()
        || text == b"cascade".as_slice()
        || text == b"desc".as_slice()
}
