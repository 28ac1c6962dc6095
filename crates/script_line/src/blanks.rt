//! Blanks and the words between them.
ghost use Rattle.std.specs.Prelude.{◌≡◌, ◌<◌, ◌≤◌, [], ◌∷◌, drop, length, reverse, IfSome, MatchOption};
ghost use Rattle.std.specs.List.{before_first, position_or_len, prefix_len};
ghost use Rattle.ecs_model.specs.Text.{is_blank, trim_front, trimmed, words};
ghost use Rattle.ecs_model.specs.Script.{is_apart, word_and_rest};

/// Whether a byte is a space, a tab or a carriage return.
pub(crate) fn is_blank(byte: u8) -> bool
    ensures { result ≡ is_blank byte }
{
    byte <= b' ' && (byte == b' ' || byte == b'\t' || byte == b'\r')
}

/// How many blanks stand at the beginning.
pub(crate) fn blanks_at_front(bytes: &[u8]) -> usize
    ensures value { result ≡ prefix_len is_blank bytes.now }
    ensures within { result ≤ length bytes.now }
{
    bytes.iter().take_while(|b| is_blank(**b)).count()
}

/// How many blanks stand at the end.
fn blanks_at_end(bytes: &[u8]) -> usize
    ensures value { result ≡ prefix_len is_blank (reverse bytes.now) }
    ensures within { result ≤ length bytes.now }
{
    bytes.iter().rev().take_while(|b| is_blank(**b)).count()
}

/// Whether a text is empty or begins with a blank.
pub(crate) fn is_apart(text: &str) -> bool
    ensures { result ≡ is_apart text.now }
{
    match text.as_bytes() {
        [] => true,
        [first, ..] => is_blank(*first),
    }
}

/// How many bytes stand before the first blank.
fn word_len(bytes: &[u8]) -> usize
    ensures { result ≡ position_or_len is_blank bytes.now }
{
    bytes.iter().take_while(|b| !is_blank(**b)).count()
}

/// The text without the blanks at its beginning.
pub(crate) fn trim_front(text: &str) -> &str
    ensures { result.now ≡ trim_front text.now }
{
    &text[blanks_at_front(text.as_bytes())..]
}

/// The text without the blanks at its ends.
pub(crate) fn trimmed(text: &str) -> &str
    ensures { result.now ≡ trimmed text.now }
{
    let text = trim_front(text);
    &text[..text.len() - blanks_at_end(text.as_bytes())]
}

/// The first word, which is empty where there is none, and what stands after it.
pub(crate) fn word_and_rest(text: &str) -> (&str, &str)
    ensures word { result.0.now ≡ (word_and_rest text.now).0 }
    ensures rest { result.1.now ≡ (word_and_rest text.now).1 }
{
    let text = trim_front(text);
    text.split_at(word_len(text.as_bytes()))
}

/// The text from its first word on, if there is a word.
#[inline(always)]
pub(crate) fn word_start(text: &str) -> Option<&str>
    ensures cases { MatchOption result (words text.now ≡ []) (λ t. words text.now
        ≡ before_first is_blank t.now ∷ words (drop (length (before_first is_blank t.now)) t.now)) }
    ensures within { IfSome result (λ t. length t.now ≤ length text.now) }
{
    let text = trim_front(text);
    if text.is_empty() {
        return None;
    }
    Some(text)
}

/// The first word and what stands after it, if there is a word.
pub(crate) fn next_word(text: &str) -> Option<(&str, &str)>
    ensures cases { MatchOption result (words text.now ≡ []) (λ p. words text.now ≡ p.0.now ∷ words p.1.now) }
    ensures shorter { IfSome result (λ p. length p.1.now < length text.now) }
{
    let (word, rest) = word_and_rest(text);
    if word.is_empty() {
        return None;
    }
    Some((word, rest))
}
