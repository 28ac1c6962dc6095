//! Parts of a line.
ghost use Rattle.std.specs.Prelude.{◌≡◌, ◌≤◌, drop, length};
ghost use Rattle.ecs_model.specs.Script.{word_and_rest};
ghost use Rattle.script_explain.specs.Places.{IsWithin, text_behind};

use crate::bytes::{blanks_at_start, word_len};

/// The bytes of a line from one place up to another.
#[derive(Clone, Copy)]
pub(crate) struct Part {
    pub start: usize,
    pub end: usize,
}

impl Part {
    /// Of no bytes.
    pub(crate) const EMPTY: Part = Part { start: 0, end: 0 };

    /// Its bytes.
    pub(crate) fn of(self, line: &[u8]) -> &[u8]
        requires { IsWithin line.now self }
    {
        &line[self.start..self.end]
    }

    /// Its bytes; none where it isn't within the line.
    pub(crate) fn bytes_in(self, line: &[u8]) -> &[u8] {
        line.get(self.start..self.end).unwrap_or(&[])
    }

    /// What of it is within the line.
    pub(crate) fn clamped(self, line: &[u8]) -> Part
        ensures within { IsWithin line.now result }
        ensures same { IsWithin line.now self → result ≡ self }
    {
        let end = self.end.min(line.len());
        let start = self.start.min(end);
        Part { start, end }
    }
}

/// The first word from a place on: no bytes at the end of the line, where there is none.
pub(crate) fn word_from(line: &[u8], from: usize) -> Part
    requires { from ≤ length line.now }
    ensures within { IsWithin line.now result }
    ensures ascends { from ≤ result.start }
    ensures rest { drop result.end line.now ≡ (word_and_rest (drop from line.now)).1 }
{
    let start = from + blanks_at_start(&line[from..]);
    let end = start + word_len(&line[start..]);
    Part { start, end }
}

/// Where the text of a query begins, after so many words of its line.
pub(crate) fn text_start(line: &[u8], words: usize) -> usize
    ensures within { result ≤ length line.now }
    ensures place { drop result line.now ≡ text_behind words line.now }
{
    let mut at = 0;
    let mut left = words;
    while left > 0 {
        at = word_from(line, at).end;
        left -= 1;
    }
    at + blanks_at_start(&line[at..])
}
