//! The kinds of fields, and the values that they take.

/// A kind of field, and the least and the greatest value that it takes.
#[derive(Clone, Copy)]
pub(crate) struct Range {
    word: &'static str,
    least: i128,
    most: i128,
    pub text: &'static str,
}

static RANGES: [Range; 8] = [
    Range {
        word: "i8",
        least: -0x80,
        most: 0x7f,
        text: "i8 takes -128 to 127",
    },
    Range {
        word: "u8",
        least: 0,
        most: 0xff,
        text: "u8 takes 0 to 255",
    },
    Range {
        word: "i16",
        least: -0x8000,
        most: 0x7fff,
        text: "i16 takes -32768 to 32767",
    },
    Range {
        word: "u16",
        least: 0,
        most: 0xffff,
        text: "u16 takes 0 to 65535",
    },
    Range {
        word: "i32",
        least: -0x8000_0000,
        most: 0x7fff_ffff,
        text: "i32 takes -2147483648 to 2147483647",
    },
    Range {
        word: "u32",
        least: 0,
        most: 0xffff_ffff,
        text: "u32 takes 0 to 4294967295",
    },
    Range {
        word: "i64",
        least: -0x8000_0000_0000_0000,
        most: 0x7fff_ffff_ffff_ffff,
        text: "i64 takes -9223372036854775808 to 9223372036854775807",
    },
    Range {
        word: "u64",
        least: 0,
        most: 0xffff_ffff_ffff_ffff,
        text: "u64 takes 0 to 18446744073709551615",
    },
];

impl Range {
    /// Whether a value that is written so is outside.
    pub(crate) fn excludes(self, value: &[u8]) -> bool {
        let Ok(text) = std::str::from_utf8(value) else {
            return false;
        };
        match text.parse::<i128>() {
            Ok(number) => number < self.least || self.most < number,
            Err(_) => false,
        }
    }
}

/// The range of the kind that a word is.
pub(crate) fn range_of(word: &[u8]) -> Option<Range> {
    for range in &RANGES {
        if range.word.as_bytes() == word {
            return Some(*range);
        }
    }
    None
}
