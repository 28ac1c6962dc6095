//! The lines of an output that report refused lines.

/// What `error LINE KIND` or `error LINE KIND a..b` says, without its line feed.
#[derive(Clone, Copy)]
pub(crate) struct Refusal<'a> {
    /// The number of the refused line, and its digits.
    pub line: usize,
    pub number: &'a str,
    pub kind: &'a str,
    /// The part of a query's text that is wrong.
    pub span: Option<(usize, usize)>,
}

/// Reads such a line. Any other line reports none.
pub(crate) fn refusal_of(output: &[u8]) -> Option<Refusal<'_>> {
    let text = std::str::from_utf8(output).ok()?;
    let (number, rest) = text.strip_prefix("error ")?.split_once(' ')?;
    let line = number.parse::<usize>().ok()?;
    let (kind, span) = match rest.split_once(' ') {
        None => (rest, None),
        Some((kind, span)) => {
            let (start, end) = span.split_once("..")?;
            (kind, Some((start.parse().ok()?, end.parse().ok()?)))
        }
    };
    Some(Refusal {
        line,
        number,
        kind,
        span,
    })
}
