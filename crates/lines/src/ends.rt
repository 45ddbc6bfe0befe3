// The line reader, over a slice and a place by value.
ghost use Rattle.std.specs.Prelude.{◌≡◌, drop, eqb, position};
ghost use Rattle.lines.specs.Ends.{line_feed, line_at};
ghost use Rattle.lines.specs.Reading.{place_after};

// The most bytes that a line may have before its line feed.
pub const LONGEST: usize = 192;

// What begins at a place. That no byte stands there is one of the four, and no `Option` around the others: whoever asks for a line tells
// them apart in one `match`, and the last two mean the same to most.
#[derive(Clone, Copy)]
pub enum Line {
    // A line of at most LONGEST bytes, start..end, and the place behind its line feed.
    Whole {
        start: usize,
        end: usize,
        next: usize,
    },
    // A longer line, and the place behind its line feed.
    TooLong {
        next: usize,
    },
    // Bytes without a line feed.
    Unended,
    // No byte at all.
    Nothing,
}

// How many bytes stand before the first line feed.
fn line_feed_in(s: &[u8]) -> Option<usize>
    ensures { result ≡ position (λ b. eqb b line_feed) s.now }
{
    s.iter().position(|&b| b == b'\n')
}

// The line that begins at a place.
pub(crate) fn line_at(s: &[u8], at: usize) -> Line
    ensures { result ≡ line_at s.now at }
{
    let rest = rest_at(s, at);
    if rest.is_empty() {
        return Line::Nothing;
    }
    match line_feed_in(rest) {
        None => Line::Unended,
        Some(n) if LONGEST < n => Line::TooLong { next: at + n + 1 },
        Some(n) => Line::Whole {
            start: at,
            end: at + n,
            next: at + n + 1,
        },
    }
}

// The place behind a line: behind its line feed, or the end of the log where none ends it.
pub(crate) fn place_after(s: &[u8], line: Line) -> usize
    ensures { result ≡ place_after s.now line }
{
    match line {
        Line::Whole { next, .. } | Line::TooLong { next } => next,
        Line::Unended | Line::Nothing => s.len(),
    }
}

// What stands from a place on: nothing where the place lies past the end.
pub(crate) fn rest_at(s: &[u8], at: usize) -> &[u8]
    ensures { result.now ≡ drop at s.now }
{
    &s[at.min(s.len())..]
}
