// A reader that walks the lines of a lent log and remembers its place: thin functions over the line reader by value.
ghost use Rattle.std.specs.Prelude.{◌≡◌, drop};
ghost use Rattle.lines.specs.Ends.{line_at};
ghost use Rattle.lines.specs.Reading.{place_after, behind_lines};

use crate::ends::{Line, line_at, place_after, rest_at};

// The log, and the place where its next line begins.
#[derive(Drop)]
pub struct Reader<'a> {
    pub log: &'a [u8],
    pub at: usize,
}

// A reader at a place.
pub fn reader_of<'a>(log: &'a [u8], at: usize) -> Reader<'a>
    ensures { (result.log ≡ log.entry) × (result.at ≡ at) }
{
    Reader { log, at }
}

// The line at the reader's place; the reader moves behind it.
pub fn next_line<'s, 'a>(r: &'s mut Reader<'a>) -> Line
    ensures { (result ≡ line_at r.old.log.now r.old.at) × (r.new.log ≡ r.old.log)
        × (r.new.at ≡ place_after r.old.log.now (line_at r.old.log.now r.old.at)) }
{
    let log = r.log;
    let line = line_at(log, r.at);
    r.at = place_after(log, line);
    line
}

// What is left of the log from the reader's place on.
pub fn left<'a>(r: Reader<'a>) -> &'a [u8]
    ensures { result.now ≡ drop r.entry.at r.entry.log.now }
{
    rest_at(r.log, r.at)
}

// The line at a place, by a reader that is put there: what callers use who remember the place themselves.
pub fn line_from(s: &[u8], at: usize) -> Line
    ensures { result ≡ line_at s.now at }
{
    let mut reader = reader_of(s, at);
    next_line(&mut reader)
}

// What is left of a log behind its first n lines: one reader walks over them.
fn walked_over<'a>(log: &'a [u8], n: usize) -> &'a [u8]
    ensures { result.now ≡ behind_lines n log.now }
{
    let mut reader = reader_of(log, 0);
    for _ in 0..n {
        next_line(&mut reader);
    }
    left(reader)
}

// What is left of a log behind its first n lines, its empty end where it has fewer. A log has no more lines than bytes, so that no n makes
// the walk longer.
#[tactic(auto, using(crate::proofs::Behind::behind_past))]
pub fn behind_lines<'a>(log: &'a [u8], n: usize) -> &'a [u8]
    ensures { result.now ≡ behind_lines n log.now }
{
    walked_over(log, n.min(log.len()))
}
