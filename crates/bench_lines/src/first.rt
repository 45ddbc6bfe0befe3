// The first line of a session, which is the configuration: what it does, and where the next one begins.
ghost use Rattle.std.specs.Prelude.{◌≡◌, true, false, ◌||◌, ◌≤◌, ◌%◌, eqb, ltb, length};
ghost use Rattle.rules.specs.Words.{padded};
ghost use Rattle.rules.specs.Fresh.{fresh};
ghost use Rattle.lines.specs.Ends.{longest, part};
ghost use Rattle.bench_lines.specs.Start.{done_or_refused};
ghost use Rattle.bench_lines.specs.First.{number_room, plain, numbers, first_done};
ghost use Rattle.bench_lines.specs.Places.{first_line_at};

use crate::start::first_refused;
use digits::{all_digits, two_digits_of};
use lines::{LONGEST, Line, line_from};
use rules::{Done, Refusal};
use tables::{counts_right, fresh};

// The most numbers of two digits that a line may have.
const NUMBERS: usize = LONGEST / 2;

// The line's numbers, two digits each, with zeros behind them.
fn numbers_of(line: &[u8]) -> [u8; NUMBERS]
    requires { length line.now ≤ longest }
    ensures { result ≡ padded number_room 0 (numbers line.now) }
{
    let mut out = [0u8; NUMBERS];
    let (pairs, _) = line.as_chunks::<2>();
    for (i, &[high, low]) in pairs.iter().enumerate() {
        out[i] = two_digits_of(high, low);
    }
    out
}

// The fresh table of the configuration whose priorities stand at 3..bounds, its bounds at bounds..marks and its marks at marks..end.
fn fresh_from(
    tasks: u8,
    regions: u8,
    queues: u8,
    numbers: &[u8],
    bounds: usize,
    marks: usize,
    end: usize,
) -> Done
    requires { (3 ≤ bounds) × (bounds ≤ marks) × (marks ≤ end) × (end ≤ length numbers.now) }
    ensures { result ≡ fresh tasks regions queues (part 3 bounds numbers.now) (part bounds marks numbers.now) (part marks end numbers.now) }
{
    fresh(
        tasks,
        regions,
        queues,
        &numbers[3..bounds],
        &numbers[bounds..marks],
        &numbers[marks..end],
    )
}

// What is left to be checked of a plain line of at least six digits and of even length.
fn configured(line: &[u8]) -> Result<Done, Refusal>
    requires plain_line { plain line.now ≡ true }
    requires long_and_even { (ltb (length line.now) 6 || eqb (length line.now % 2) 1) ≡ false }
    ensures { done_or_refused result ≡ first_done line.now }
{
    let numbers = numbers_of(line);
    let [tasks, regions, queues, ..] = numbers;
    if !counts_right(tasks, regions, queues) {
        return Err(Refusal::OutOfRange);
    }
    let bounds = 3 + usize::from(tasks);
    let marks = bounds + usize::from(queues);
    let end = marks + usize::from(regions);
    let digits = 2 * end;
    if line.len() != digits {
        return Err(Refusal::Malformed);
    }
    Ok(fresh_from(tasks, regions, queues, &numbers, bounds, marks, end))
}

// What a first line does, by its characters, or why it is refused.
fn first_done(line: &[u8]) -> Result<Done, Refusal>
    ensures { done_or_refused result ≡ first_done line.now }
{
    let n = line.len();
    if LONGEST < n || !all_digits(line) {
        return Err(Refusal::Malformed);
    }
    if n < 6 || n % 2 == 1 {
        return Err(Refusal::Malformed);
    }
    configured(line)
}

// What the first line does, and the place behind its line feed.
#[derive(Clone, Copy)]
pub struct FirstLine {
    pub done: Done,
    pub next: usize,
}

// The first line of a session, where it is ended: it gets its answer once it is.
pub fn first_line_at(input: &[u8]) -> Option<FirstLine>
    ensures { result ≡ first_line_at input.now }
{
    match line_from(input, 0) {
        Line::Whole { start, end, next } => Some(FirstLine {
            done: first_done(&input[start..end]).unwrap_or_else(first_refused),
            next,
        }),
        Line::TooLong { next } => Some(FirstLine {
            done: first_refused(Refusal::Malformed),
            next,
        }),
        Line::Unended | Line::Nothing => None,
    }
}
