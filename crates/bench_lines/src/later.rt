// A line behind the first: what it asks for, where the next one begins, and what it does to a table whose store is lent.
ghost use Rattle.std.specs.Prelude.{◌≡◌};
ghost use Rattle.tables.specs.Fronts.{whole};
ghost use Rattle.bench_lines.specs.Places.{next_place, later_line_at};
ghost use Rattle.bench_lines.specs.Assuming.{LineAssuming};

use crate::start::malformed_answer;
use calls::call_assuming;
use frames::{CALL_LINE, request_at};
use lines::{Line, line_from};
use rules::Call;
use tables::{Front, FrontDone, Store};

// What a line asks for, a call or nothing, and the place behind its line feed.
#[derive(Clone, Copy)]
pub struct LaterLine {
    pub request: Option<Call>,
    pub next: usize,
}

// The place behind a line, where it is ended.
fn next_place(line: Line) -> Option<usize>
    ensures { result ≡ next_place line }
{
    match line {
        Line::Whole { next, .. } => Some(next),
        Line::TooLong { next } => Some(next),
        Line::Unended | Line::Nothing => None,
    }
}

// The line at a place, where it is ended. Nearly every line is a call line, and so that is looked at first. Any other asks for nothing: only its
// end is looked for.
pub fn later_line_at(input: &[u8], at: usize) -> Option<LaterLine>
    ensures { result ≡ later_line_at input.now at }
{
    match request_at(input, at) {
        Some(call) => Some(LaterLine {
            request: Some(call),
            next: at + CALL_LINE,
        }),
        None => {
            let next = next_place(line_from(input, at))?;
            Some(LaterLine {
                request: None,
                next,
            })
        }
    }
}

// What a line does that asks for `request`, where `valid` says whether the table is valid: a piece of the input looks at the table once, since no
// line changes that. Where `valid` is right this is what the line asks for; where it isn't, what comes out is of no use.
pub fn line_assuming(f: Front, valid: bool, request: Option<Call>, store: &mut Store) -> FrontDone
    ensures { LineAssuming valid (whole f store.old.element store.old.criterion) request result store.new.element store.new.criterion }
{
    match request {
        Some(call) => call_assuming(f, valid, call, store),
        None => FrontDone {
            front: f,
            answer: malformed_answer(f.tasks, f.elected),
        },
    }
}
