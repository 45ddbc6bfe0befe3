// The ended lines of a piece of the input, answered one after the other.
ghost use Rattle.std.specs.Prelude.{◌≡◌, ◌-◌, ◌/◌, ◌≤◌, length};
ghost use Rattle.frames.specs.Answers.{answer_length};
ghost use Rattle.session.specs.Feed.{progress_of, first_progress, first_out, later_progress, later_out, feed_progress, piece_answers, over};

use bench_lines::{Standing, first_line_at, later_line_at, line_assuming};
use frames::{ANSWER, put_answer};
use rules::Table;
use tables::{front_of, store_of, table_of};
use validity::front_valid;

// How far the lines of a piece have come: the place behind the last of them, and how many bytes of answers were written.
#[derive(Clone, Copy)]
pub(crate) struct Progress {
    pub standing: Standing,
    pub next: usize,
    pub written: usize,
}

fn progress_of(t: Table, begun: bool, next: usize, written: usize) -> Progress
    ensures { result ≡ progress_of t begun next written }
{
    Progress {
        standing: Standing { table: t, begun },
        next,
        written,
    }
}

// How many answers there is room for behind the `written` bytes.
fn answers_left(room: usize, written: usize) -> usize
    ensures { result ≡ (room - written) / answer_length }
{
    room.saturating_sub(written) / ANSWER
}

// Answers the first line, where the session stands before it, the line is ended and there is room.
fn first_answered(s: Standing, input: &[u8], out: &mut [u8]) -> Progress
    ensures result { result ≡ first_progress s (length out.old) input.now }
    ensures answers { out.new ≡ first_out s input.now out.old }
{
    let t = s.table;
    if s.begun {
        return progress_of(t, true, 0, 0);
    }
    if out.len() < ANSWER {
        return progress_of(t, false, 0, 0);
    }
    match first_line_at(input) {
        None => progress_of(t, false, 0, 0),
        Some(line) => {
            put_answer(out, 0, line.done.answer);
            progress_of(line.done.table, true, line.next, ANSWER)
        }
    }
}

// Answers the later lines from `at` on, as many as there is room for behind the `written` bytes. The table's store stays where it is, lent to
// each call, and the table is looked at once: whether it is valid stays as it is from line to line.
fn feed_later(t: Table, input: &[u8], mut at: usize, mut written: usize, out: &mut [u8]) -> Progress
    requires { written ≤ length out.old }
    ensures result { result ≡ later_progress t input.now at written (length out.old) }
    ensures answers { out.new ≡ later_out t input.now at written out.old }
{
    let mut f = front_of(t);
    let mut store = store_of(t);
    let valid = front_valid(&f, &store);
    for _ in 0..answers_left(out.len(), written) {
        let Some(line) = later_line_at(input, at) else {
            break;
        };
        let d = line_assuming(f, valid, line.request, &mut store);
        put_answer(out, written, d.answer);
        f = d.front;
        at = line.next;
        written += ANSWER;
    }
    progress_of(table_of(f, store), true, at, written)
}

// Answers as many lines as `out` has room for.
pub(crate) fn feed(s: Standing, input: &[u8], out: &mut [u8]) -> Progress
    ensures result { result ≡ feed_progress s (length out.old) input.now }
    ensures answers { out.new ≡ over (piece_answers s (length out.old) input.now) out.old }
{
    let p = first_answered(s, input, out);
    if !p.standing.begun {
        return p;
    }
    feed_later(p.standing.table, input, p.next, p.written, out)
}
