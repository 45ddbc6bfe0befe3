// A run over the input piece by piece.
ghost use Rattle.std.specs.Prelude.{◌≡◌, cond, ◌+◌, ◌-◌, ◌≤◌, min, ltb, length, take, drop};
ghost use Rattle.frames.specs.Answers.{answer_length};
ghost use Rattle.session.specs.Feed.{piece_answers, over};
ghost use Rattle.session.specs.Pieces.{piece_result, piece_left};
ghost use Rattle.session.specs.Run.{most_kept};

use crate::feed::feed;
use bench_lines::Standing;
use frames::ANSWER;
use lines::LONGEST;

// The most bytes that are kept of a line that goes on in the next piece: one more than a line may have already tells that it is too long.
pub const KEPT: usize = LONGEST + 1;

// After a whole piece: how many bytes at the front of the buffer belong to the next piece, at most KEPT where `out` had room for an answer to
// every byte.
#[derive(Clone, Copy)]
pub struct PieceEnd {
    pub standing: Standing,
    pub kept: usize,
    pub written: usize,
}

// How many of the bytes behind the answered lines are kept: all of them where there is no room for another answer, since ended lines may be
// left; else they are the beginning of a line that goes on.
fn bytes_kept(rest: usize, room: usize, written: usize) -> usize
    requires { written ≤ room }
    ensures { result ≡ cond (ltb (room - written) answer_length) rest (min rest most_kept) }
{
    if room - written < ANSWER {
        return rest;
    }
    rest.min(KEPT)
}

// Moves the n bytes from `from` on to the front.
fn to_front(buffer: &mut [u8], from: usize, n: usize)
    requires { from + n ≤ length buffer.old }
    ensures { buffer.new ≡ over (take n (drop from buffer.old)) buffer.old }
{
    buffer.copy_within(from..from + n, 0);
}

// Answers the ended lines of the buffer's first `end` bytes, as many as `out` has room for, and moves what is left to its front: lines that
// had no room are answered by the next piece.
pub fn piece(s: Standing, buffer: &mut [u8], end: usize, out: &mut [u8]) -> PieceEnd
    ensures result { result ≡ piece_result s (length out.old) (take end buffer.old) }
    ensures left { buffer.new ≡ over (piece_left (length out.old) (take end buffer.old)) buffer.old }
    ensures answers { out.new ≡ over (piece_answers s (length out.old) (take end buffer.old)) out.old }
{
    let to = end.min(buffer.len());
    let room = out.len();
    let p = feed(s, &buffer[0..to], out);
    let from = p.next;
    let n = bytes_kept(to - from, room, p.written);
    to_front(buffer, from, n);
    PieceEnd {
        standing: p.standing,
        kept: n,
        written: p.written,
    }
}
