// An input fed to a session in pieces: the answers are written.
ghost use Rattle.std.specs.Prelude.{◌≤◌, length};
ghost use Rattle.session.specs.Run.{most_kept};

use frames::ANSWER;
use session::{KEPT, PieceEnd, Standing, at_start, finish, piece};

// The largest piece.
pub(crate) const LARGEST: usize = 4096;

// The bytes that are kept of a line that goes on, and a piece behind them.
const BUFFER: usize = KEPT + LARGEST;

// A session, the bytes that it keeps at the front of its buffer, and room for an answer to every byte of the buffer, since a line may be its
// line feed alone.
#[derive(Drop)]
struct Feed {
    standing: Standing,
    kept: usize,
    ghost few: { kept ≤ most_kept },
    buffer: [u8; BUFFER],
    out: [u8; ANSWER * BUFFER],
}

impl Feed {
    fn new() -> Feed {
        Feed {
            standing: at_start(),
            kept: 0,
            buffer: [0; BUFFER],
            out: [0; ANSWER * BUFFER],
        }
    }

    // Lays a piece behind the bytes that are kept, and answers the lines that have ended.
    fn take(&mut self, rt: HostRuntime, part: &[u8])
        requires { length part.now ≤ 4096 }
    {
        let end = self.kept + part.len();
        self.buffer[self.kept..end].copy_from_slice(part);
        let PieceEnd {
            standing,
            kept,
            written,
        } = piece(self.standing, &mut self.buffer, end, &mut self.out);
        self.standing = standing;
        self.kept = kept;
        let _ = rt.write_all(&self.out[..written]);
    }

    // The end of the input, at which what is kept gets its answer.
    fn end(&mut self, rt: HostRuntime) {
        let written = finish(self.standing, &self.buffer[..self.kept], &mut self.out);
        let _ = rt.write_all(&self.out[..written]);
    }
}

// The input in pieces of that size, and its end. Returns how many pieces were fed.
pub(crate) fn run(rt: HostRuntime, input: &[u8], size: usize) -> usize
    requires { (1 ≤ size) × (size ≤ 4096) }
{
    let mut feed = Feed::new();
    let mut pieces = 0;
    for part in input.chunks(size) {
        feed.take(rt, part);
        pieces += 1;
    }
    feed.end(rt);
    pieces
}
