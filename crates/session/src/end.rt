// The end of a bench session's input.
ghost use Rattle.std.specs.Prelude.{◌≡◌, length};
ghost use Rattle.frames.specs.Answers.{placed};
ghost use Rattle.session.specs.Ending.{ending, ending_length};

use bench_lines::{Standing, malformed_answer};
use frames::{ANSWER, put_answer};

// Bytes that no line feed ended get one answer. Returns how many bytes were written.
pub fn finish(s: Standing, rest: &[u8], out: &mut [u8]) -> usize
    ensures result { result ≡ ending_length s rest.now (length out.old) }
    ensures written { out.new ≡ placed 0 (ending s rest.now) out.old }
{
    if rest.is_empty() || out.len() < ANSWER {
        return 0;
    }
    put_answer(out, 0, malformed_answer(s.table.tasks, s.table.elected));
    ANSWER
}
