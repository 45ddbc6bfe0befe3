// The answer line, written where the caller has room for it.
ghost use Rattle.std.specs.Prelude.{◌≡◌, length};
ghost use Rattle.frames.specs.Answers.{answer_length, answer_line, placed};

use digits::put_digits;
use rules::Answer;

// The bytes of an answer line: status 2 digits, value 8, key 2, elected 2, displaced 2, and its line feed.
pub const ANSWER: usize = 17;

// Fills the places of a line.
fn fill(line: &mut [u8], r: Answer)
    requires { length line.old ≡ answer_length }
    ensures { line.new ≡ answer_line r }
{
    put_digits(&mut line[0..2], r.status as u32);
    put_digits(&mut line[2..10], r.value);
    put_digits(&mut line[10..12], r.key as u32);
    put_digits(&mut line[12..14], r.elected as u32);
    put_digits(&mut line[14..16], r.displaced as u32);
    line[16] = b'\n';
}

// Writes the answer line over the bytes from `at` on; nothing where there are too few.
#[tactic(auto, using(crate::proofs::Written::placed_nowhere, crate::proofs::Written::placed_there, crate::proofs::Written::answer_length_lem))]
pub fn put_answer(out: &mut [u8], at: usize, r: Answer)
    ensures { out.new ≡ placed at (answer_line r) out.old }
{
    if out.len() < ANSWER {
        return;
    }
    if out.len() - ANSWER < at {
        return;
    }
    let end = at + ANSWER;
    fill(&mut out[at..end], r);
}
