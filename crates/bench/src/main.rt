// The bench: lines on standard input, an answer line for each on standard output. The work is `session`'s; this program only moves bytes.
#![tactic(auto)]

ghost use Rattle.std.specs.Prelude.{◌*◌, ◌<◌, ◌≤◌, length, take};
ghost use Rattle.frames.specs.Answers.{answer_length};
ghost use Rattle.session.specs.Run.{most_kept};
ghost use Rattle.bench.specs.Rounds.{RoundDid, RunEnd};

use frames::ANSWER;
use session::{Standing, at_start, finish, piece};
use std::io::Read;
use std::process::ExitCode;

// The bytes of the input that are looked at together: those that are kept of a line that goes on, and those that are read behind them.
const BUFFER: usize = 16384;

// After one round: where the session stands, how many bytes at the front of the buffer belong to a line that goes on, how many bytes of
// answers stand at the front of the output, and whether the input has ended.
#[derive(Clone, Copy)]
struct Round {
    standing: Standing,
    kept: usize,
    written: usize,
    ended: bool,
}

// Why a run ends: the input has ended and its answers are written; an answer could not be written; the rounds are used up.
#[derive(Clone, Copy)]
enum Reason {
    Input,
    Output,
    Rounds,
}

// Reads once behind the bytes that are kept, and answers the lines that have ended; where the input has ended, what is kept gets its
// answer. A read that fails is taken for the end of the input. Only with room for an answer line to every byte is each ended line answered
// in its turn, so that room is asked for.
fn round_of(rt: HostRuntime, s: Standing, kept: usize, buffer: &mut [u8], out: &mut [u8]) -> Round
    requires { (kept ≤ most_kept) × (most_kept < length buffer.old) × (answer_length * length buffer.old ≤ length out.old) }
    ensures { RoundDid s (take kept buffer.old) result buffer.new out.new }
{
    let got = rt.stdin().read(&mut buffer[kept..]);
    let n = got.unwrap_or(0);
    if n == 0 {
        let written = finish(s, &buffer[..kept], out);
        return Round {
            standing: s,
            kept,
            written,
            ended: true,
        };
    }
    let p = piece(s, buffer, kept + n, out);
    Round {
        standing: p.standing,
        kept: p.kept,
        written: p.written,
        ended: false,
    }
}

// Round after round, each with its answers written. A proved loop has to end, and nothing says that the input does: there are at most so many
// rounds as no run uses up. What a round leaves to be written is promised; that it was written is no value, and so is not.
fn run(rt: HostRuntime, buffer: &mut [u8], out: &mut [u8]) -> Reason
    requires { (most_kept < length buffer.old) × (answer_length * length buffer.old ≤ length out.old) }
    ensures { RunEnd result out.new }
{
    let mut s = at_start();
    let mut kept = 0;
    for _ in 0..u64::MAX {
        let r = round_of(rt, s, kept, buffer, out);
        if rt.write_all(&out[..r.written]).is_err() {
            return Reason::Output;
        }
        if r.ended {
            return Reason::Input;
        }
        s = r.standing;
        kept = r.kept;
    }
    Reason::Rounds
}

// The output has room for an answer line to every byte of the input, since a line may be its line feed alone.
fn main(rt: HostRuntime) -> ExitCode {
    let mut buffer = [0u8; BUFFER];
    let mut out = [0u8; ANSWER * BUFFER];
    match run(rt, &mut buffer, &mut out) {
        Reason::Input | Reason::Rounds => ExitCode::SUCCESS,
        Reason::Output => {
            let _ = rt.eprintln("bench: an answer could not be written");
            ExitCode::FAILURE
        }
    }
}
