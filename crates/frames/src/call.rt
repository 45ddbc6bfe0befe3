// Whether a call line stands at a place of the input, and the call in it.
ghost use Rattle.std.specs.Prelude.{◌≡◌, true, ℕ, suc, ◌<◌, length, get_or};
ghost use Rattle.rules.specs.Words.{every};
ghost use Rattle.digits.specs.Digits.{is_digit};
ghost use Rattle.frames.specs.Calls.{call_length, call_in};
ghost use Rattle.frames.specs.TwoDigits.{step_bytes, two_digits_at};
ghost use Rattle.frames.specs.CallLine.{call_line_at, request_at};

use digits::{all_digits, two_digits_of};
use rules::Call;

// The digits of a call line: caller 2, operation 2, a, b, c 8 each.
const CALL: usize = 28;

// The bytes of a call line: its digits and its line feed.
pub const CALL_LINE: usize = CALL + 1;

// The bytes that one step of a vector takes.
const STEP: usize = 16;

// The number in each two digits that stand side by side. There is no branch, so that the loop becomes one step over 16 bytes.
fn two_digit_numbers(s: &[u8]) -> [u8; STEP]
    requires { length s.now ≡ suc step_bytes }
    ensures { (i : ℕ) → i < step_bytes → get_or result i 0 ≡ two_digits_at s.now i }
{
    std::array::from_fn(|i| two_digits_of(s[i], s[i + 1]))
}

// The call in a line: every second of these numbers makes up its fields, and the two halves overlap so that each is a whole step.
#[tactic(auto, using(crate::proofs::TwoDigits::call_read))]
fn call_of(line: &[u8]) -> Call
    requires { length line.now ≡ call_length }
    ensures { result ≡ call_in line.now }
{
    let p = two_digit_numbers(&line[0..17]);
    let q = two_digit_numbers(&line[11..CALL]);
    Call {
        caller: p[0],
        operation: p[2],
        a: u32::from_be_bytes([p[4], p[6], p[8], p[10]]),
        b: u32::from_be_bytes([p[12], p[14], q[5], q[7]]),
        c: u32::from_be_bytes([q[9], q[11], q[13], q[15]]),
    }
}

// Whether a line's characters are digits: in two parts that overlap, each of which is one step of a vector.
#[tactic(auto, using(crate::proofs::CallLine::every_halves))]
fn digits_alone(s: &[u8]) -> bool
    requires { length s.now ≡ call_length }
    ensures { result ≡ every is_digit s.now }
{
    let front = all_digits(&s[0..STEP]);
    let back = all_digits(&s[12..CALL]);
    front & back
}

#[tactic(auto, using(crate::proofs::CallLine::call_line_short, crate::proofs::CallLine::call_line_other, crate::proofs::CallLine::call_line_ended))]
fn call_line_at(input: &[u8], at: usize) -> bool
    ensures { result ≡ call_line_at input.now at }
{
    if input.len() < CALL_LINE {
        return false;
    }
    if input.len() - CALL_LINE < at {
        return false;
    }
    let end = at + CALL;
    if input[end] != b'\n' {
        return false;
    }
    digits_alone(&input[at..end])
}

// What a place of the input asks for: a call, where a call line stands there.
#[tactic(auto, using(crate::proofs::CallLine::request_none, crate::proofs::CallLine::request_some, crate::proofs::CallLine::request_room))]
pub fn request_at(input: &[u8], at: usize) -> Option<Call>
    ensures { result ≡ request_at input.now at }
{
    if !call_line_at(input, at) {
        return None;
    }
    let end = at + CALL;
    Some(call_of(&input[at..end]))
}
