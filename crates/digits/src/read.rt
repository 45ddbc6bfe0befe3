// Upper-case hexadecimal digits, read: whether characters are digits, and the number in two of them.
ghost use Rattle.std.specs.Prelude.{◌≡◌, ◌+◌, ◌*◌};
ghost use Rattle.rules.specs.Words.{every};
ghost use Rattle.digits.specs.Digits.{is_digit, digit};

fn is_digit(b: u8) -> bool
    ensures { result ≡ is_digit b }
{
    ((b'0' <= b) & (b <= b'9')) | ((b'A' <= b) & (b <= b'F'))
}

// Whether every byte is a digit. There is no branch, so that the loop vectorises.
pub fn all_digits(s: &[u8]) -> bool
    ensures { result ≡ every is_digit s.now }
{
    s.iter().fold(true, |ok, b| ok & is_digit(*b))
}

// What a digit stands for, and 0 for another character: every byte gets a number, so that no caller checks first.
#[tactic(auto, unfolding(crate::specs::Digits::digit))]
fn digit_of(b: u8) -> u8
    ensures { result ≡ digit b }
{
    match b {
        b'0'..=b'9' => b - b'0',
        b'A'..=b'F' => b - b'A' + 10,
        _ => 0,
    }
}

// The number in two digits, wherever they stand.
#[tactic(auto, using(crate::proofs::Hexadecimal::digit_small))]
pub fn two_digits_of(high: u8, low: u8) -> u8
    ensures { result ≡ digit high * 16 + digit low }
{
    digit_of(high) * 16 + digit_of(low)
}
