// Upper-case hexadecimal, written.
ghost use Rattle.std.specs.Prelude.{◌≡◌, ◌<◌, length};
ghost use Rattle.digits.specs.Digits.{character, digits};

#[tactic(auto, unfolding(crate::specs::Digits::character))]
fn character_of(d: u8) -> u8
    requires { d < 16 }
    ensures { result ≡ character d }
{
    if d < 10 { b'0' + d } else { b'A' + d - 10 }
}

// Fills the slice with the number's last digits, as many as it has places, from its end on. By index: of the bytes that a loop over
// `iter_mut().rev()` writes, a proof knows nothing.
pub fn put_digits(out: &mut [u8], n: u32)
    ensures { out.new ≡ digits (length out.old) n }
{
    let mut rest = n;
    for i in (0..out.len()).rev() {
        out[i] = character_of((rest % 16) as u8);
        rest /= 16;
    }
}
