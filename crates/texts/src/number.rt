// The words of a list's line that are numbers.
ghost use Rattle.std.specs.Prelude.{◌≡◌};
ghost use Rattle.texts.specs.Words.{number_in};

use digits::decimal_of;

// The number that a word stands for, where it begins with a figure. Other words are names.
pub fn number_in(word: &[u8]) -> Option<u32>
    ensures { result ≡ number_in word.now }
{
    match word {
        [b'0'..=b'9', ..] => Some(decimal_of(word)),
        _ => None,
    }
}
