// Numbers in decimal, for the words of a list of tests.
ghost use Rattle.std.specs.Prelude.{◌≡◌};
ghost use Rattle.digits.specs.Digits.{decimal};

// The number that a word stands for, in 32 bits. A character counts for what its code leaves over 16, so that every word has a number.
pub fn decimal_of(word: &[u8]) -> u32
    ensures { result ≡ decimal word.now }
{
    let n = word
        .iter()
        .fold(0u64, |n, b| n % 1000000000 * 10 + u64::from(b % 16));
    (n % 4294967296) as u32
}
