// The words of a line: numbers, and names that stand for numbers.
ghost use Rattle.std.specs.Prelude.{◌<◌, length, IfSome};

use super::damage::FIELDS;
use super::rows::{ASKS, FIRST_ASK};
use super::scenes::SCENES;
use rules::{OUTSIDE, Operation};
use texts::number_in;

// The thirteen operations, WAIT's operators, a number that is not read, and the caller that is no task.
const NUMBERS: [(&str, u8); 17] = [
    ("START", Operation::Start as u8),
    ("STOP", Operation::Stop as u8),
    ("END", Operation::End as u8),
    ("SIGNAL", Operation::Signal as u8),
    ("WAIT", Operation::Wait as u8),
    ("CLEAR", Operation::Clear as u8),
    ("ENTER", Operation::Enter as u8),
    ("EXIT", Operation::Exit as u8),
    ("SEND", Operation::Send as u8),
    ("RETRIEVE", Operation::Retrieve as u8),
    ("ARM", Operation::Arm as u8),
    ("DISARM", Operation::Disarm as u8),
    ("TICK", Operation::Tick as u8),
    ("all", 0),
    ("any", 1),
    ("-", 0),
    ("outside", OUTSIDE),
];

// The place of a name in a list of names and what they name.
fn place_of<T>(word: &[u8], names: &[(&str, T)]) -> Option<u32>
    ensures { IfSome result (λ place. place < length names.now) }
{
    names
        .iter()
        .position(|(name, _)| name.as_bytes() == word)
        .and_then(|place| u32::try_from(place).ok())
}

// What stands at a place of such a list.
pub(crate) fn named_by<T: Copy>(names: &[(&str, T)], place: u32) -> Option<T> {
    names.get(place as usize).map(|(_, named)| *named)
}

// The number that a name stands for: its own, or its place in the list of tables, of fields or of what a line asks for.
fn number_named(word: &[u8]) -> Option<u32> {
    NUMBERS
        .iter()
        .find(|(name, _)| name.as_bytes() == word)
        .map(|(_, number)| u32::from(*number))
        .or_else(|| place_of(word, &SCENES))
        .or_else(|| place_of(word, &FIELDS))
        .or_else(|| place_of(word, &ASKS).map(|place| FIRST_ASK + place))
}

// The number that a word stands for. An unknown word is written out, so that it can't go unseen.
pub(crate) fn value_of(rt: HostRuntime, word: &[u8]) -> u32 {
    if let Some(n) = number_in(word).or_else(|| number_named(word)) {
        return n;
    }
    let _ = print!(rt; "unknown: ");
    let _ = rt.write_all(word);
    let _ = println!(rt);
    u32::MAX
}
