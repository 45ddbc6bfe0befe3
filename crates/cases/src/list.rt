// The list of cases, line by line. What the program writes is compared, so that a write that fails is seen there, and ends nothing.
ghost use Rattle.std.specs.Prelude.{◌≤◌};

use super::feed::{LARGEST, run};
use super::input::{ROOM, laid};
use super::left::left;
use digits::decimal_of;

// The size of the pieces: the largest where the word says none, or a larger one.
fn size_of(word: &[u8]) -> usize
    ensures { (1 ≤ result) × (result ≤ 4096) }
{
    match decimal_of(word) as usize {
        0 => LARGEST,
        n => n.min(LARGEST),
    }
}

// A case: its heading, which names its parts and the size of the pieces; the answers to its input, which is put together whole; and in how
// many pieces that was fed, so that a run that ignores the size is seen.
fn case(rt: HostRuntime, text: &[u8]) {
    let mut words = text.splitn(2, |b| *b == b' ');
    let size = size_of(words.next().unwrap_or(&[]));
    let parts = words.next().unwrap_or(&[]);
    let _ = print!(rt; "# ");
    let _ = rt.write_all(parts);
    let _ = println!(rt; ", in pieces of {size}");
    let mut room = [0; ROOM];
    let pieces = run(rt, laid(rt, parts, &mut room), size);
    let _ = println!(rt; "# pieces: {pieces}");
}

// A line of the list. A heading is written as it is; an empty line and a remark, which starts with `//`, are not. A case starts with a
// number, and what is to be left of an input with the word `left`.
fn played(rt: HostRuntime, line: &[u8]) {
    match line {
        [] | [b'/', ..] => {}
        [b'#', ..] => {
            let _ = rt.write_all(line);
            let _ = println!(rt);
        }
        [b'l', ..] => left(rt, line),
        _ => case(rt, line),
    }
}

// A line ends at its line feed, or with the text.
pub(crate) fn play(rt: HostRuntime, text: &[u8]) {
    for line in text.split(|b| *b == b'\n') {
        played(rt, line);
    }
}
