// Whole bench inputs, fed to a session piece by piece, or walked over line by line: the file `stdin` lists the cases, `data` has their
// inputs, and the file `stdout` has the answers, worked out by hand. docs/CASES.md says how each follows from document 01.
#![tactic(auto)]

mod feed;
mod input;
mod left;
mod list;

use texts::read_whole;

// The list is read at once, and so can have 65,536 bytes.
fn main(rt: HostRuntime) {
    let mut room = [0u8; 65536];
    list::play(rt, read_whole(&mut rt.stdin(), &mut room));
}
