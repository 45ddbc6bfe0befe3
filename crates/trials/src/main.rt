// The executive on document 01's unmarked examples and on bad input: the file `stdin` lists the trials, a line for each, and the file
// `stdout` has their answers, worked out by hand. docs/TRIALS.md says how each follows from document 01.
#![tactic(auto)]

mod configurations;
mod damage;
mod marks;
mod rows;
mod say;
mod scenes;
mod script;
mod trial;
mod words;

use texts::read_whole;

// How many bytes of the list are read: more than it has.
const ROOM: usize = 131072;

// The list is read at once. One that fills the room may go on behind it: nothing of it is played, so that no end of it is lost unseen.
fn main(rt: HostRuntime) {
    let mut room = [0u8; ROOM];
    let text = read_whole(&mut rt.stdin(), &mut room);
    if text.len() == ROOM {
        let _ = println!(rt; "The list of trials is longer than the program reads.");
        return;
    }
    script::play(rt, text);
}
