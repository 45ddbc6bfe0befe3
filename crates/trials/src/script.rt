// The list of trials, line by line. What the program writes is compared, so that a write that fails is seen there, and ends nothing.
ghost use Rattle.std.specs.Prelude.{◌≡◌, length};

use super::rows::row_of;
use super::scenes::zeros;
use super::trial::trial;
use rules::Table;

// A trial: its name, which stands behind the bar and a space, and what comes of it. Returns the table that it leaves.
fn tried(rt: HostRuntime, text: &[u8], t: Table) -> Table {
    let mut parts = text.splitn(2, |b| *b == b'|');
    let words = parts.next().unwrap_or(&[]);
    if let Some([_, name @ ..]) = parts.next() {
        let _ = rt.write_all(name);
    }
    trial(rt, row_of(rt, words), t)
}

// A line, and the table that it leaves. A heading is written as it is; an empty line, which one that begins with the byte 0 counts as, and
// a remark, which starts with `//`, are not.
fn played(rt: HostRuntime, text: &[u8], t: Table) -> Table {
    match text {
        [] | [0 | b'/', ..] => t,
        [b'#', ..] => {
            let _ = rt.write_all(text);
            let _ = println!(rt);
            t
        }
        _ => tried(rt, text, t),
    }
}

// Plays the list, each line on the table that the one before it left, and returns how many bytes it went through: all of them. What is
// written is not in a contract's reach; it is compared.
pub(crate) fn play(rt: HostRuntime, text: &[u8]) -> usize
    ensures { result ≡ length text.now }
{
    let mut t = zeros();
    for line in text.split(|b| *b == b'\n') {
        t = played(rt, line, t);
    }
    text.len()
}
