// What is left of an input behind its first lines, handed back by one reader that walks over them.
use super::input::{ROOM, laid};
use digits::decimal_of;
use lines::behind_lines;

// The words are `left`, how many lines are walked over, and the parts of the input. Written are a heading with the parts, the lines and how
// many bytes are left; then these bytes, and a line feed, so that bytes that none ends don't run into the next heading.
pub(crate) fn left(rt: HostRuntime, text: &[u8]) {
    let mut words = text.splitn(3, |b| *b == b' ').skip(1);
    let lines = decimal_of(words.next().unwrap_or(&[])) as usize;
    let parts = words.next().unwrap_or(&[]);
    let mut room = [0; ROOM];
    let rest = behind_lines(laid(rt, parts, &mut room), lines);
    let _ = print!(rt; "# ");
    let _ = rt.write_all(parts);
    let _ = println!(rt; ", lines walked over: {lines}, bytes left: {}", rest.len());
    let _ = rt.write_all(rest);
    let _ = println!(rt);
}
