// The input of a case, put together from its parts: files, and long lines that are made here.
ghost use Rattle.std.specs.Prelude.{◌≤◌, length};

use std::fs::File;
use std::io;
use texts::{number_in, read_whole};

// How many bytes an input may have.
pub(crate) const ROOM: usize = 131072;

// No file has a name that is not text.
fn opened(rt: HostRuntime, name: &[u8]) -> io::Result<File> {
    match str::from_utf8(name) {
        Ok(text) => File::open(&rt, text),
        Err(_) => Err(io::Error::from(io::ErrorKind::NotFound)),
    }
}

// A file. One that isn't there is written out, so that it can't go unseen.
fn file_laid(rt: HostRuntime, name: &[u8], rest: &mut [u8]) -> usize
    ensures { result ≤ length rest.old }
{
    match opened(rt, name) {
        Ok(mut file) => read_whole(&mut file, rest).len(),
        Err(_) => {
            let _ = println!(rt; "no file");
            0
        }
    }
}

// A line of so many characters A and a line feed.
fn line_laid(rt: HostRuntime, letters: usize, rest: &mut [u8]) -> usize
    ensures { result ≤ length rest.old }
{
    if letters < rest.len() {
        rest[..letters].fill(b'A');
        rest[letters] = b'\n';
        return letters + 1;
    }
    rest.fill(b'A');
    let _ = println!(rt; "no room");
    rest.len()
}

// The parts in turn, as the words of a text name them: a number stands for so many characters A and a line feed, any other word for a file.
// Each word ends at a space, or with the text. Returns the input.
pub(crate) fn laid<'a>(rt: HostRuntime, text: &[u8], room: &'a mut [u8]) -> &'a [u8]
    ensures { length result.now ≤ length room.old }
{
    let mut end = 0;
    for piece in text.split_inclusive(|b| *b == b' ') {
        let word = piece.strip_suffix(b" ").unwrap_or(piece);
        let rest = &mut room[end..];
        end += match number_in(word) {
            Some(letters) => line_laid(rt, letters as usize, rest),
            None => file_laid(rt, word, rest),
        };
    }
    &room[..end]
}
