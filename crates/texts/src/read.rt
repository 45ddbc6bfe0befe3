// A text read whole, into memory that the caller lends.
ghost use Rattle.std.specs.Prelude.{◌≤◌, length};
ghost use Rattle.std.specs.Io.KnownBytes.{Consumes};

use std::io::Read;

// Reads until the buffer is full, the input has ended or a read has failed, and hands back what was read: the bytes that the input begins with.
pub fn read_whole<'a, R: Read>(input: &mut R, buffer: &'a mut [u8]) -> &'a [u8]
    ensures within { length result.now ≤ length buffer.old }
    ensures read { Consumes (R.remaining input.old) (R.remaining input.new) result.now }
{
    let mut end = 0;
    while let Ok(n @ 1..) = input.read(&mut buffer[end..]) {
        end += n;
    }
    &buffer[..end]
}
