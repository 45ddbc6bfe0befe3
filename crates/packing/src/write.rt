// Values written into a block of bytes. The bytes of a value are cut out of the block, where the compiler can see that they lie side by side, and
// makes one copy of the whole loop.
ghost use Rattle.std.specs.Prelude.{◌≡◌};
ghost use Rattle.packing.specs.Bytes.{values_put};

use crate::room::has_room;
use crate::value::Packed;

// Writes the values over the bytes from `at` on; nothing where there are too few.
pub fn put<T: Packed>(block: &mut [u8], at: usize, from: &[T])
    ensures { block.new ≡ values_put T.WIDTH T.to_bytes at from.now block.old }
{
    if !has_room(block.len(), at, T::WIDTH, from.len()) {
        return;
    }
    let mut start = at;
    for x in from {
        let end = start + T::WIDTH;
        x.write(&mut block[start..end]);
        start = end;
    }
}
