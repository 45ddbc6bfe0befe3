// Values read out of a block of bytes. The bytes of a value are cut out of the block, where the compiler can see that they lie side by side, and
// makes one copy of the whole loop.
ghost use Rattle.std.specs.Prelude.{◌≡◌};
ghost use Rattle.packing.specs.Bytes.{values_taken};

use crate::room::has_room;
use crate::value::Packed;

// Fills `into` with the values from `at` on; leaves it as it is where there are fewer.
pub fn take<T: Packed>(block: &[u8], at: usize, into: &mut [T])
    ensures { into.new ≡ values_taken T.WIDTH T.from_bytes at block.now into.old }
{
    if !has_room(block.len(), at, T::WIDTH, into.len()) {
        return;
    }
    let mut start = at;
    for x in into.iter_mut() {
        let end = start + T::WIDTH;
        *x = T::read(&block[start..end]);
        start = end;
    }
}
