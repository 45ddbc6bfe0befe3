// Whether a block has room for what is to be read or written.
ghost use Rattle.std.specs.Prelude.{◌≡◌};
ghost use Rattle.packing.specs.Bytes.{has_room};

// No sum or product is made that might not fit. Numbers of no bytes have room wherever there is a place.
#[tactic(auto, using(crate::proofs::OneNumber::room_is, crate::proofs::OneNumber::room_of_none, crate::proofs::OneNumber::no_room))]
pub(crate) fn has_room(size: usize, at: usize, width: usize, count: usize) -> bool
    ensures { result ≡ has_room size at width count }
{
    if size < at {
        return false;
    }
    if width == 0 {
        return true;
    }
    count <= (size - at) / width
}
