// What can stand in a block of bytes: numbers of one, two and four bytes, the lowest byte first, and timers.
ghost use Rattle.std.specs.Prelude.{◌≡◌, ℕ, List, length};
ghost use Rattle.rules.specs.Timers.{idle};
ghost use Rattle.packing.specs.Bytes.{half_width, word_width, number, bytes};
ghost use Rattle.packing.specs.Timers.{timer_width, timer_in, timer_bytes};
ghost use Rattle.packing.specs.Widths.{bytes_length, timer_length};

use crate::width::{DATE, HALF_WIDTH, TIMER_WIDTH, UNUSED, WORD_WIDTH};
use rules::Timer;

// A value that has always the same number of bytes.
pub trait Packed: Copy {
    ghost WIDTH: { ℕ };

    ghost ZERO: { Self };

    // The value that some bytes stand for, and the bytes of a value.
    ghost from_bytes: { List ℕ → Self };

    ghost to_bytes: { Self → List ℕ };

    const WIDTH: usize;

    // The value whose bytes are all 0.
    const ZERO: Self;

    fn read(bytes: &[u8]) -> Self
        requires { length bytes.now ≡ WIDTH }
        ensures { result ≡ from_bytes bytes.now };

    fn write(self, bytes: &mut [u8])
        requires { length bytes.old ≡ WIDTH }
        ensures { bytes.new ≡ to_bytes self };

    ghost width_kept: { (x : Self) → length (to_bytes x) ≡ WIDTH };
}

impl Packed for u8 {
    ghost WIDTH = { 1 };

    ghost ZERO = { 0 };

    ghost from_bytes = { number };

    ghost to_bytes = { bytes 1 };

    ghost width_kept = { bytes_length 1 };

    const WIDTH: usize = 1;

    const ZERO: u8 = 0;

    #[tactic(auto, using(crate::proofs::OneNumber::one_read))]
    fn read(bytes: &[u8]) -> u8 {
        bytes[0]
    }

    #[tactic(auto, using(crate::proofs::OneNumber::one_stored))]
    fn write(self, bytes: &mut [u8]) {
        bytes[0] = self;
    }
}

impl Packed for u16 {
    ghost WIDTH = { half_width };

    ghost ZERO = { 0 };

    ghost from_bytes = { number };

    ghost to_bytes = { bytes half_width };

    ghost width_kept = { bytes_length half_width };

    const WIDTH: usize = HALF_WIDTH;

    const ZERO: u16 = 0;

    #[tactic(auto, using(crate::proofs::OneNumber::two_read))]
    fn read(bytes: &[u8]) -> u16 {
        u16::from_le_bytes([bytes[0], bytes[1]])
    }

    #[tactic(auto, using(crate::proofs::OneNumber::two_bytes))]
    fn write(self, bytes: &mut [u8]) {
        bytes.copy_from_slice(&u16::to_le_bytes(self));
    }
}

impl Packed for u32 {
    ghost WIDTH = { word_width };

    ghost ZERO = { 0 };

    ghost from_bytes = { number };

    ghost to_bytes = { bytes word_width };

    ghost width_kept = { bytes_length word_width };

    const WIDTH: usize = WORD_WIDTH;

    const ZERO: u32 = 0;

    #[tactic(auto, using(crate::proofs::OneNumber::four_read))]
    fn read(bytes: &[u8]) -> u32 {
        u32::from_le_bytes([bytes[0], bytes[1], bytes[2], bytes[3]])
    }

    #[tactic(auto, using(crate::proofs::OneNumber::four_bytes))]
    fn write(self, bytes: &mut [u8]) {
        bytes.copy_from_slice(&u32::to_le_bytes(self));
    }
}

impl Packed for Timer {
    ghost WIDTH = { timer_width };

    ghost ZERO = { idle };

    ghost from_bytes = { timer_in };

    ghost to_bytes = { timer_bytes };

    ghost width_kept = { timer_length };

    const WIDTH: usize = TIMER_WIDTH;

    const ZERO: Timer = Timer {
        armed: 0,
        owner: 0,
        event: 0,
        date: 0,
    };

    #[tactic(auto, unfolding(crate::specs::Timers::timer_in))]
    fn read(bytes: &[u8]) -> Timer {
        Timer {
            armed: bytes[0],
            owner: bytes[1],
            event: bytes[2],
            date: u32::read(&bytes[DATE..TIMER_WIDTH]),
        }
    }

    #[tactic(auto, using(crate::proofs::OneNumber::timer_stored))]
    fn write(self, bytes: &mut [u8]) {
        bytes[0] = self.armed;
        bytes[1] = self.owner;
        bytes[2] = self.event;
        bytes[UNUSED] = 0;
        self.date.write(&mut bytes[DATE..TIMER_WIDTH]);
    }
}
