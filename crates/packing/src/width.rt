// How many bytes a number or a timer has.
pub const HALF_WIDTH: usize = 2;

pub const WORD_WIDTH: usize = 4;

pub const TIMER_WIDTH: usize = 8;

// In a timer's bytes: the place of the byte that is not used, and that of the date.
pub const UNUSED: usize = 3;

pub(crate) const DATE: usize = 4;
