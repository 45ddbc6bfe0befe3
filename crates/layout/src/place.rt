// The places of the parts, and the size of a block.
use packing::{HALF_WIDTH, TIMER_WIDTH, WORD_WIDTH};
use rules::{QUEUES, REGIONS, STORE, TASKS, TIMERS};

// The counts and the elected task stand in the first four bytes; each part begins where the one before it ends.
pub(crate) const PRIORITY: usize = 4;

pub(crate) const STATE: usize = PRIORITY + TASKS;

pub(crate) const ARRIVED: usize = STATE + TASKS;

pub(crate) const LIST: usize = ARRIVED + HALF_WIDTH * TASKS;

pub(crate) const OPERATOR: usize = LIST + HALF_WIDTH * TASKS;

pub(crate) const AWAITS: usize = OPERATOR + TASKS;

pub(crate) const HOLDER: usize = AWAITS + TASKS;

pub(crate) const ENTRIES: usize = HOLDER + REGIONS;

pub(crate) const OPENED: usize = ENTRIES + REGIONS;

pub(crate) const BOUND: usize = OPENED + REGIONS;

pub(crate) const LENGTH: usize = BOUND + QUEUES;

pub(crate) const ELEMENT: usize = LENGTH + QUEUES;

pub(crate) const CRITERION: usize = ELEMENT + WORD_WIDTH * STORE;

pub(crate) const TICKS: usize = CRITERION + STORE;

pub(crate) const TIMER: usize = TICKS + WORD_WIDTH;

pub const SIZE: usize = TIMER + TIMER_WIDTH * TIMERS;
