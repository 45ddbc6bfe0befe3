// The counts of a table or a configuration.
ghost use Rattle.std.specs.Prelude.{◌≡◌};
ghost use Rattle.rules.specs.Validity.{counts_in_range};

use rules::{QUEUES, REGIONS, TASKS};

// At least one task, and no more of anything than there is room for.
pub fn counts_right(tasks: u8, regions: u8, queues: u8) -> bool
    ensures { result ≡ counts_in_range tasks regions queues }
{
    (0 < tasks)
        & (((tasks as usize) <= TASKS)
            & (((regions as usize) <= REGIONS) & ((queues as usize) <= QUEUES)))
}
