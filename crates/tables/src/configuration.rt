// A fresh table from a configuration, and the table of zeros where the configuration is refused.
ghost use Rattle.std.specs.Prelude.{◌≡◌, ◌≤◌, length};
ghost use Rattle.std.specs.Bool.{then_some};
ghost use Rattle.rules.specs.Answers.{refused};
ghost use Rattle.rules.specs.Fresh.{zero_table, configuration_in_range, fresh_table, fresh as fresh_done};
ghost use Rattle.tables.specs.Fresh.{fresh_by};
ghost use Rattle.rules.specs.Words.{padded};
ghost use Rattle.rules.specs.Validity.{bound_in_range, mark_in_range};

use crate::counts::counts_right;
use rules::{
    Answer, Done, NOBODY, PLACES, QUEUES, READY, REGIONS, Refusal, STORE, TASKS, TIMERS, Table,
    Timer,
};

// The table of zeros, which stands for a refused configuration.
fn zero_table() -> Table
    ensures { result ≡ zero_table }
{
    Table {
        tasks: 0,
        regions: 0,
        queues: 0,
        elected: 0,
        priority: [0; TASKS],
        state: [0; TASKS],
        arrived: [0; TASKS],
        list: [0; TASKS],
        operator: [0; TASKS],
        awaits: [0; TASKS],
        holder: [0; REGIONS],
        entries: [0; REGIONS],
        opened: [0; REGIONS],
        bound: [0; QUEUES],
        length: [0; QUEUES],
        element: [0; STORE],
        criterion: [0; STORE],
        ticks: 0,
        timers: [Timer {
            armed: 0,
            owner: 0,
            event: 0,
            date: 0,
        }; TIMERS],
    }
}

// Each refused configuration gets this.
fn out_of_range() -> Done
    ensures { result ≡ refused zero_table 20 }
{
    Done {
        table: zero_table(),
        answer: Answer::plain(Refusal::OutOfRange.number(), NOBODY),
    }
}

// Task 0 is ready and elected, the others are stopped, regions free, queues empty, timers idle and the counter 0.
fn fresh_table(
    tasks: u8,
    regions: u8,
    queues: u8,
    priority: [u8; TASKS],
    bound: [u8; QUEUES],
    opened: [u8; REGIONS],
) -> Table
    ensures { result ≡ fresh_by tasks regions queues priority bound opened }
{
    let mut t = zero_table();
    t.tasks = tasks;
    t.regions = regions;
    t.queues = queues;
    t.priority = priority;
    t.state[0] = READY;
    t.bound = bound;
    t.opened = opened;
    t
}

// The bytes, and zeros behind them up to the end of the room.
fn padded<const N: usize>(bytes: &[u8]) -> [u8; N]
    requires { length bytes.now ≤ N }
    ensures { result ≡ padded N 0 bytes.now }
{
    let mut out = [0; N];
    out[..bytes.len()].copy_from_slice(bytes);
    out
}

fn bound_right(bound: u8) -> bool
    ensures { result ≡ bound_in_range bound }
{
    0 < bound && usize::from(bound) <= PLACES
}

// 0 closed or 1 open.
fn mark_right(mark: u8) -> bool
    ensures { result ≡ mark_in_range mark }
{
    mark <= 1
}

// The fresh table, or None where the configuration is out of range. That each priority is in range is what its type says.
fn configured(
    tasks: u8,
    regions: u8,
    queues: u8,
    priorities: &[u8],
    bounds: &[u8],
    marks: &[u8],
) -> Option<Table>
    ensures { result ≡ then_some (configuration_in_range tasks regions queues priorities.now bounds.now marks.now) (fresh_table tasks regions queues priorities.now bounds.now marks.now) }
{
    if !counts_right(tasks, regions, queues) {
        return None;
    }
    let priorities = priorities.get(..usize::from(tasks))?;
    let bounds = bounds.get(..usize::from(queues))?;
    let marks = marks.get(..usize::from(regions))?;
    let bounds_fit = bounds.iter().fold(true, |ok, b| ok & bound_right(*b));
    if !bounds_fit {
        return None;
    }
    let marks_fit = marks.iter().fold(true, |ok, m| ok & mark_right(*m));
    if !marks_fit {
        return None;
    }
    Some(fresh_table(
        tasks,
        regions,
        queues,
        padded(priorities),
        padded(bounds),
        padded(marks),
    ))
}

// Lists longer than their counts are taken as far as the counts go; shorter ones are out of range.
pub fn fresh(
    tasks: u8,
    regions: u8,
    queues: u8,
    priorities: &[u8],
    bounds: &[u8],
    marks: &[u8],
) -> Done
    ensures { result ≡ fresh_done tasks regions queues priorities.now bounds.now marks.now }
{
    let Some(table) = configured(tasks, regions, queues, priorities, bounds, marks) else {
        return out_of_range();
    };
    Done {
        table,
        answer: Answer::plain(0, 0),
    }
}
