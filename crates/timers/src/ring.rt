// A tick: the counter goes on, the timers that are due signal their events to the tasks that own them, and are idle again.
ghost use Rattle.std.specs.Prelude.{◌≡◌, ◌<◌, map};
ghost use Rattle.rules.specs.Numbers.{task_room};
ghost use Rattle.rules.specs.Timers.{is_due, rung};
ghost use Rattle.timers.specs.Signals.{front_signalled, front_rung, front_ticked};

use crate::arm::{idle_if, is_armed};
use crate::clock::{ahead_of, later_by};
use rules::{TASKS, TIMERS, Task, Timer};
use tables::Front;
use tasks::signalled_by;

// Whether the counter has reached the timer's date: no tick is left.
#[tactic(auto, using(crate::proofs::Dates::due_is))]
fn is_due(ticks: u32, r: Timer) -> bool
    ensures { result ≡ is_due ticks r }
{
    is_armed(r) & (ahead_of(r.date, ticks) == 0)
}

fn rung_timer(ticks: u32, r: Timer) -> Timer
    ensures { result ≡ rung ticks r }
{
    idle_if(is_due(ticks, r), r)
}

// The timers once those that are due have rung, by a loop as `disarmed_all`.
fn rung_all(ticks: u32, mut timers: [Timer; TIMERS]) -> [Timer; TIMERS]
    ensures { result ≡ map (rung ticks) timers }
{
    for r in &mut timers {
        *r = rung_timer(ticks, *r);
    }
    timers
}

#[tactic(auto, unfolding(crate::specs::Signals::signalled_at))]
fn signal_at(i: usize, event: u8, f: &mut Front)
    requires { i < task_room }
    ensures { f.new ≡ front_signalled i event f.old }
{
    let after = signalled_by(
        event as u32,
        Task {
            state: f.state[i],
            arrived: f.arrived[i],
            list: f.list[i],
            operator: f.operator[i],
        },
    );
    f.state[i] = after.state;
    f.arrived[i] = after.arrived;
    f.list[i] = after.list;
    f.operator[i] = after.operator;
}

// The columns once each timer that is due has signalled. One of a damaged table may name a task past the columns: it signals nobody.
fn rung_rows(ticks: u32, timers: [Timer; TIMERS], f: &mut Front)
    ensures { f.new ≡ front_rung ticks timers f.old }
{
    for r in timers {
        let owner = r.owner as usize;
        if is_due(ticks, r) & (owner < TASKS) {
            signal_at(owner, r.event, f);
        }
    }
}

pub fn tick(f: &mut Front)
    ensures { f.new ≡ front_ticked f.old }
{
    let now = later_by(f.ticks, 1);
    rung_rows(now, f.timers, f);
    f.timers = rung_all(now, f.timers);
    f.ticks = now;
}
