// Tables that trials start from. Each but zeros, wrong and turning is reached from a fresh one by calls, so that it is valid.
use super::damage::{Field, spoiled};
use super::words::named_by;
use executive::{call, fresh};
use layout::{SIZE, unpack};
use rules::{Call, OUTSIDE, Operation, PLACES, QUEUES, REGIONS, TASKS, Table};

// What a trial starts from.
#[derive(Clone, Copy)]
pub(crate) enum Scene {
    // Task 0 is ready and elected.
    Fresh,
    // Event 4 of task 0 has arrived.
    Signalled,
    // As signalled, and task 0 holds region 0.
    Held,
    // Queue 0 holds (11, 3) and (12, 9), its bound.
    Full,
    // Tasks 0 and 1, of equal priority, are ready.
    Rivals,
    // Task 0 waits for events 0 and 1, the others are stopped: nobody is elected.
    Asleep,
    // Every task is stopped.
    Ended,
    // Something of everything. Tasks 0 and 1 are ready, task 2 waits for events 0 and 1 and has event 0, task 0 holds region 0, and queue 0
    // holds (11, 3).
    Busy,
    // 64 tasks, of which the last is the most urgent, 16 regions, 8 queues of bound 64.
    Largest,
    // As largest, and task 63 is ready, and so elected.
    Last,
    // As largest, and queue 7 is at its bound, with elements 100 to 163 of criterion 3.
    Filled,
    // Not valid.
    Zeros,
    // As busy, but with task 1 as the elected one: not valid.
    Wrong,
    // As fresh, but with the counter two ticks before it starts again. No log reaches that, so that it is set.
    Turning,
    // As fresh, and task 0 has armed timer 0 for its event 1, five ticks ahead.
    Armed,
    // As fresh, but region 0 is open.
    Shared,
    // As shared. Task 0 holds region 0, which task 2 waits for, and task 1 is ready. Task 0 has borrowed the urgency of task 2.
    Lined,
    // As fresh, but both regions are open. Task 0 holds region 0, and task 2, which holds region 1, waits for it.
    Crossed,
    // The table that the line before left.
    Then,
}

// The scenes by their names. A scene's number is its place.
pub(crate) const SCENES: [(&str, Scene); 19] = [
    ("fresh", Scene::Fresh),
    ("signalled", Scene::Signalled),
    ("held", Scene::Held),
    ("full", Scene::Full),
    ("rivals", Scene::Rivals),
    ("asleep", Scene::Asleep),
    ("ended", Scene::Ended),
    ("busy", Scene::Busy),
    ("largest", Scene::Largest),
    ("last", Scene::Last),
    ("filled", Scene::Filled),
    ("zeros", Scene::Zeros),
    ("wrong", Scene::Wrong),
    ("turning", Scene::Turning),
    ("armed", Scene::Armed),
    ("shared", Scene::Shared),
    ("lined", Scene::Lined),
    ("crossed", Scene::Crossed),
    ("then", Scene::Then),
];

// A number that no name stands for is the last one's.
impl From<u32> for Scene {
    fn from(n: u32) -> Scene {
        named_by(&SCENES, n).unwrap_or(Scene::Then)
    }
}

// WAIT's operator.
const ALL: u32 = 0;

// A call whose answer nobody looks at.
fn after(t: Table, caller: u8, operation: Operation, a: u32, b: u32, c: u32) -> Table {
    let k = Call {
        caller,
        operation: operation.number(),
        a,
        b,
        c,
    };
    call(t, k).table
}

// A configuration whose answer nobody looks at.
pub(crate) fn fresh_table(
    tasks: u8,
    regions: u8,
    queues: u8,
    priorities: &[u8],
    bounds: &[u8],
    marks: &[u8],
) -> Table {
    fresh(tasks, regions, queues, priorities, bounds, marks).table
}

// The table of document 01's examples: priorities 5, 5, 2, one queue of bound 2, and two regions with these marks.
fn fresh_with(marks: &[u8]) -> Table {
    fresh_table(3, 2, 1, &[5, 5, 2], &[2], marks)
}

pub(crate) fn fresh_one() -> Table {
    fresh_with(&[0, 0])
}

pub(crate) fn zeros() -> Table {
    unpack(&[0; SIZE])
}

fn signalled() -> Table {
    after(fresh_one(), OUTSIDE, Operation::Signal, 4, 0, 0)
}

fn full() -> Table {
    let t = after(fresh_one(), 0, Operation::Send, 0, 11, 3);
    after(t, 0, Operation::Send, 0, 12, 9)
}

fn busy() -> Table {
    let t = after(fresh_one(), 0, Operation::Start, 2, 0, 0);
    let t = after(t, 2, Operation::Wait, 3, ALL, 0);
    let t = after(t, OUTSIDE, Operation::Signal, 0, 2, 0);
    let t = after(t, 0, Operation::Start, 1, 0, 0);
    let t = after(t, 0, Operation::Enter, 0, 0, 0);
    after(t, 0, Operation::Send, 0, 11, 3)
}

fn largest() -> Table {
    let mut priorities = [7u8; TASKS];
    priorities[TASKS - 1] = 0;
    fresh_table(
        TASKS as u8,
        REGIONS as u8,
        QUEUES as u8,
        &priorities,
        &[PLACES as u8; QUEUES],
        &[0; REGIONS],
    )
}

fn filled() -> Table {
    let mut t = largest();
    for i in 0..PLACES as u32 {
        t = after(t, 0, Operation::Send, 7, 100 + i, 3);
    }
    t
}

fn shared() -> Table {
    fresh_with(&[1, 0])
}

fn lined() -> Table {
    let t = after(shared(), 0, Operation::Start, 1, 0, 0);
    let t = after(t, 0, Operation::Enter, 0, 0, 0);
    let t = after(t, 0, Operation::Start, 2, 0, 0);
    after(t, 2, Operation::Enter, 0, 0, 0)
}

fn crossed() -> Table {
    let t = after(fresh_with(&[1, 1]), 0, Operation::Enter, 0, 0, 0);
    let t = after(t, 0, Operation::Start, 2, 0, 0);
    let t = after(t, 2, Operation::Enter, 1, 0, 0);
    after(t, 2, Operation::Enter, 0, 0, 0)
}

// The table of a scene. `before` is the table that the line before left.
pub(crate) fn table_of(scene: Scene, before: Table) -> Table {
    match scene {
        Scene::Fresh => fresh_one(),
        Scene::Signalled => signalled(),
        Scene::Held => after(signalled(), 0, Operation::Enter, 0, 0, 0),
        Scene::Full => full(),
        Scene::Rivals => after(fresh_one(), 0, Operation::Start, 1, 0, 0),
        Scene::Asleep => after(fresh_one(), 0, Operation::Wait, 3, ALL, 0),
        Scene::Ended => after(fresh_one(), 0, Operation::End, 0, 0, 0),
        Scene::Busy => busy(),
        Scene::Largest => largest(),
        Scene::Last => after(largest(), 0, Operation::Start, 63, 0, 0),
        Scene::Filled => filled(),
        Scene::Zeros => zeros(),
        Scene::Wrong => spoiled(busy(), Field::Elected, 0, 1),
        Scene::Turning => spoiled(fresh_one(), Field::Ticks, 0, 4294967294),
        Scene::Armed => after(fresh_one(), 0, Operation::Arm, 0, 1, 5),
        Scene::Shared => shared(),
        Scene::Lined => lined(),
        Scene::Crossed => crossed(),
        Scene::Then => before,
    }
}
