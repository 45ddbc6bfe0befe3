// A table in two parts, its front and its store: taken apart, and put together again.
ghost use Rattle.std.specs.Prelude.{◌≡◌};
ghost use Rattle.tables.specs.Fronts.{whole, front_of, store_of};

use rules::{Answer, QUEUES, REGIONS, STORE, TASKS, TIMERS, Table, Timer};

// A table without its store, the places of the queues: that part is small enough to go by value from call to call.
#[derive(Clone, Copy)]
pub struct Front {
    pub tasks: u8,
    pub regions: u8,
    pub queues: u8,
    pub elected: u8,
    pub priority: [u8; TASKS],
    pub state: [u8; TASKS],
    pub arrived: [u16; TASKS],
    pub list: [u16; TASKS],
    pub operator: [u8; TASKS],
    pub awaits: [u8; TASKS],
    pub holder: [u8; REGIONS],
    pub entries: [u8; REGIONS],
    pub opened: [u8; REGIONS],
    pub bound: [u8; QUEUES],
    pub length: [u8; QUEUES],
    pub ticks: u32,
    pub timers: [Timer; TIMERS],
}

// The places of all queues: what a function is lent that takes an element out of a queue or adds one. Queue q has places 64 q to 64 q + 63.
#[derive(Clone, Copy)]
pub struct Store {
    pub element: [u32; STORE],
    pub criterion: [u8; STORE],
}

// After a call on a lent store: the rest of the table, and the answer.
#[derive(Clone, Copy)]
pub struct FrontDone {
    pub front: Front,
    pub answer: Answer,
}

pub fn front_of(t: Table) -> Front
    ensures { result ≡ front_of t }
{
    let Table {
        tasks,
        regions,
        queues,
        elected,
        priority,
        state,
        arrived,
        list,
        operator,
        awaits,
        holder,
        entries,
        opened,
        bound,
        length,
        ticks,
        timers,
        ..
    } = t;
    Front {
        tasks,
        regions,
        queues,
        elected,
        priority,
        state,
        arrived,
        list,
        operator,
        awaits,
        holder,
        entries,
        opened,
        bound,
        length,
        ticks,
        timers,
    }
}

pub fn store_of(t: Table) -> Store
    ensures { result ≡ store_of t }
{
    let Table {
        element,
        criterion,
        ..
    } = t;
    Store { element, criterion }
}

pub fn table_of(f: Front, s: Store) -> Table
    ensures { result ≡ whole f s.element s.criterion }
{
    let Front {
        tasks,
        regions,
        queues,
        elected,
        priority,
        state,
        arrived,
        list,
        operator,
        awaits,
        holder,
        entries,
        opened,
        bound,
        length,
        ticks,
        timers,
    } = f;
    let Store { element, criterion } = s;
    Table {
        tasks,
        regions,
        queues,
        elected,
        priority,
        state,
        arrived,
        list,
        operator,
        awaits,
        holder,
        entries,
        opened,
        bound,
        length,
        element,
        criterion,
        ticks,
        timers,
    }
}
