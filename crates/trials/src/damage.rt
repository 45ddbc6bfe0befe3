// A table with one number of it changed.
use super::words::named_by;
use rules::{QUEUES, REGIONS, STORE, TASKS, TIMERS, Table};

// The fields of a table, and those of a timer behind them.
#[derive(Clone, Copy)]
pub(crate) enum Field {
    Tasks,
    Regions,
    Queues,
    Elected,
    Priority,
    State,
    Arrived,
    List,
    Operator,
    Awaits,
    Holder,
    Entries,
    Opened,
    Bound,
    Length,
    Element,
    Criterion,
    Ticks,
    Flag,
    Owner,
    Event,
    Date,
}

// The fields by their names. A field's number is its place.
pub(crate) const FIELDS: [(&str, Field); 22] = [
    ("tasks", Field::Tasks),
    ("regions", Field::Regions),
    ("queues", Field::Queues),
    ("elected", Field::Elected),
    ("priority", Field::Priority),
    ("state", Field::State),
    ("arrived", Field::Arrived),
    ("list", Field::List),
    ("operator", Field::Operator),
    ("awaits", Field::Awaits),
    ("holder", Field::Holder),
    ("entries", Field::Entries),
    ("opened", Field::Opened),
    ("bound", Field::Bound),
    ("length", Field::Length),
    ("element", Field::Element),
    ("criterion", Field::Criterion),
    ("ticks", Field::Ticks),
    ("flag", Field::Flag),
    ("owner", Field::Owner),
    ("event", Field::Event),
    ("date", Field::Date),
];

// A number that no name stands for is the last one's.
impl From<u32> for Field {
    fn from(n: u32) -> Field {
        named_by(&FIELDS, n).unwrap_or(Field::Date)
    }
}

// What a number leaves over 256.
pub(crate) fn low_byte(n: u32) -> u8 {
    (n % 256) as u8
}

// The table with n in that field, at that entry where the field is an array. A field that is narrower takes the lowest bits.
pub(crate) fn spoiled(mut t: Table, field: Field, entry: u32, n: u32) -> Table {
    let at = entry as usize;
    let byte = low_byte(n);
    let half = (n % 65536) as u16;
    match field {
        Field::Tasks => t.tasks = byte,
        Field::Regions => t.regions = byte,
        Field::Queues => t.queues = byte,
        Field::Elected => t.elected = byte,
        Field::Priority => t.priority[at % TASKS] = byte,
        Field::State => t.state[at % TASKS] = byte,
        Field::Arrived => t.arrived[at % TASKS] = half,
        Field::List => t.list[at % TASKS] = half,
        Field::Operator => t.operator[at % TASKS] = byte,
        Field::Awaits => t.awaits[at % TASKS] = byte,
        Field::Holder => t.holder[at % REGIONS] = byte,
        Field::Entries => t.entries[at % REGIONS] = byte,
        Field::Opened => t.opened[at % REGIONS] = byte,
        Field::Bound => t.bound[at % QUEUES] = byte,
        Field::Length => t.length[at % QUEUES] = byte,
        Field::Element => t.element[at % STORE] = n,
        Field::Criterion => t.criterion[at % STORE] = byte,
        Field::Ticks => t.ticks = n,
        Field::Flag => t.timers[at % TIMERS].armed = byte,
        Field::Owner => t.timers[at % TIMERS].owner = byte,
        Field::Event => t.timers[at % TIMERS].event = byte,
        Field::Date => t.timers[at % TIMERS].date = n,
    }
    t
}
