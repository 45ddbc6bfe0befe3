// A trial's row of numbers, read from its words.
use super::damage::low_byte;
use super::scenes::Scene;
use super::words::{named_by, value_of};

// What a line asks for: a call, one of the queries, or an operation of the program's own.
#[derive(Clone, Copy)]
pub(crate) enum Ask {
    Call(u8),
    Arrived,
    Empty,
    Full,
    Priority,
    State,
    Change,
    Configure,
    List,
    Lengthen,
    Marks,
}

// What is no call, by its names. A number below the first of them is that of a call's operation.
pub(crate) const ASKS: [(&str, Ask); 10] = [
    ("ARRIVED", Ask::Arrived),
    ("EMPTY", Ask::Empty),
    ("FULL", Ask::Full),
    ("PRIORITY", Ask::Priority),
    ("STATE", Ask::State),
    ("Change", Ask::Change),
    ("Configure", Ask::Configure),
    ("List", Ask::List),
    ("Lengthen", Ask::Lengthen),
    ("Marks", Ask::Marks),
];

pub(crate) const FIRST_ASK: u32 = 256;

// A number that no name stands for asks for what `Lengthen` does.
impl From<u32> for Ask {
    fn from(n: u32) -> Ask {
        match u8::try_from(n) {
            Ok(operation) => Ask::Call(operation),
            Err(_) => named_by(&ASKS, n - FIRST_ASK).unwrap_or(Ask::Lengthen),
        }
    }
}

// A line `TABLE CALLER OPERATION A B C PRIORITIES BOUNDS LAST MARKS MARK`. What a line does not list is 0.
#[derive(Clone, Copy)]
pub(crate) struct Row {
    pub(crate) scene: Scene,
    pub(crate) caller: u8,
    pub(crate) ask: Ask,
    pub(crate) a: u32,
    pub(crate) b: u32,
    pub(crate) c: u32,
    pub(crate) priorities: u8,
    pub(crate) bounds: u8,
    pub(crate) last: u8,
    pub(crate) marks: u8,
    pub(crate) mark: u8,
}

// A word ends at a space, and there are at most eleven of them: the last stands for those behind it too.
pub(crate) fn row_of(rt: HostRuntime, text: &[u8]) -> Row {
    let mut numbers = [0; 11];
    let words = text.split(|b| *b == b' ').filter(|word| !word.is_empty());
    for (place, word) in words.enumerate() {
        numbers[place.min(10)] = value_of(rt, word);
    }
    let [
        table,
        caller,
        operation,
        a,
        b,
        c,
        priorities,
        bounds,
        last,
        marks,
        mark,
    ] = numbers;
    Row {
        scene: Scene::from(table),
        caller: low_byte(caller),
        ask: Ask::from(operation),
        a,
        b,
        c,
        priorities: low_byte(priorities),
        bounds: low_byte(bounds),
        last: low_byte(last),
        marks: low_byte(marks),
        mark: low_byte(mark),
    }
}
