// The things that the rules speak of: tasks, the table, a call and its answer. What each call does stands in `specs/`; of code there is here
// only what belongs to an answer.
#![tactic(auto)]

ghost use Rattle.std.specs.Prelude.{◌≡◌};
ghost use Rattle.rules.specs.Numbers.{nobody};
ghost use Rattle.rules.specs.Statuses.{number_of};
ghost use Rattle.rules.specs.Commands.{operation_number, its_call, Names, Reads};

// How many of each object a table has room for.
pub const TASKS: usize = 64;

pub const REGIONS: usize = 16;

pub const QUEUES: usize = 8;

pub const TIMERS: usize = 16;

// Places of the store for each queue, and for all queues.
pub const PLACES: usize = 64;

pub const STORE: usize = 512;

// Events of a task, and criteria of an element: their numbers lie below these.
pub const EVENTS: u32 = 16;

pub const CRITERIA: u32 = 16;

// For RETRIEVE: the largest criterion present.
pub const LARGEST_PRESENT: u32 = 16;

// The longest delay of a timer.
pub const LONGEST_DELAY: u32 = 2147483647;

// Who calls from the outside; and the elected task where none is ready.
pub const OUTSIDE: u8 = 255;

pub const NOBODY: u8 = 255;

// The states of a task.
pub const STOPPED: u8 = 0;

pub const READY: u8 = 1;

pub const WAITING: u8 = 2;

pub const SUSPENDED: u8 = 3;

// The marks of a region.
pub const CLOSED: u8 = 0;

pub const OPEN: u8 = 1;

// The thirteen operations, by their numbers.
#[derive(Clone, Copy, PartialEq, Eq)]
pub enum Operation {
    Start = 0,
    Stop = 1,
    End = 2,
    Signal = 3,
    Wait = 4,
    Clear = 5,
    Enter = 6,
    Exit = 7,
    Send = 8,
    Retrieve = 9,
    Arm = 10,
    Disarm = 11,
    Tick = 12,
}

// What a call may change of a task; its priority is configured and stays. The state is 0 stopped, 1 ready, 2 waiting for events;
// bit i of `arrived` and `list` stands for event i.
#[derive(Clone, Copy)]
pub struct Task {
    pub state: u8,
    pub arrived: u16,
    pub list: u16,
    pub operator: u8,
}

// A timer that is armed is 1 in `armed`, and signals the event to the task that owns it when the tick counter reaches the date; an
// idle one is all 0.
#[derive(Clone, Copy, PartialEq, Eq)]
pub struct Timer {
    pub armed: u8,
    pub owner: u8,
    pub event: u8,
    pub date: u32,
}

// What is said of a region: `holder` is 0 where it is free, else the holder's number plus 1; `entries` is how often the holder has
// entered it and not yet left.
#[derive(Clone, Copy)]
pub struct Region {
    pub holder: u8,
    pub entries: u8,
}

// The executive's whole state. Tasks stand in columns, an array for each thing said of a task, so that a check goes through one at a
// time and a function can be lent just those that it reads; regions likewise. `awaits` has for each task 0, or the number plus 1 of the
// region that it waits for: such a task is stored as ready, and its state is 3. `opened` has 1 for each open region. Queue q has places 64 q to 64 q + 63 of the flat store,
// oldest element first.
#[derive(Clone, Copy, PartialEq, Eq)]
pub struct Table {
    pub tasks: u8,
    pub regions: u8,
    pub queues: u8,
    pub elected: u8,
    pub priority: [u8; TASKS],
    pub state: [u8; TASKS],
    pub arrived: [u16; TASKS],
    pub list: [u16; TASKS],
    pub operator: [u8; TASKS],
    pub awaits: [u8; TASKS],
    pub holder: [u8; REGIONS],
    pub entries: [u8; REGIONS],
    pub opened: [u8; REGIONS],
    pub bound: [u8; QUEUES],
    pub length: [u8; QUEUES],
    pub element: [u32; STORE],
    pub criterion: [u8; STORE],
    pub ticks: u32,
    pub timers: [Timer; TIMERS],
}

// Who calls, what for, and three numbers.
#[derive(Clone, Copy)]
pub struct Call {
    pub caller: u8,
    pub operation: u8,
    pub a: u32,
    pub b: u32,
    pub c: u32,
}

// A call whose operation has been read.
#[derive(Clone, Copy)]
pub struct Command {
    pub caller: u8,
    pub operation: Operation,
    pub a: u32,
    pub b: u32,
    pub c: u32,
}

impl TryFrom<Call> for Command {
    type Error = Refusal;

    ghost try_from_gives = { Reads };

    fn try_from(k: Call) -> Result<Command, Refusal> {
        Ok(Command {
            caller: k.caller,
            operation: Operation::try_from(k.operation)?,
            a: k.a,
            b: k.b,
            c: k.c,
        })
    }
}

impl From<Command> for Call {
    ghost from_gives = { λ k c. c ≡ its_call k };

    fn from(k: Command) -> Call {
        Call {
            caller: k.caller,
            operation: k.operation.number(),
            a: k.a,
            b: k.b,
            c: k.c,
        }
    }
}

// What an election answers: who is elected, and the former one if it was pushed aside. 255 stands for nobody.
#[derive(Clone, Copy)]
pub struct Elected {
    pub task: u8,
    pub displaced: u8,
}

#[derive(Clone, Copy)]
pub struct Answer {
    pub status: u8,
    pub value: u32,
    pub key: u8,
    pub elected: u8,
    pub displaced: u8,
}

impl Answer {
    // One that gives nothing out and says that nobody was pushed aside: each refusal's, and that of most accepted calls.
    pub fn plain(status: u8, elected: u8) -> Answer
        ensures { result ≡ record { status = status; value = 0; key = 0; elected = elected; displaced = nobody } }
    {
        Answer {
            status: status,
            value: 0,
            key: 0,
            elected: elected,
            displaced: NOBODY,
        }
    }
}

// Why something is refused, each reason by its row of the list of statuses.
#[derive(Clone, Copy, PartialEq, Eq)]
pub enum Refusal {
    NotValid = 10,
    NoOperation = 11,
    NotElected = 12,
    Barred = 13,
    Missing = 14,
    WrongState = 15,
    Inside = 16,
    QueueFull = 17,
    NoneFits = 18,
    BadOperator = 19,
    OutOfRange = 20,
    Malformed = 21,
    EntriesFull = 22,
    NotHeld = 23,
    ClosesCircle = 24,
    StopsHolder = 25,
}

impl Operation {
    pub fn number(self) -> u8
        ensures { result ≡ operation_number self }
    {
        self as u8
    }
}

// A number past the last operation names none.
impl TryFrom<u8> for Operation {
    type Error = Refusal;

    ghost try_from_gives = { Names };

    fn try_from(number: u8) -> Result<Operation, Refusal> {
        match number {
            0 => Ok(Operation::Start),
            1 => Ok(Operation::Stop),
            2 => Ok(Operation::End),
            3 => Ok(Operation::Signal),
            4 => Ok(Operation::Wait),
            5 => Ok(Operation::Clear),
            6 => Ok(Operation::Enter),
            7 => Ok(Operation::Exit),
            8 => Ok(Operation::Send),
            9 => Ok(Operation::Retrieve),
            10 => Ok(Operation::Arm),
            11 => Ok(Operation::Disarm),
            12 => Ok(Operation::Tick),
            _ => Err(Refusal::NoOperation),
        }
    }
}

impl Refusal {
    // Its number in the list.
    pub fn number(self) -> u8
        ensures { result ≡ number_of self }
    {
        self as u8
    }
}

// What a call hands back: the table after it, and the answer.
#[derive(Clone, Copy)]
pub struct Done {
    pub table: Table,
    pub answer: Answer,
}
