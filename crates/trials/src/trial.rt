// One trial: its table, what is tried on it, and the rest of its line.
use super::configurations::{benched, lengthened, listed};
use super::damage::{Field, low_byte, spoiled};
use super::marks::marked;
use super::rows::{Ask, Row};
use super::say::Shown;
use super::scenes::table_of;
use executive::{arrived, call, empty, full, priority, state};
use rules::{Answer, Call, Operation, Table};

// A call: the answer, and whether the table has changed.
fn called(rt: HostRuntime, before: Table, k: Call) -> Table {
    let d = call(before, k);
    let ending = if d.table == before {
        "untouched"
    } else {
        "changed"
    };
    let _ = println!(rt; ": {} {ending}", Shown(d.answer));
    d.table
}

// A query: the answer alone, since the table stays.
fn asked(rt: HostRuntime, table: Table, reply: Answer) -> Table {
    let _ = println!(rt; ": {}", Shown(reply));
    table
}

// A CLEAR of event 0 by task 0, on the table with c in field a at entry b. A change that changes nothing would be no trial.
fn damaged(rt: HostRuntime, table: Table, r: Row) -> Table {
    let other = spoiled(table, Field::from(r.a), r.b, r.c);
    if other == table {
        let _ = println!(rt; ": nothing changed");
        return table;
    }
    let clear = Call {
        caller: 0,
        operation: Operation::Clear.number(),
        a: 1,
        b: 0,
        c: 0,
    };
    called(rt, other, clear)
}

// What a line asks for: a call, a query, or an operation of the program's own. Returns the table that it leaves.
pub(crate) fn trial(rt: HostRuntime, r: Row, before: Table) -> Table {
    let table = table_of(r.scene, before);
    let Row {
        caller,
        a,
        b,
        c,
        ..
    } = r;
    match r.ask {
        Ask::Call(operation) => called(
            rt,
            table,
            Call {
                caller,
                operation,
                a,
                b,
                c,
            },
        ),
        Ask::Arrived => asked(rt, table, arrived(table, caller, a, b)),
        Ask::Empty => asked(rt, table, empty(table, a)),
        Ask::Full => asked(rt, table, full(table, a)),
        Ask::Priority => asked(rt, table, priority(table, a)),
        Ask::State => asked(rt, table, state(table, a)),
        Ask::Change => damaged(rt, table, r),
        Ask::Configure => benched(rt, r),
        Ask::List => listed(rt, r),
        Ask::Lengthen => {
            lengthened(rt);
            table
        }
        Ask::Marks => {
            marked(rt, low_byte(a));
            table
        }
    }
}
