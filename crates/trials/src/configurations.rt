// Configurations: their answers, and the tables that they give.
ghost use Rattle.std.specs.Prelude.{◌≡◌, length};

use super::damage::low_byte;
use super::rows::Row;
use super::say::Shown;
use super::scenes::{fresh_one, fresh_table, zeros};
use executive::fresh;
use rules::Table;
use std::array;

// A configuration: its answer, and whether its table is that of zeros.
fn built(rt: HostRuntime, r: Row, priorities: &[u8], bounds: &[u8], marks: &[u8]) -> Table {
    let tasks = low_byte(r.a);
    let regions = low_byte(r.b);
    let queues = low_byte(r.c);
    let d = fresh(tasks, regions, queues, priorities, bounds, marks);
    let ending = if d.table == zeros() { "zeros" } else { "built" };
    let _ = println!(rt; ": {} {ending}", Shown(d.answer));
    d.table
}

// With the lists of document 01's examples.
pub(crate) fn benched(rt: HostRuntime, r: Row) -> Table {
    built(rt, r, &[5, 5, 2], &[2], &[0, 0])
}

// The same number all along, but for the last of the first n.
fn all_but_last(each: u8, n: u8, last: u8) -> [u8; 256]
    ensures { 256 ≡ length result }
{
    array::from_fn(|i| if i + 1 == usize::from(n) { last } else { each })
}

// With so many priorities, each 7, so many bounds, each 2, and so many marks, each 0: but for the last bound and the last mark.
pub(crate) fn listed(rt: HostRuntime, r: Row) -> Table {
    let priorities = [7; 256];
    let bounds = all_but_last(2, r.bounds, r.last);
    let marks = all_but_last(0, r.marks, r.mark);
    built(
        rt,
        r,
        &priorities[..usize::from(r.priorities)],
        &bounds[..usize::from(r.bounds)],
        &marks[..usize::from(r.marks)],
    )
}

// Entries past a count leave no trace in the table: document 01's configuration, and the same with longer lists.
pub(crate) fn lengthened(rt: HostRuntime) {
    let longer = fresh_table(3, 2, 1, &[5, 5, 2, 9], &[2, 65], &[0, 0, 2]);
    let which = if longer == fresh_one() {
        "the same"
    } else {
        "another"
    };
    let _ = println!(rt; ": {which} table");
}
