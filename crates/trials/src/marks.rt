// The exclusion table, a row to a line, in the paper's own marks.
use exclusion::excludes;

// The row of an operation: + where it excludes the operation of the column, else -.
pub(crate) fn marked(rt: HostRuntime, row: u8) {
    let _ = print!(rt; ": ");
    for column in 0..10 {
        let mark = if excludes(row, column) { '+' } else { '-' };
        let _ = print!(rt; "{mark}");
    }
    let _ = println!(rt);
}
