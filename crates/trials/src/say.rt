// What a line shows of an answer.
use rules::Answer;
use std::fmt;

// An answer, each of its numbers behind its name.
#[derive(Clone, Copy)]
pub(crate) struct Shown(pub(crate) Answer);

impl fmt::Display for Shown {
    fn fmt<W: fmt::Write>(&self, f: &mut fmt::Formatter<W>) -> fmt::Result {
        let Answer {
            status,
            value,
            key,
            elected,
            displaced,
        } = self.0;
        write!(
            f,
            "status {status} value {value} key {key} elected {elected} displaced {displaced}"
        )
    }
}
