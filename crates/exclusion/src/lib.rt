// Which of the ten operations exclude each other: the paper's exclusion table, and a question to it.
#![tactic(auto)]

ghost use Rattle.std.specs.Prelude.{◌≡◌};
ghost use Rattle.exclusion.specs.Marks.{mark};

// The paper's two marks: X is its +, which excludes, and O its -.
const X: bool = true;

const O: bool = false;

// The rows are operations 0 to 9, and the columns are the same in the same order.
const EXCLUDES: [[bool; 10]; 10] = [
    [X, X, X, X, O, O, O, O, O, O], // START
    [X, X, X, X, O, O, O, O, O, O], // STOP
    [X, X, X, X, O, O, O, O, O, O], // END
    [X, X, X, X, X, X, O, O, O, O], // SIGNAL
    [O, O, O, X, X, X, O, O, O, O], // WAIT
    [O, O, O, X, X, X, O, O, O, O], // CLEAR
    [O, O, O, O, O, O, X, X, O, O], // ENTER
    [O, O, O, O, O, O, X, X, O, O], // EXIT
    [O, O, O, O, O, O, O, O, X, X], // SEND
    [O, O, O, O, O, O, O, O, X, X], // RETRIEVE
];

// Whether operation a excludes operation b. An operation that does not exist excludes everything, so that a caller who
// asks about one never moves a call past it.
#[tactic(auto, unfolding(crate::specs::Marks::mark, crate::specs::Marks::marks))]
pub fn excludes(a: u8, b: u8) -> bool
    ensures { result ≡ mark a b }
{
    EXCLUDES
        .get(usize::from(a))
        .and_then(|row| row.get(usize::from(b)))
        .copied()
        .unwrap_or(true)
}
