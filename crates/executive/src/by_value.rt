// One call on a table by value.
ghost use Rattle.std.specs.Prelude.{◌≡◌};
ghost use Rattle.rules.specs.Step.{step};

use calls::call_checked;
use rules::{Call, Done, Table};
use tables::{front_of, store_of, table_of};

pub fn call(t: Table, k: Call) -> Done
    ensures { result ≡ step t k }
{
    let mut store = store_of(t);
    let d = call_checked(front_of(t), k, &mut store);
    Done {
        table: table_of(d.front, store),
        answer: d.answer,
    }
}
