// The validity check: every rule of the list, by subject, over a front and a lent store or a whole table.
ghost use Rattle.std.specs.Prelude.{◌≡◌, true};
ghost use Rattle.rules.specs.Validity.{shaped, valid};
ghost use Rattle.tables.specs.Fronts.{whole};

use queues::{criteria_right, queues_right};
use regions::{closed_bits, entries_right, holder_right, open_holders_right, regions_right};
use rules::{Table, Timer};
use tables::{Front, Store, counts_right, front_of, store_of};
use tasks::tasks_right;
use timers::timers_right;
use urgency::{elected_now, waiting_right};

// That each array is as long as the rules want it is in its type, and is said here where a proof can cite it.
#[tactic(auto, using(crate::proofs::Checked::as_long))]
fn shape_known(f: &Front, store: &Store)
    ensures { shaped (whole f.now store.now.element store.now.criterion) ≡ true }
{
    let _columns = &f.priority;
    let _timers: &[Timer] = &f.timers;
    let _elements = &store.element;
    let _criteria = &store.criterion;
}

// The bits of the closed regions' entries are gathered once, and serve the regions' part and the election. There is a way out before each
// call and each loop, so that the numbers of a part in packed instructions are done with, and need not be put aside; and a table with a
// circle is out before its urgencies are asked for.
#[tactic(auto, using(crate::proofs::Checked::ways_out))]
pub fn front_valid(f: &Front, store: &Store) -> bool
    ensures { result ≡ valid (whole f.now store.now.element store.now.criterion) }
{
    let v = closed_bits(f);
    let held = regions_right(f, v);
    let counted = entries_right(f);
    let regions_fit = held & counted;
    if !regions_fit {
        return false;
    }
    let waiting = waiting_right(f);
    let hold = open_holders_right(f);
    let lines_fit = waiting & hold;
    if !lines_fit {
        return false;
    }
    let who = elected_now(f, v);
    let ready = holder_right(f, v);
    let election_fits = ready & (f.elected == who);
    if !election_fits {
        return false;
    }
    let counts = counts_right(f.tasks, f.regions, f.queues);
    let stores = queues_right(f, store);
    let clock = timers_right(f);
    let stores_fit = counts & (stores & clock);
    if !stores_fit {
        return false;
    }
    shape_known(f, store);
    let columns = tasks_right(f);
    let criteria = criteria_right(store);
    columns & criteria
}

// A query is in no hurry, so the table is handed over whole.
pub fn is_valid(t: Table) -> bool
    ensures { result ≡ valid t }
{
    front_valid(&front_of(t), &store_of(t))
}
