// Election: the ready task of smallest priority number, and of equals the lowest task number; and the one that it displaces.
#![tactic(auto)]

ghost use Rattle.std.specs.Prelude.{◌≡◌, cond, ◌&&◌, ◌+◌, ◌^◌, ◌<◌, ◌≤◌, min, eqb};
ghost use Rattle.std.specs.Int.Count.{count_trailing_zeros};
ghost use Rattle.rules.specs.Numbers.{task_room, priority_end};
ghost use Rattle.rules.specs.Tasks.{ready};
ghost use Rattle.rules.specs.Election.{smallest, lowest, ready_at, priority_at, best_ready, displaced_by, elected_by, elect_by};
ghost use Rattle.election.specs.Ranks.{not_ready, rank_of};
ghost use Rattle.election.specs.Words.{word_bits, word};

use rules::{Elected, NOBODY, READY, TASKS};

// Past every priority number: what the smallest one is where there is none.
pub const PRIORITY_END: u16 = 256;

// What is added to the priority number of a task that is not ready: enough to stand behind PRIORITY_END.
const NOT_READY: u16 = 512;

// A word of ready tasks, a bit for each.
type ReadyWord = u64;

fn handicap(state: u8) -> u16
    ensures { result ≡ cond (eqb state ready) 0 not_ready }
{
    if state == READY { 0 } else { NOT_READY }
}

// Where a task stands. By this one number both walks below treat every task alike, without a branch, and vectorise.
fn rank(state: u8, priority: u8) -> u16
    ensures { result ≡ rank_of state priority }
{
    handicap(state) + u16::from(priority)
}

// The smallest priority number of a ready task, PRIORITY_END where none is ready.
fn smallest_of(state: &[u8; TASKS], priority: &[u8; TASKS]) -> u16
    ensures { result ≡ smallest task_room (ready_at state.now) (priority_at priority.now) }
{
    state
        .iter()
        .zip(priority)
        .fold(PRIORITY_END, |least, (s, p)| rank(*s, *p).min(least))
}

#[tactic(auto, using(crate::proofs::Ranks::has_is))]
fn has_it(state: u8, priority: u8, p: u16) -> bool
    requires { p ≤ priority_end }
    ensures { result ≡ (eqb state ready && eqb priority p) }
{
    rank(state, priority) == p
}

// Bit i of a word, if it is to be set.
fn bit_of(set: bool, i: u32) -> ReadyWord
    requires { i < word_bits }
    ensures { result ≡ cond set (2 ^ i) 0 }
{
    if set { 1 << i } else { 0 }
}

// The ready tasks of priority p, as bits.
fn ready_word(state: &[u8; TASKS], priority: &[u8; TASKS], p: u16) -> ReadyWord
    requires { p ≤ priority_end }
    ensures { result ≡ word task_room (λ i. ready_at state.now i && eqb (priority_at priority.now i) p) }
{
    state.iter().zip(priority).enumerate().fold(
        0,
        |w, (i, (s, q))| w | bit_of(has_it(*s, *q, p), i as u32),
    )
}

// The place of a word's lowest set bit: the number of zeros behind it.
fn lowest_bit(w: ReadyWord) -> u32
    ensures { result ≡ count_trailing_zeros word_bits w }
{
    w.trailing_zeros()
}

// The lowest number of a ready task of priority p; NOBODY, which is what a table stores, where there is none: the empty word would give its width.
fn lowest_of(state: &[u8; TASKS], priority: &[u8; TASKS], p: u16) -> u8
    requires { p ≤ priority_end }
    ensures { result ≡ lowest task_room (λ i. ready_at state.now i && eqb (priority_at priority.now i) p) }
{
    let w = ready_word(state, priority, p);
    if w == 0 {
        return NOBODY;
    }
    lowest_bit(w) as u8
}

pub fn best_ready(state: &[u8; TASKS], priority: &[u8; TASKS]) -> u8
    ensures { result ≡ best_ready state.now priority.now }
{
    let p = smallest_of(state, priority);
    lowest_of(state, priority, p)
}

// The holder behind the entry v, if there is one; else the best ready task.
#[tactic(auto, unfolding(rules::specs::Election::elected_by))]
pub fn elected_by(v: u8, state: &[u8; TASKS], priority: &[u8; TASKS]) -> u8
    ensures { result ≡ elected_by v state.now priority.now }
{
    if v == 0 {
        return best_ready(state, priority);
    }
    v - 1
}

// Whether a task is ready: a number past the tasks is nobody's.
fn is_ready(state: &[u8; TASKS], task: u8) -> bool
    ensures { result ≡ ready_at state.now task }
{
    state.get(usize::from(task)).is_some_and(|s| *s == READY)
}

// The former elected task, if it is still ready and no longer elected; else NOBODY, as an answer has it.
#[tactic(auto, unfolding(rules::specs::Election::displaced_by))]
fn displaced_by(former: u8, state: &[u8; TASKS], elected: u8) -> u8
    ensures { result ≡ displaced_by former state.now elected }
{
    let aside = is_ready(state, former) & (former != elected);
    if aside { former } else { NOBODY }
}

// Both answers of an election, where `former` was elected before it: every call that elects takes both from here.
pub fn elect(former: u8, v: u8, state: &[u8; TASKS], priority: &[u8; TASKS]) -> Elected
    ensures { result ≡ elect_by former v state.now priority.now }
{
    let task = elected_by(v, state, priority);
    Elected {
        task,
        displaced: displaced_by(former, state, task),
    }
}
