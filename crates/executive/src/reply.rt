// What a query's answer is made of: why it is refused, and the value, which stands only where nothing is refused.
ghost use Rattle.std.specs.Prelude.{◌≡◌, MatchResult};
ghost use Rattle.rules.specs.Statuses.{number_of, status_of};
ghost use Rattle.rules.specs.Words.{first};
ghost use Rattle.rules.specs.Answers.{replied};
ghost use Rattle.rules.specs.Refusals.{arrived_reasons, object_reasons};
ghost use Rattle.executive.specs.Replies.{reply_by};

use refusals::{refuse, refused_by};
use rules::{Answer, OUTSIDE, Refusal, Table};
use validity::is_valid;

// The answer to a query: its value, or the reason for which it is refused.
fn reply_of(reply: Result<u32, Refusal>, elected: u8) -> Answer
    ensures { MatchResult reply (λ value. result ≡ reply_by 0 value elected) (λ reason. result ≡ reply_by (number_of reason) 0 elected) }
{
    match reply {
        Ok(value) => Answer {
            value: value,
            ..Answer::plain(0, elected)
        },
        Err(reason) => refused_by(reason, elected),
    }
}

// 10 and 14: what a query of one object, of which there are `count`, may be refused for.
#[tactic(auto, unfolding(rules::specs::Refusals::object_reasons))]
fn object_right(t: &Table, count: u8, i: u32) -> Result<(), Refusal>
    ensures { status_of result ≡ first (object_reasons t.now count i) }
{
    refuse(!is_valid(*t), Refusal::NotValid)?;
    refuse(i >= u32::from(count), Refusal::Missing)
}

// 10, 12, 14 and 19.
#[tactic(auto, unfolding(rules::specs::Refusals::arrived_reasons))]
fn arrived_right(t: &Table, caller: u8, list: u32, operator: u32) -> Result<(), Refusal>
    ensures { status_of result ≡ first (arrived_reasons t.now caller list operator) }
{
    refuse(!is_valid(*t), Refusal::NotValid)?;
    refuse(
        caller == OUTSIDE || caller != t.elected,
        Refusal::NotElected,
    )?;
    refuse(!(1..=65535).contains(&list), Refusal::Missing)?;
    refuse(operator > 1, Refusal::BadOperator)
}

// The answer to a query of one object, of which there are `count`.
pub(crate) fn object_reply(t: &Table, count: u8, i: u32, value: u32) -> Answer
    ensures { result ≡ replied t.now (first (object_reasons t.now count i)) value }
{
    reply_of(object_right(t, count, i).map(|()| value), t.elected)
}

// The answer to ARRIVED.
pub(crate) fn arrived_reply(t: &Table, caller: u8, list: u32, operator: u32, value: u32) -> Answer
    ensures { result ≡ replied t.now (first (arrived_reasons t.now caller list operator)) value }
{
    let reply = arrived_right(t, caller, list, operator).map(|()| value);
    reply_of(reply, t.elected)
}
