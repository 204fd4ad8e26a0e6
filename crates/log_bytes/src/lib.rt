// Logs as bytes (01, "The log"): the rules that refuse one, and one action out of it. They are defined in
// log_spec/specs/Refusing.antt and Bytes.antt.
#![tactic(auto)]

ghost use Rattle.std.specs.Prelude.{◌≡◌, ◌<◌, ◌≤◌, length};
ghost use Rattle.room_spec.specs.Building.{action_of};
ghost use Rattle.log_spec.specs.Bytes.{acts, actions_of, action_at};
ghost use Rattle.log_spec.specs.Refusing.{in_rule, declared, undeclared, refusing};

use card_spec::Counts;
use number_spec::Refusal;
use room_spec::Action;

// How many bytes an action has, and how many a log has at most: 128 actions.
pub const ACTION_BYTES: usize = 2;

pub const MOST_BYTES: usize = 256;

// An action by its two bytes: lifeline times 2, plus 0 for emission or 1 for reception; then the message. (No
// `From`: the type is of the crate `room_spec`, and a `From` would have to stand there.)
pub fn action_of(first: u8, second: u8) -> Action
    ensures { action_of result ≡ acts first second }
{
    Action {
        lifeline: u32::from(first / 2),
        receives: first % 2 == 1,
        message: u32::from(second),
    }
}

// Action i of the log.
pub fn action_at(log: &[u8], i: usize) -> Action
    requires { i < actions_of log.now }
    ensures { action_of result ≡ action_at log.now i }
{
    let at = i * ACTION_BYTES;
    action_of(log[at], log[at + 1])
}

// Whether the length is in rule: even, and at most 256 bytes.
fn is_in_rule(log: &[u8]) -> bool
    ensures { result ≡ in_rule log.now }
{
    log.len() % ACTION_BYTES == 0 && log.len() <= MOST_BYTES
}

// Whether an action's lifeline and message are declared.
fn is_declared(action: Action, counts: Counts) -> bool
    ensures { result ≡ declared counts.lifelines counts.messages (action_of action) }
{
    action.lifeline < counts.lifelines && action.message < counts.messages
}

// Refuses the lowest action with a lifeline or message not declared.
fn lowest_undeclared(log: &[u8], counts: Counts) -> Result<(), Refusal>
    requires { length log.now ≤ 256 }
    ensures { result ≡ undeclared counts.lifelines counts.messages log.now }
{
    let first = (0..log.len() / ACTION_BYTES).find(|&i| !is_declared(action_at(log, i), counts));
    match first {
        Some(i) => Err(Refusal::UndeclaredAction { action: i as u32 }),
        None => Ok(()),
    }
}

// What refuses a log, given the card's numbers of lifelines and messages.
pub fn check(log: &[u8], counts: Counts) -> Result<(), Refusal>
    ensures { result ≡ refusing counts.lifelines counts.messages log.now }
{
    number::rule(Refusal::LogLength, is_in_rule(log))?;
    lowest_undeclared(log, counts)
}
