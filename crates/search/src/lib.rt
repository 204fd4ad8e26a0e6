// The search of a log in a chart (01, "How a log is executed"): depth first, occurrences of the next action from left
// to right, under an allowance of steps and in a room of places. It is defined in chart_spec/specs/Lending.antt;
// search_spec/specs/Ending.antt says what it means that the code does this.
#![tactic(auto)]

ghost use Rattle.std.specs.Prelude.{cond, ◌≡◌, ◌≤◌, length};
ghost use Rattle.chart_spec.specs.Executing.{terminates};
ghost use Rattle.room_spec.specs.Room.{chart_in, Rooted, Stands};
ghost use Rattle.room_spec.specs.Building.{Held};
ghost use Rattle.log_spec.specs.Bytes.{log_of};
ghost use Rattle.search_spec.specs.Ending.{Searches, Attempts};
ghost use Rattle.search_spec.specs.declared.Outcome.TheVariants.{Found, Failed};

use room_spec::Root;
use search_spec::{Ended, Outcome, Tally};

// At the log's end a terminating chart accepts.
fn at_end(room: &[u32], place: u32) -> Outcome
    requires { Rooted room.now place }
    ensures { result ≡ cond (terminates (chart_in room.now place)) Found (Failed 0) }
{
    if room_ask::terminates(room, place) {
        Outcome::Found
    } else {
        Outcome::Failed { deepest: 0 }
    }
}

// One choice: its follow-up is x, which may exceed the room. First come the test for 9 and then the test for 10; if
// both pass, the follow-up is a step, and the search goes on from it with the rest of the log.
#[cycle(attempt_search)]
fn attempt(rest: &[u8], room: &mut [u32], x: Root, tally: Tally) -> Ended
    requires { Held room.old x × length rest.now ≤ 256 }
    ensures { Attempts room.old (log_of rest.now) x tally room.new result }
{
    let spent = tally.left == 0;
    let exceeds = room_places::exceeds(x, room);
    if spent {
        let outcome = Outcome::Stopped {
            number: number::ALLOWANCE_SPENT,
        };
        return Ended { outcome, tally };
    }
    if exceeds {
        let outcome = Outcome::Stopped {
            number: number::ROOM_EXCEEDED,
        };
        return Ended { outcome, tally };
    }
    let onward = Tally {
        left: tally.left - 1,
        places: tally.places.max(x.used),
    };
    search(rest, room, x, onward)
}

// The search of a log in the chart at a root. Each occurrence of its first action is a choice; the places of a failed
// choice are free again for the next.
#[cycle(attempt_search)]
pub fn search(log: &[u8], room: &mut [u32], root: Root, mut tally: Tally) -> Ended
    requires { Stands room.old root × length log.now ≤ 256 }
    ensures { Searches room.old (log_of log.now) root tally room.new result }
{
    if log.len() < log_bytes::ACTION_BYTES {
        let outcome = at_end(room, root.place);
        return Ended { outcome, tally };
    }
    let action = log_bytes::action_at(log, 0);
    let rest = &log[log_bytes::ACTION_BYTES..];
    let mut deepest = 0;
    // No index of a list: only executing occurrence k shows whether there is one.
    let mut k = 0;
    while let Ok(x) = room_execute::execute(room, root, k, &action) {
        let ended = attempt(rest, room, x, tally);
        let Outcome::Failed { deepest: beyond } = ended.outcome else {
            return ended;
        };
        deepest = deepest.max(1 + beyond);
        tally = ended.tally;
        k += 1;
    }
    let outcome = Outcome::Failed { deepest };
    Ended { outcome, tally }
}
