// Whether a part terminates, and whether it evades a lifeline (01, "How a log is executed"). Both are defined in
// chart_spec/specs/Executing.antt, and found by recursion down the room: the place number falls at each call.
#![tactic(auto)]

ghost use Rattle.std.specs.Prelude.{ℕ, Bool, ◌≡◌};
ghost use Rattle.room_spec.specs.Room.{chart_in, Rooted};
ghost use Rattle.room_spec.specs.Descending.{Descends};
ghost use Rattle.room_spec.proofs.Descending.{terminates_descends, evades_descends};
ghost use Rattle.chart_spec.specs.Chart.{Chart, act};
ghost use Rattle.chart_spec.specs.Executing as chart;

use node::Node;

// A question about a part, found by descending to its actions: `answer` is what a chart answers, and `descends` says
// how that follows from what its parts answer. What an action answers depends on its lifeline alone.
trait Question: Copy {
    ghost answer: { Self → Chart → Bool };

    fn at_action(self, lifeline: u32) -> bool
        ensures { (receives : Bool) (message : ℕ)
            → result ≡ answer self (act (record { line = lifeline; receives = receives; message = message })) };

    ghost descends: { (question : Self) → Descends (answer question) };
}

// An action does not terminate.
#[derive(Clone, Copy)]
struct Termination;

impl Question for Termination {
    ghost answer = { λ question part. chart.terminates part };

    fn at_action(self, _lifeline: u32) -> bool {
        false
    }

    ghost descends = { λ question. terminates_descends };
}

// An action evades every lifeline but its own.
#[derive(Clone, Copy)]
struct Evasion {
    lifeline: u32,
}

impl Question for Evasion {
    ghost answer = { λ question part. chart.evades part question.lifeline };

    fn at_action(self, lifeline: u32) -> bool {
        lifeline != self.lifeline
    }

    ghost descends = { λ question. evades_descends question.lifeline };
}

// What a part answers.
fn ask<Q: Question>(room: &[u32], place: u32, question: Q) -> bool
    requires { Rooted room.now place }
    ensures { result ≡ Q.answer question (chart_in room.now place) }
{
    let node = room_places::read(room, place);
    match node.kind {
        Node::EMPTY => true,
        Node::EMISSION..=Node::RECEPTION => question.at_action(node.a),
        Node::STRICT..=Node::PAR => ask(room, node.a, question) && ask(room, node.b, question),
        Node::ALT => ask(room, node.a, question) || ask(room, node.b, question),
        Node::STRICT_LOOP..=Node::PAR_LOOP => true,
        _ => true,
    }
}

// Whether a part terminates.
pub fn terminates(room: &[u32], place: u32) -> bool
    requires { Rooted room.now place }
    ensures { result ≡ chart.terminates (chart_in room.now place) }
{
    ask(room, place, Termination)
}

// Whether a part evades a lifeline.
pub fn evades(room: &[u32], place: u32, lifeline: u32) -> bool
    requires { Rooted room.now place }
    ensures { result ≡ chart.evades (chart_in room.now place) lifeline }
{
    ask(room, place, Evasion { lifeline })
}
