// The answer to a refusal, and to a search that has ended (01, "Verdicts and numbers given"). Both are defined in
// judge_spec/specs/Judgment.antt; chart_spec/specs/Lending.antt says what is told of an ending.
#![tactic(auto)]

ghost use Rattle.std.specs.Prelude.{◌≡◌, ◌≤◌, ltb};
ghost use Rattle.chart_spec.specs.Lending.{unaccepted, told};
ghost use Rattle.search_spec.specs.Ending.{ending_of};
ghost use Rattle.judge_spec.specs.Judgment.{judged_of, refused_at};

use judge_spec::Judged;
use search_spec::{Ended, Outcome};

// A refusal has no figures, and neither has a chart that exceeds the room. (No `From` of a `Refusal`: this tells any
// number and place.)
pub fn refused(number: u32, place: u32) -> Judged
    ensures { result ≡ refused_at number place }
{
    Judged {
        number,
        place,
        steps: 0,
        places: 0,
    }
}

// The number, as C is given it, of a log that was not accepted: it deviates if no path got through the whole log, else
// it is short. (An enum for the one call between here and `Judged` would be no plainer.)
fn unaccepted(deepest: u32, actions: u32) -> u32
    ensures { result ≡ unaccepted (ltb deepest actions) }
{
    if deepest < actions {
        number::DEVIATES
    } else {
        number::SHORT
    }
}

// The answer to a search that began with this allowance, for a log of so many actions. The steps are what the search
// has taken of the allowance.
pub fn tell(ended: Ended, allowance: u32, actions: u32) -> Judged
    requires { ended.tally.left ≤ allowance }
    ensures { result ≡ judged_of (told actions (ending_of allowance ended)) }
{
    let (number, place) = match ended.outcome {
        Outcome::Found => (number::ACCEPTED, actions),
        Outcome::Failed { deepest } => (unaccepted(deepest, actions), deepest),
        Outcome::Stopped { number } => (number, 0),
    };
    Judged {
        number,
        place,
        steps: allowance - ended.tally.left,
        places: ended.tally.places,
    }
}
