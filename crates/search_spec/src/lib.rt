// The answer of a search. specs/ says what it means that a log was searched; the code that searches is in the crate
// `search`.
#![tactic(auto)]

// What a search has to go on with: the allowance left, and the most places in use so far.
#[derive(Clone, Copy)]
pub struct Tally {
    pub left: u32,
    pub places: u32,
}

// How a search ends: it found an accepting path; or every choice failed, with the most actions executed on one path; or
// it was stopped, with the number that is given for that. (A number and no `Refusal`: `tell`, judge_answer, tells any.)
#[derive(Clone, Copy)]
pub enum Outcome {
    Found,
    Failed { deepest: u32 },
    Stopped { number: u32 },
}

// A search that has ended, with the tally at its end.
#[derive(Clone, Copy)]
pub struct Ended {
    pub outcome: Outcome,
    pub tally: Tally,
}
