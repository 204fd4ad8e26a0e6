// What a judgment returns. specs/ defines it for the bytes of a card and of a log, and proofs/Promises.antt has what is
// promised of it; the code that judges is in the crate `judge`.
#![tactic(auto)]

// The judgment of a log by a card: number, place, steps, places. (One struct of numbers and no `Result`: C reads it.)
#[repr(C)]
#[derive(Clone, Copy)]
pub struct Judged {
    pub number: u32,
    pub place: u32,
    pub steps: u32,
    pub places: u32,
}
