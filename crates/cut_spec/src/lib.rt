// The answer to a cut. specs/ defines it for the bytes of a card, and proofs/Promises.antt has what is promised of it;
// the code that cuts is in the crate `cut`.
#![tactic(auto)]

// Number 0, place 0 and the length of the card that was written; or the number and place of a refusal, and no length.
// (One struct of numbers and no `Result`: C reads it.)
#[repr(C)]
#[derive(Clone, Copy)]
pub struct CutAnswer {
    pub number: u32,
    pub place: u32,
    pub length: u32,
}
