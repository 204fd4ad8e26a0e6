// A chart written down as a card: specs/ says what is written, and proofs/ shows that it is a sound card with that
// chart. The code is in the crate `write_card`.
#![tactic(auto)]
