// What a chart means and how a log is executed: definitions in specs/, laws in proofs/. All code is proved against
// these definitions.
#![tactic(auto)]
