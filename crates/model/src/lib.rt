// The server as a state machine that people read: files by number, sessions by number, and for every call what it answers and what it leaves
// (specs/Step.antt). There is no code here; proofs/ has laws of the order of files alone. That the server of crates/server is this machine is proved in
// crates/refines; what holds of the machine alone in crates/steps; computed examples are in crates/cases.
#![tactic(auto)]
