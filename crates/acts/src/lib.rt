// What the act that a packet asks for leaves of the store: no file changes but one, in one of the ways of `Change`, and a sound store stays sound. Definitions
// and theorems only; there is no code here. Proved here: this for every session, packet and clock (`act_kept`); crates/history says it of calls.
#![tactic(auto)]
