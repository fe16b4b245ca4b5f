// The server of crates/server is the machine of crates/model: each call answers and leaves what a step of the machine does, by the view of crates/views.
// Definitions and theorems only; there is no code here.
#![tactic(auto)]
