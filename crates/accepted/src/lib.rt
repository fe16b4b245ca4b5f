// What the packets say of the files, and that the machine of crates/model has the files that they say. Definitions and theorems only; there is no code
// here.
#![tactic(auto)]
