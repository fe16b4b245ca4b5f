// The statements of crates/promises at work: each is taken as a hypothesis and applied to small cases that are computed from the definitions, so that a
// statement made weaker no longer gives what a case says. Theorems only; there is no code here, and the statements' own proofs are not used.
#![tactic(auto)]
