// What is promised of every call (demand 1) and that each answer is the real one (demand 2): statements and the definitions that they cite, and no
// proof. Their proofs are in crates/answers and crates/cutting; crates/worked applies each statement, as a hypothesis, to small cases.
#![tactic(auto)]
