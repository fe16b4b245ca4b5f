// Demand 1 proved: what each call of crates/server answers, byte for byte, in every state; that a closing leaves what a lost link leaves; and which
// numbers each kind of refusal has. The statements stand in crates/promises, without a proof; crates/worked applies them to small cases.
// Theorems only; there is no code here.
#![tactic(auto)]
