// Demand 2 proved: the bytes that a link takes may be cut elsewhere, with each packet and closing byte at the same clock and in the same place among
// the other calls, and no packet sent and no state after it changes. It is said of the lent memory itself, not only of what the machine of
// crates/model shows of it. The statements stand in crates/promises, without a proof; crates/worked applies them to small cases.
// Theorems only; there is no code here.
#![tactic(auto)]
