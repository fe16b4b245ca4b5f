// The demands, as theorems on the calls of crates/server and on histories of them (crates/history). Definitions and theorems only; there is no
// code here. Each statement is a named type in specs/, beside the sentence that it renders; its proof stands in proofs/. All of them are one
// statement in specs/Demands.antt.
#![tactic(auto)]
