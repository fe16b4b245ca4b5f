// The machine of crates/model at work: passes of calls, computed, with what each call says and what they leave in plain bytes. No proof is needed to
// compute them, and none is used: a case shows what the definitions say. There is no code here.
#![tactic(auto)]
