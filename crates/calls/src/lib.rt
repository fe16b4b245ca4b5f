// The calls of a driver, as data: what the machine of crates/model steps by, and what histories (crates/history) are made of. There is no code here.
#![tactic(auto)]
