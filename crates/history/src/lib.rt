// Histories: any calls of a driver, one after the other, from a server just made. Definitions and theorems only; there is no code here.
//
// What a call answers and leaves is one definition in crates/server, which the call is proved to meet. So a theorem on these definitions is a
// theorem on the calls. Proved here: a state that calls made is always sound, so that 35 is never given for it.
#![tactic(auto)]
