// What a session is sent at the driver's requests, of the machine of crates/model: whoever downloads a file gets its bytes, and whoever asks for a
// directory gets the entries of the files that the command names, whatever other sessions do meanwhile and whatever the session itself uploads. Definitions
// and theorems only; there is no code here.
#![tactic(auto)]
