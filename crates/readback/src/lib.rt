// What crates/back writes, read again: the text turns into the same bytes, no text with these bytes has fewer pairs of brackets, and `mark` and `deeper` are
// answered only where no text of the grammar turns into the bytes. Theorems only; there is no code here.
#![tactic(auto)]
