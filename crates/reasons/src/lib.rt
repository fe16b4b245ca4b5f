// What is promised of the relations that crates/why names and of the list of a SELECT: each relation named has the truth of the outcome, whatever the
// truths of the others the outcome is the same, none can be left out, and a file that matched and is not beyond MAXSEL is one that SELECT lists,
// and no other is. Theorems only; there is no code here.
#![tactic(auto)]
