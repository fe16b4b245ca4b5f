// What a reader of a relation, a factor, a product or a sum has read at a place of a text (crates/grammar), and written; there is no code here. The layer
// says in specs/Contract.antt what such a reader promises, as a step of the machine of the grammar whatever stands open around it, and promises that the
// readers of the parts give the reader of the whole (proofs/ConstantLaws.antt, proofs/Readers.antt), and that the reason of a refused text is the one of
// the table (specs/Table.antt, proofs/TableLaws.antt).
#![tactic(auto)]

use tokens::Wrong;

// The place behind what was read, and how many bytes the output has then; or the first wrong place and the reason.
pub type Reading = Result<(usize, usize), Wrong>;

// What a factor begins with: a bracket, up to its end; a relation, from its place on; or a bracket too many.
#[derive(Clone, Copy)]
pub enum Start {
    Open(usize),
    Relation(usize),
    Deep(usize),
}

// What stands where a connective may: none, half of one, a whole one.
#[derive(Clone, Copy)]
pub enum Joiner {
    Other,
    Half,
    Whole,
}
