// Equations as on paper: what the readers and writers of the grammar (specs/Grammar.antt) share; there is no code here. The layer promises that the
// machine of specs/Machine.antt reads the texts of the grammar and no others, that its wrong place is the first, and that the bytes of a text have the
// text's truth on every file.

// How a relation compares, with the file on the left.
#![tactic(auto)]

#[derive(Clone, Copy)]
pub enum Comparison {
    Equal,
    Greater,
    Less,
    NotEqual,
    GreaterOrEqual,
    LessOrEqual,
}

// What is wrong at the first wrong place of a text.
#[derive(Clone, Copy)]
pub enum Reason {
    Item,
    Deeper,
    Operator,
    Order,
    Constant,
    Large,
    Width,
    String,
    Stars,
    Long,
    Connective,
    Bracket,
}
