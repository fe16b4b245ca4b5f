// Why something is refused: document 01, "Refusals by number". The numbers 1 to 16 go out in a packet; 32 to 35 are answers to the caller alone.
// The layer promises that each refusal has its number of that table, that no two have the same, and that none has 0, which says that nothing is refused.
#![tactic(auto)]

ghost use Rattle.std.specs.Prelude.{◌≡◌};
ghost use Rattle.refusal.specs.Refusal.{number, number_of};

#[derive(Clone, Copy, Debug, PartialEq, Eq)]
pub enum Refusal {
    // A command's information has another length than its type wants.
    IllFormed,
    // An upload that is continued has another length, or goes on elsewhere; a download begins beyond the file's length.
    BadContinue,
    // File numbers or upload times are used up.
    UsedUp,
    NoSuchFile,
    // No selected file is left.
    SelectionEmpty,
    // A mandatory item of the header is missing.
    ItemMissing,
    // The file does not begin AA 55.
    NoHeader,
    // The equation is none.
    BadEquation,
    NoSuchDestination,
    // A partial file is asked for.
    FilePartial,
    // A complete file is to be continued.
    FileComplete,
    // Too few free blocks, or no free place for a file.
    NoRoom,
    BadHeader,
    HeaderSum,
    BodySum,
    // The output is too short.
    ShortOutput,
    // A size or a length outside the table, or a lent buffer too short.
    BadSize,
    BadSession,
    // The state that was handed in is not sound.
    Unsound,
}

impl From<Refusal> for u8 {
    ghost from_gives = { λ refusal n. n ≡ number refusal };

    fn from(refusal: Refusal) -> u8 {
        match refusal {
            Refusal::IllFormed => 1,
            Refusal::BadContinue => 2,
            Refusal::UsedUp => 3,
            Refusal::NoSuchFile => 4,
            Refusal::SelectionEmpty => 5,
            Refusal::ItemMissing => 6,
            Refusal::NoHeader => 7,
            Refusal::BadEquation => 8,
            Refusal::NoSuchDestination => 10,
            Refusal::FilePartial => 11,
            Refusal::FileComplete => 12,
            Refusal::NoRoom => 13,
            Refusal::BadHeader => 14,
            Refusal::HeaderSum => 15,
            Refusal::BodySum => 16,
            Refusal::ShortOutput => 32,
            Refusal::BadSize => 33,
            Refusal::BadSession => 34,
            Refusal::Unsound => 35,
        }
    }
}

// The number that stands for an answer where only a number can be handed on: 0 where nothing is refused.
pub fn number_of(answer: Result<(), Refusal>) -> u8
    ensures { result ≡ number_of answer }
{
    match answer {
        Ok(()) => 0,
        Err(refusal) => refusal.into(),
    }
}
