// Kinds of bytes.
ghost use Rattle.std.specs.Prelude.{◌≡◌, get_or};
ghost use Rattle.lines.specs.Numerals.{digit};
ghost use Rattle.names.specs.Kinds.{is_blank, is_printed, hex_of};

use text::lowered;

// The byte at a place of a text, 0 behind its end.
pub fn byte_of(text: &[u8], i: usize) -> u8
    ensures { result ≡ get_or text.now i 0 }
{
    text.get(i).copied().unwrap_or(0)
}

// A byte is a decimal digit.
#[tactic(auto, unfolding(lines::specs::Numerals::digit))]
pub fn is_digit(b: u8) -> bool
    ensures { result ≡ digit b }
{
    matches!(b, b'0'..=b'9')
}

#[tactic(auto, unfolding(crate::specs::Kinds::is_blank))]
pub fn is_blank(b: u8) -> bool
    ensures { result ≡ is_blank b }
{
    matches!(b, b' ' | b'\t')
}

#[tactic(auto, unfolding(crate::specs::Kinds::is_printed))]
pub fn is_printed(b: u8) -> bool
    ensures { result ≡ is_printed b }
{
    matches!(b, b' '..=b'~')
}

// The value of a hex digit of either case, 16 for any other byte.
#[tactic(auto, unfolding(lines::specs::Numerals::hex_value))]
pub fn hex_value(b: u8) -> u8
    ensures { result ≡ hex_of b }
{
    let c = lowered(b);
    match c {
        b'0'..=b'9' => c - 48,
        b'a'..=b'f' => c - 87,
        _ => 16,
    }
}
