// Blanks and items.
ghost use Rattle.std.specs.Prelude.{◌≡◌, ◌≤◌, length, drop};
ghost use Rattle.tokens.specs.Tokens.{past_blanks, hash_from, item_at};

use names::bytes::{byte_of, hex_value, is_blank};
use names::table::find_name;

// The first place from `at` on at which no blank stands.
pub fn past_blanks(text: &[u8], at: usize) -> usize
    ensures { result ≡ past_blanks text.now at }
{
    for e in at..text.len() {
        if !is_blank(text[e]) {
            return e;
        }
    }
    at.max(text.len())
}

// The four hex digits behind "#": the id that they spell and the place behind them, or the first wrong place.
fn hash_from(text: &[u8], at: usize) -> Result<(u16, usize), usize>
    requires { at ≤ length text.now }
    ensures { result ≡ hash_from 4 0 at (drop at text.now) }
{
    let mut v: u16 = 0;
    for n in 0..4 {
        let d = hex_value(byte_of(text, at + n));
        if 16 <= d {
            return Err(at + n);
        }
        v = 16 * v + d as u16;
    }
    Ok((v, at + 4))
}

// The item at a place: its id and the place behind it, or the first wrong place.
pub fn item_at(text: &[u8], at: usize) -> Result<(u16, usize), usize>
    ensures { result ≡ item_at text.now at }
{
    if text.len() <= at {
        return Err(at);
    }
    if byte_of(text, at) == 35 {
        return hash_from(text, at + 1);
    }
    match find_name(&text[at..]) {
        Ok((id, n)) => Ok((id, at + n)),
        Err(n) => Err(at + n),
    }
}
