// Numbers and their widths.
ghost use Rattle.std.specs.Prelude.{◌≡◌, ◌≤◌, length, drop};
ghost use Rattle.grammar.specs.Meaning.{is_width, width_of};
ghost use Rattle.tokens.specs.Tokens.{amount_from, sized_at, number_at};

use crate::Wrong;
use grammar::Reason;
use names::bytes::{byte_of, is_digit};
use names::table::row_of;

// The rest of a number, from the value of its first digits on: its value and the place behind its digits, or the place of the digit that takes it above
// 4,294,967,295.
fn amount_from(text: &[u8], at: usize, first: u32) -> Result<(u32, usize), usize>
    requires { at ≤ length text.now }
    ensures { result ≡ amount_from first at (drop at text.now) }
{
    let mut v = first;
    for e in at..text.len() {
        let b = text[e];
        if !is_digit(b) {
            return Ok((v, e));
        }
        let w = 10 * (v as u64) + (b - 48) as u64;
        if 4294967295 < w {
            return Err(e);
        }
        v = w as u32;
    }
    Ok((v, text.len()))
}

// A digit behind ":" is a width that holds the number.
fn is_width(b: u8, v: u32) -> bool
    ensures { result ≡ is_width b v }
{
    if b == 49 {
        return v < 256;
    }
    if b == 50 {
        return v < 65536;
    }
    b == 52
}

// The width of a number without ":".
fn width_of(id: u16, v: u32) -> u8
    ensures { result ≡ width_of id v }
{
    let usual = row_of(id).width;
    if v < 256 {
        return usual.max(1);
    }
    if v < 65536 {
        return usual.max(2);
    }
    usual.max(4)
}

// The width of a number whose digits end at a place, and the place behind it, or the first wrong place.
fn size_at(text: &[u8], at: usize, id: u16, v: u32) -> Result<(u8, usize), usize>
    requires { at ≤ length text.now }
    ensures { result ≡ sized_at text.now at id v }
{
    if byte_of(text, at) == 58 {
        let d = byte_of(text, at + 1);
        if is_width(d, v) {
            return Ok((d - 48, at + 2));
        }
        return Err(at + 1);
    }
    Ok((width_of(id, v), at))
}

// The number at a place: its value, its width and the place behind it. No number is wanted where no digit stands.
pub fn number_at(text: &[u8], at: usize, id: u16) -> Result<(u32, u8, usize), Wrong>
    ensures { result ≡ number_at text.now at id }
{
    let b = byte_of(text, at);
    if !is_digit(b) {
        return Err(Wrong {
            at,
            reason: Reason::Constant,
        });
    }
    match amount_from(text, at + 1, (b - 48) as u32) {
        Err(p) => Err(Wrong {
            at: p,
            reason: Reason::Large,
        }),
        Ok((v, e)) => match size_at(text, e, id, v) {
            Err(p) => Err(Wrong {
                at: p,
                reason: Reason::Width,
            }),
            Ok((w, q)) => Ok((v, w, q)),
        },
    }
}
