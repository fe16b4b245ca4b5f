// The characters of a string.
ghost use Rattle.std.specs.Prelude.{◌≡◌, false, cond, ◌≤◌, ◌<◌, leb, eqb, length};
ghost use Rattle.tokens.specs.Tokens.{added_at, code_at, escape_at, character_at};

use grammar::Reason;
use names::bytes::{byte_of, hex_value, is_printed};

// A character of a string: its byte and the place behind it; the string's end; or the first wrong place and the reason.
#[derive(Clone, Copy)]
pub enum Character {
    Is(u8, usize),
    End,
    Wrong(usize, Reason),
}

// A byte is the fifth star.
fn fifth_star(b: u8, stars: usize) -> bool
    ensures { result ≡ cond (eqb b 42) (leb 4 stars) false }
{
    if b == 42 { 4 <= stars } else { false }
}

// A further byte of a string that has `count` bytes and so many stars; it is complete with the byte at `at`.
fn added_at(at: usize, b: u8, count: usize, stars: usize) -> Character
    requires { at < 18446744073709551615 }
    ensures { result ≡ added_at at b count stars }
{
    if fifth_star(b, stars) {
        return Character::Wrong(at, Reason::Stars);
    }
    if count < 255 {
        return Character::Is(b, at + 1);
    }
    Character::Wrong(at, Reason::Long)
}

// The two hex digits behind "\x".
fn code_at(text: &[u8], at: usize, count: usize, stars: usize) -> Character
    requires { at ≤ length text.now }
    ensures { result ≡ code_at text.now at count stars }
{
    let a = hex_value(byte_of(text, at));
    if a < 16 {
        let d = hex_value(byte_of(text, at + 1));
        if d < 16 {
            return added_at(at + 1, 16 * a + d, count, stars);
        }
        return Character::Wrong(at + 1, Reason::String);
    }
    Character::Wrong(at, Reason::String)
}

// What stands behind "\".
fn escape_at(text: &[u8], at: usize, count: usize, stars: usize) -> Character
    requires { at ≤ length text.now }
    ensures { result ≡ escape_at text.now at count stars }
{
    let b = byte_of(text, at);
    if b == 34 {
        return Character::Is(34, at + 1);
    }
    if b == 92 {
        return Character::Is(92, at + 1);
    }
    if b == 120 {
        return code_at(text, at + 1, count, stars);
    }
    Character::Wrong(at, Reason::String)
}

// The character at a place of a string that has `count` bytes and so many stars.
pub fn character_at(text: &[u8], at: usize, count: usize, stars: usize) -> Character
    ensures { result ≡ character_at text.now at count stars }
{
    let b = byte_of(text, at);
    if b == 34 {
        return Character::End;
    }
    if b == 92 {
        if count < 255 {
            return escape_at(text, at + 1, count, stars);
        }
        return Character::Wrong(at, Reason::Long);
    }
    if is_printed(b) {
        return added_at(at, b, count, stars);
    }
    Character::Wrong(at, Reason::String)
}
