// The lines of a script in the bytes read so far, in whatever pieces they come: where the first line ends, its command, and the rest moved to the front.
// The layer promises that a line is found by its newline, wherever that stands, and that every place handed in is cut to what is lent.
#![tactic(auto)]

pub mod parts;

ghost use Rattle.std.specs.Prelude.{◌≡◌, ◌+◌, ◌<◌, ◌≤◌, length, nat_lt};
ghost use Rattle.lines.specs.Commands.{reads, read_of};
ghost use Rattle.input.specs.Parts.{bytes_from};
ghost use Rattle.input.specs.Input.{line_length, Passed, found_of, find_of, shifted, shift_of, moved_of};

use lines::Command;
use parts::{least, rest};

// The most bytes of a line that can be read, without its newline.
pub const LINE: usize = 131072;

// What stands in the input: a part of a line, which may go on; a line of so many bytes; a line that is too long to be read; or nothing more.
#[derive(Clone, Copy)]
pub enum Found {
    Part,
    Line(usize),
    TooLong,
    Nothing,
}

// Whether a newline is among bytes. All are looked at, with no early end: the least distance from it is found for many bytes at once.
fn has_newline(bytes: &[u8]) -> bool
    ensures { result ≡ nat_lt (line_length bytes.now) (length bytes.now) }
{
    let mut least = 255;
    for b in bytes {
        let d = b.wrapping_sub(10);
        if d < least {
            least = d;
        }
    }
    least == 0
}

// The place behind the pieces of `size` bytes, from a place on, that have no newline.
fn after_pieces(input: &[u8], from: usize, size: usize) -> usize
    requires { (0 < size) × Passed input.now from }
    ensures { Passed input.now result }
{
    let mut n = from;
    for piece in input[from..].chunks_exact(size) {
        if has_newline(piece) {
            return n;
        }
        n += size;
    }
    n
}

// How many bytes there are before the first newline, or before the end, where none stands before a place.
fn newline_from(input: &[u8], from: usize) -> usize
    requires { Passed input.now from }
    ensures { result ≡ line_length input.now }
{
    let rest = &input[from..];
    from + rest.iter().position(|b| *b == 10).unwrap_or(rest.len())
}

// How many bytes there are before the first newline, or before the end.
fn line_length(input: &[u8]) -> usize
    ensures { result ≡ line_length input.now }
{
    let whole = after_pieces(input, 0, 64);
    let near = after_pieces(input, whole, 16);
    newline_from(input, near)
}

// What a first line of n bytes is, of `size` bytes in the input.
#[tactic(auto, unfolding(crate::specs::Input::found_of))]
fn first_line(n: usize, size: usize, ended: bool) -> Found
    ensures { result ≡ found_of n size ended }
{
    if LINE < n {
        return Found::TooLong;
    }
    if n < size {
        return Found::Line(n);
    }
    if ended {
        if n == 0 {
            return Found::Nothing;
        }
        return Found::Line(n);
    }
    Found::Part
}

// What stands first in the input from a place to its end; `ended` says that nothing more will be read.
pub fn find_line(input: &[u8], from: usize, end: usize, ended: bool) -> Found
    ensures { result ≡ find_of (bytes_from from end input.now) ended }
{
    let e = least(end, input.len());
    let a = least(from, e);
    first_line(line_length(&input[a..e]), e - a, ended)
}

// The command of the line from a place to another; the bytes of an `rx` go to the front of `bytes`.
pub fn read_line(input: &[u8], from: usize, end: usize, bytes: &mut [u8]) -> Command
    ensures { reads result bytes.new ≡ read_of (bytes_from from end input.now) bytes.old }
{
    let stop = least(end, input.len());
    let start = least(from, stop);
    lines::read(&input[start..stop], bytes)
}

// Moves n bytes from a place to the front.
fn move_down(input: &mut [u8], from: usize, n: usize)
    requires { from + n ≤ length input.old }
    ensures { input.new ≡ moved_of from n input.old }
{
    input.copy_within(from..from + n, 0);
}

// Moves the bytes from a place to the end to the front, and says how many they are.
pub fn shift(input: &mut [u8], from: usize, end: usize) -> usize
    ensures { shifted result input.new ≡ shift_of from end input.old }
{
    let n = rest(from, end, input.len());
    move_down(input, least(from, input.len()), n);
    n
}
