// The fields of a line: where a script line's fields end, and the part of a printed line behind its session.
ghost use Rattle.std.specs.Prelude.{◌≡◌, ◌<◌, length, nat_lt};
ghost use Rattle.lines.specs.Commands.{same};
ghost use Rattle.marking.specs.Fields.{fields_end, InField, is_rx, script_end};

use crate::Kind;

// Two texts are the same. All bytes are looked at, with no early end, so that many are compared at once.
pub(crate) fn is_same(x: &[u8], y: &[u8]) -> bool
    ensures { result ≡ same x.now y.now }
{
    if x.len() != y.len() {
        return false;
    }
    let mut equal = true;
    for (i, b) in x.iter().enumerate() {
        if *b != y[i] {
            equal = false;
        }
    }
    equal
}

// Whether a TAB is among bytes. All are looked at, with no early end: the least distance from it is found for many bytes at once.
// `input` has the same for the newline, stated by a definition of its own (`line_length`): one function for both would need a third.
fn has_tab(bytes: &[u8]) -> bool
    ensures { result ≡ nat_lt (fields_end 0 bytes.now) (length bytes.now) }
{
    let mut least = 255;
    for b in bytes {
        let d = b.wrapping_sub(9);
        if d < least {
            least = d;
        }
    }
    least == 0
}

// The place behind the pieces of `size` bytes, from a place on, that have no TAB.
fn after_pieces(line: &[u8], from: usize, size: usize) -> usize
    requires { (0 < size) × InField line.now from }
    ensures { InField line.now result }
{
    let mut n = from;
    // a `while`: it goes on piece by piece, and the place where it ends is the answer
    while size <= line.len() - n {
        if has_tab(&line[n..n + size]) {
            return n;
        }
        n += size;
    }
    n
}

// How many bytes there are before the first TAB, or before the end, where none stands before a place.
fn tab_from(line: &[u8], from: usize) -> usize
    requires { InField line.now from }
    ensures { result ≡ fields_end 0 line.now }
{
    for n in from..line.len() {
        if line[n] == 9 {
            return n;
        }
    }
    line.len()
}

// The same, of a field that is short.
pub(crate) fn near_tab(line: &[u8]) -> usize
    ensures { result ≡ fields_end 0 line.now }
{
    tab_from(line, 0)
}

// The same, of a field that may be long, as hex is.
fn far_tab(line: &[u8]) -> usize
    ensures { result ≡ fields_end 0 line.now }
{
    let whole = after_pieces(line, 0, 64);
    let near = after_pieces(line, whole, 16);
    tab_from(line, near)
}

// How many bytes the first field and `further` fields behind it have, with the TABs between them; the whole line, where it has not more.
pub fn fields_end(line: &[u8], further: usize) -> usize
    ensures { result ≡ fields_end further line.now }
{
    let mut at = 0;
    for passed in 0..further {
        let end = at + near_tab(&line[at..]);
        if line.len() <= end {
            return end;
        }
        at = end + 1;
    }
    at + far_tab(&line[at..])
}

// The first field is `rx`.
fn is_rx(line: &[u8]) -> bool
    ensures { result ≡ is_rx line.now }
{
    let end = near_tab(line);
    is_same(&line[..end], b"rx")
}

// How many bytes of a line are the script's: of an answer sheet's line three fields of an `rx`, else two; of a script's line all.
pub fn script_end(kind: Kind, line: &[u8]) -> usize
    ensures { result ≡ script_end kind line.now }
{
    match kind {
        Kind::Desk => {
            if is_rx(line) {
                return fields_end(line, 2);
            }
            fields_end(line, 1)
        }
        Kind::Sheet => line.len(),
    }
}
