// Text put behind what waits: pieces one behind the other, and the lines that end the output.
ghost use Rattle.std.specs.Prelude.{◌≡◌, ◌+◌, ◌≤◌, [], ◌∷◌, ◌++◌, length};
ghost use Rattle.std.proofs.lemmas.List.Edits.{sets};
ghost use Rattle.lines.specs.Lines.{printed};
ghost use Rattle.lines.specs.Text.{decimal_of};
ghost use Rattle.marking.specs.Desk.{last_text, stop_text};
ghost use Rattle.marking.specs.Put.{put_behind};

use crate::Kind;
use input::parts::least;
use numbers::store;

// Three pieces from byte `at` on, where they fit.
fn put_pieces(first: &[u8], second: &[u8], third: &[u8], text: &mut [u8], at: usize)
    requires { at + (length first.now + (length second.now + length third.now)) ≤ length text.old }
    ensures { text.new ≡ sets text.old at (first.now ++ (second.now ++ third.now)) }
{
    let middle = at + first.len();
    // not refused: the text has room for all three
    let _ = store(text, at, first);
    let _ = store(text, middle, second);
    let _ = store(text, middle + second.len(), third);
}

// Three pieces behind the first `at` bytes of the text: how many bytes they have, or 0 and nothing written where they do not fit.
pub fn put(first: &[u8], second: &[u8], third: &[u8], text: &mut [u8], at: usize) -> usize
    ensures { printed result text.new ≡ put_behind at (first.now ++ (second.now ++ third.now)) text.old }
{
    let place = least(at, text.len());
    let room = text.len() - place;
    if room < first.len() {
        return 0;
    }
    let after = room - first.len();
    if after < second.len() {
        return 0;
    }
    if after - second.len() < third.len() {
        return 0;
    }
    put_pieces(first, second, third, text, place);
    first.len() + second.len() + third.len()
}

// A word and a number.
fn put_number(word: &[u8], number: usize, text: &mut [u8], at: usize) -> usize
    ensures { printed result text.new ≡ put_behind at (word.now ++ (decimal_of number ++ 10 ∷ [])) text.old }
{
    let mut line = [0u8; 27];
    let size = lines::error_line(number, &mut line);
    let end = least(size, line.len());
    let start = least(6, end);
    put(word, &line[start..end], b"", text, at)
}

// The last line, behind the first `at` bytes of the text: how many bytes it has, or 0 where it does not fit.
pub fn put_last(kind: Kind, right: usize, text: &mut [u8], at: usize) -> usize
    ensures { printed result text.new ≡ put_behind at (last_text kind right) text.old }
{
    match kind {
        Kind::Desk => put_number(b"marks\t", right, text, at),
        Kind::Sheet => put(b"", b"", b"", text, at),
    }
}

// The line for a line that can't be read, which has this number.
pub fn put_stop(kind: Kind, number: usize, text: &mut [u8], at: usize) -> usize
    ensures { printed result text.new ≡ put_behind at (stop_text kind number) text.old }
{
    match kind {
        Kind::Desk => put_number(b"refused\t37\t", number, text, at),
        Kind::Sheet => put_number(b"error\t", number, text, at),
    }
}
