// The verdict on a line while the server's fields are produced.
ghost use Rattle.std.specs.Prelude.{◌≡◌, [], ◌∷◌, ◌++◌};
ghost use Rattle.input.specs.Parts.{bytes_from};
ghost use Rattle.marking.specs.Verdict.{agrees_at, tail_end, judges, open_of, part_of, judged_of, begun_of, finishes, told_of, finished_of};

use crate::Kind;
use crate::fields::{is_same, near_tab};
use crate::put::put;
use input::parts::least;
use std::num::wrapping_add_usize;

// No line is being run; the server's fields are so far the first so many bytes of the pupil's answer, and nothing is put into the text yet; or what
// they are is put there as they come.
#[derive(Clone, Copy)]
pub enum Verdict {
    Rest,
    Open(usize),
    Told,
}

// The verdict after some of the server's fields, and how many bytes were put into the text.
#[derive(Clone, Copy)]
pub struct Judged {
    pub verdict: Verdict,
    pub written: usize,
}

// Whether a line was right, and how many bytes were put into the text.
#[derive(Clone, Copy)]
pub struct Finished {
    pub right: bool,
    pub written: usize,
}

// A part is what stands in the answer from a place on.
fn agrees_at(part: &[u8], answer: &[u8], at: usize) -> bool
    ensures { result ≡ agrees_at at answer.now part.now }
{
    let start = least(at, answer.len());
    if answer.len() - start < part.len() {
        return false;
    }
    is_same(part, &answer[start..start + part.len()])
}

// More of the server's fields where all before them stand in the answer.
fn go_on(matched: usize, part: &[u8], answer: &[u8], text: &mut [u8], at: usize) -> Judged
    ensures { judges result text.new ≡ open_of matched answer.now part.now at text.old }
{
    if agrees_at(part, answer, matched) {
        return Judged {
            verdict: Verdict::Open(wrapping_add_usize(matched, part.len())),
            written: 0,
        };
    }
    let front = least(matched, answer.len());
    Judged {
        verdict: Verdict::Told,
        written: put(b"wrong", &answer[..front], part, text, at),
    }
}

// More of the server's fields.
fn judge_part(verdict: Verdict, part: &[u8], answer: &[u8], text: &mut [u8], at: usize) -> Judged
    ensures { judges result text.new ≡ part_of verdict answer.now part.now at text.old }
{
    match verdict {
        Verdict::Rest => Judged {
            verdict: Verdict::Rest,
            written: 0,
        },
        Verdict::Open(matched) => go_on(matched, part, answer, text, at),
        Verdict::Told => Judged {
            verdict: Verdict::Told,
            written: put(b"", b"", part, text, at),
        },
    }
}

// The place of a printed line's newline, its last byte.
fn tail_end(size: usize) -> usize
    ensures { result ≡ tail_end size }
{
    if 0 < size {
        return size - 1;
    }
    0
}

// A printed line, less its session and its newline.
pub fn judge(verdict: Verdict, line: &[u8], answer: &[u8], text: &mut [u8], at: usize) -> Judged
    ensures { judges result text.new ≡ judged_of verdict answer.now line.now at text.old }
{
    let end = least(tail_end(line.len()), line.len());
    let start = least(near_tab(line), end);
    judge_part(verdict, &line[start..end], answer, text, at)
}

// A line is begun. On a right sheet it is put as it stands.
pub fn begin(kind: Kind, line: &[u8], text: &mut [u8], at: usize) -> Judged
    ensures { judges result text.new ≡ begun_of kind line.now at text.old }
{
    match kind {
        Kind::Desk => Judged {
            verdict: Verdict::Open(0),
            written: 0,
        },
        Kind::Sheet => Judged {
            verdict: Verdict::Told,
            written: put(b"", b"", line, text, at),
        },
    }
}

// All of the server's fields stand at the front of the answer: right where nothing is over.
fn tell(matched: usize, answer: &[u8], text: &mut [u8], at: usize) -> Finished
    ensures { finishes result text.new ≡ told_of matched answer.now at text.old }
{
    if matched == answer.len() {
        return Finished {
            right: true,
            written: put(b"right", answer, b"\n", text, at),
        };
    }
    let front = least(matched, answer.len());
    Finished {
        right: false,
        written: put(b"wrong", &answer[..front], b"\n", text, at),
    }
}

// A line is at its end.
pub fn finish(verdict: Verdict, answer: &[u8], text: &mut [u8], at: usize) -> Finished
    ensures { finishes result text.new ≡ finished_of verdict answer.now at text.old }
{
    match verdict {
        Verdict::Rest => Finished {
            right: false,
            written: 0,
        },
        Verdict::Open(matched) => tell(matched, answer, text, at),
        Verdict::Told => Finished {
            right: false,
            written: put(b"", b"", b"\n", text, at),
        },
    }
}
