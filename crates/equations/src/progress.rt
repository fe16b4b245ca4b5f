// The program between two turns, and a turn of it: the next line answered, the input's end, more input, or output written.
ghost use Rattle.std.specs.Prelude.{◌≡◌};
ghost use Rattle.input.specs.Parts.{bytes_from};
ghost use Rattle.input.specs.Input.{find_of};
ghost use Rattle.input.specs.Turns.{Turned};
ghost use Rattle.replies.specs.Reply.{replies};
ghost use Rattle.equations.specs.Turn.{state, put, new_of, over_of, with_stage, flush_or_fill, on_found, unread, writes_first, decide_of, with_more};
ghost use Rattle.equations.specs.Turn.{error_put, beyond, reply_behind, answered_of, written_stage, Flushed, Filled, DueTurn};

use input::Found;
use input::parts::least;
use std::io::{Stdin, Stdout};
use std::num::wrapping_add_usize;

// Room for any line that is printed.
const ROOM: usize = 4096;

// Where the bytes that are not yet read as lines stand in the input, whether the input has ended, the number of lines answered, and how many bytes of
// the text wait to be written.
#[derive(Clone, Copy)]
pub struct Progress {
    from: usize,
    end: usize,
    ended: bool,
    lines: usize,
    filled: usize,
    stage: Stage,
}

// Going on; with all lines answered and only writing left; over with all written; or over because writing failed.
#[derive(Clone, Copy)]
pub enum Stage {
    Going,
    Last,
    Done,
    Broken,
}

// What a turn does.
#[derive(Clone, Copy)]
enum Next {
    Line(usize),
    Flush,
    Fill,
    End,
    Error,
}

pub(crate) fn new_progress() -> Progress
    ensures { result ≡ new_of }
{
    Progress {
        from: 0,
        end: 0,
        ended: false,
        lines: 0,
        filled: 0,
        stage: Stage::Going,
    }
}

// All was written, or it can't be.
#[tactic(auto, unfolding(crate::specs::Turn::over_of))]
pub(crate) fn is_over(progress: Progress) -> bool
    ensures { result ≡ over_of progress.stage }
{
    matches!(progress.stage, Stage::Done | Stage::Broken)
}

fn with_stage(progress: Progress, stage: Stage) -> Progress
    ensures { result ≡ with_stage progress stage }
{
    Progress { stage, ..progress }
}

// With no line whole yet, what is printed is written before more is read.
fn flush_or_fill(filled: usize) -> Next
    ensures { result ≡ flush_or_fill filled }
{
    if 0 < filled {
        return Next::Flush;
    }
    Next::Fill
}

// The next line of the input, or what is to be done for one.
#[tactic(auto, unfolding(crate::specs::Turn::on_found))]
fn next_line(progress: Progress, input: &[u8]) -> Next
    ensures { result ≡ on_found (find_of (unread progress input.now) progress.ended) progress.filled }
{
    match input::find_line(input, progress.from, progress.end, progress.ended) {
        Found::Part => flush_or_fill(progress.filled),
        Found::Line(n) => Next::Line(n),
        Found::TooLong => Next::Error,
        Found::Nothing => Next::End,
    }
}

// Whether what waits is written first: where the text, of `size` bytes, has not room for any line, and where only writing is left.
#[tactic(auto, unfolding(crate::specs::Turn::writes_first))]
fn writes_first(stage: Stage, filled: usize, size: usize) -> bool
    ensures { result ≡ writes_first stage filled size }
{
    match stage {
        Stage::Going => input::parts::rest(filled, size, size) < ROOM,
        Stage::Last => true,
        Stage::Done => true,
        Stage::Broken => true,
    }
}

// What is to be done next.
#[tactic(auto, unfolding(crate::specs::Turn::decide_of))]
fn decide(progress: Progress, input: &[u8], size: usize) -> Next
    ensures { result ≡ decide_of progress input.now size }
{
    if writes_first(progress.stage, progress.filled, size) {
        return Next::Flush;
    }
    next_line(progress, input)
}

// With so many bytes more in the text behind its first `at`.
fn with_more(progress: Progress, at: usize, more: usize, stage: Stage) -> Progress
    ensures { result ≡ with_more progress at more stage }
{
    Progress {
        filled: wrapping_add_usize(at, more),
        stage,
        ..progress
    }
}

// Puts the line of a line that can't be read behind what waits. Then only writing is left.
fn put_error(progress: Progress, text: &mut [u8]) -> Progress
    ensures { put result text.new ≡ error_put progress text.old }
{
    let at = least(progress.filled, text.len());
    let n = lines::error_line(wrapping_add_usize(progress.lines, 1), &mut text[at..]);
    with_more(progress, at, n, Stage::Last)
}

// The line that ends at `to` is passed over with its newline.
fn passed(progress: Progress, to: usize) -> Progress
    ensures { result ≡ beyond progress to }
{
    Progress {
        from: least(wrapping_add_usize(to, 1), progress.end),
        lines: wrapping_add_usize(progress.lines, 1),
        ..progress
    }
}

// The reply to the line between two places of the input, behind the first `at` bytes of the text.
fn reply_behind(input: &[u8], from: usize, to: usize, text: &mut [u8], at: usize) -> Option<usize>
    ensures { replies result text.new ≡ reply_behind at (bytes_from from to input.now) text.old }
{
    let stop = least(to, input.len());
    let start = least(from, stop);
    let place = least(at, text.len());
    replies::answer_line(&input[start..stop], &mut text[place..])
}

// Answers the line of n bytes that stands next in the input. One that can't be read is the last.
fn answer(progress: Progress, n: usize, input: &[u8], text: &mut [u8]) -> Progress
    ensures { put result text.new ≡ answered_of progress n input.now text.old }
{
    let to = wrapping_add_usize(progress.from, n);
    match reply_behind(input, progress.from, to, text, progress.filled) {
        None => put_error(progress, text),
        Some(size) => with_more(
            passed(progress, to),
            least(progress.filled, text.len()),
            size,
            progress.stage,
        ),
    }
}

// Writes the first n bytes of the text, and says whether all were written.
fn write_front(mut stdout: Stdout, text: &[u8], n: usize) -> bool {
    let size = least(n, text.len());
    streams::write_all(&mut stdout, &text[..size])
}

// After what waits was written: where only that was left, the program is done.
#[tactic(auto, unfolding(crate::specs::Turn::written_stage))]
fn written_stage(stage: Stage) -> Stage
    ensures { result ≡ written_stage stage }
{
    match stage {
        Stage::Going => Stage::Going,
        Stage::Last => Stage::Done,
        Stage::Done => Stage::Done,
        Stage::Broken => Stage::Broken,
    }
}

// Writes out what waits (`waiting_text`).
#[tactic(auto, unfolding(crate::specs::Turn::flushed_of))]
fn flush(stdout: Stdout, progress: Progress, text: &[u8]) -> Progress
    ensures { Flushed progress result }
{
    if write_front(stdout, text, progress.filled) {
        return Progress {
            filled: 0,
            stage: written_stage(progress.stage),
            ..progress
        };
    }
    with_stage(progress, Stage::Broken)
}

// Moves the part of a line to the front of the input and reads more behind it. A read that brings nothing, or fails, ends the input.
fn fill(mut stdin: Stdin, progress: Progress, input: &mut [u8]) -> Progress
    ensures { Filled progress input.old result input.new }
{
    let left = input::shift(input, progress.from, progress.end);
    let kept = least(left, input.len());
    let n = streams::read(&mut stdin, &mut input[kept..]);
    Progress {
        from: 0,
        end: kept + n,
        ended: n == 0,
        ..progress
    }
}

// One turn.
pub(crate) fn turn(
    stdin: Stdin,
    stdout: Stdout,
    progress: Progress,
    input: &mut [u8],
    text: &mut [u8],
) -> Progress
    ensures { Turned DueTurn (state progress input.old text.old) (state result input.new text.new) }
{
    match decide(progress, &*input, text.len()) {
        Next::Line(n) => answer(progress, n, &*input, text),
        Next::Flush => flush(stdout, progress, &*text),
        Next::Fill => fill(stdin, progress, input),
        Next::End => with_stage(progress, Stage::Last),
        Next::Error => put_error(progress, text),
    }
}
