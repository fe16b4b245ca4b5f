// A script program between two turns, and the parts of a turn: what is due, a step of the line that is being run, the next line, the last lines, more
// input, and output written. The layer promises that each is what specs/Pass.antt gives it, and that a program of such turns prints the sheet of the
// script that it reads, whatever more words it knows than passday (EveryProgram in specs/Run.antt). passday is the one that knows no more.
#![tactic(auto)]

ghost use Rattle.std.specs.Prelude.{◌≡◌, ◌+◌, true, false, ◌==◌};
ghost use Rattle.input.specs.Parts.{least_of, wrapped};
ghost use Rattle.input.specs.Input.{find_of};
ghost use Rattle.script.specs.Sheet.{Counted};
ghost use Rattle.pass.specs.Pass.{pass_of, new_of, over_of, flush_or_fill, on_found, unread, writes_first, decide_of};
ghost use Rattle.pass.specs.Pass.{put, last_put, error_then_last_put, passed_over, beyond, written_stage, flushed_of};
ghost use Rattle.pass.specs.Narrow.{readable_of, Flushed, Filled};

use input::Found;
use input::parts::least;
use lines::Command;
use script::doing::Doing;
use script::{Day, Stepped};
use server::Server;
use std::io::{Read, Write};
use std::num::wrapping_add_usize;

// The script, where the bytes that are not yet read as lines stand in the input, whether the input has ended, the number of lines begun, and how
// many bytes of the text wait to be written.
#[derive(Clone, Copy)]
pub struct Pass {
    pub day: Day,
    pub from: usize,
    pub end: usize,
    pub ended: bool,
    pub lines: usize,
    pub filled: usize,
    pub stage: Stage,
}

// Going on; with the last lines put and only writing left; over with all written; or over because writing failed.
#[derive(Clone, Copy)]
pub enum Stage {
    Going,
    Last,
    Done,
    Broken,
}

// What a turn does.
#[derive(Clone, Copy)]
pub enum Next {
    Step,
    Line(usize),
    Flush,
    Fill,
    Last,
    Error,
}

pub fn new_pass(server: Server) -> Pass
    ensures { result ≡ new_of server }
{
    Pass {
        day: Day {
            server,
            clock: 0,
            doing: Doing::Rest,
        },
        from: 0,
        end: 0,
        ended: false,
        lines: 0,
        filled: 0,
        stage: Stage::Going,
    }
}

// All was written, or it can't be.
#[tactic(auto, unfolding(crate::specs::Pass::over_of))]
pub fn is_over(pass: Pass) -> bool
    ensures { result ≡ over_of pass.stage }
{
    matches!(pass.stage, Stage::Done | Stage::Broken)
}

// With no line whole yet, what is printed is written before more is read.
fn flush_or_fill(pass: Pass) -> Next
    ensures { result ≡ flush_or_fill pass.filled }
{
    if 0 < pass.filled {
        return Next::Flush;
    }
    Next::Fill
}

// The next line of the input, or what is to be done for one.
#[tactic(auto, unfolding(crate::specs::Pass::on_found))]
fn next_line(pass: Pass, input: &[u8]) -> Next
    ensures { result ≡ on_found (find_of (unread pass input.now) pass.ended) pass.filled }
{
    match input::find_line(input, pass.from, pass.end, pass.ended) {
        Found::Part => flush_or_fill(pass),
        Found::Line(n) => Next::Line(n),
        Found::TooLong => Next::Error,
        Found::Nothing => Next::Last,
    }
}

// Whether what waits is written first: where the text, of `size` bytes, has less room than asked, and where only writing is left.
#[tactic(auto, unfolding(crate::specs::Pass::writes_first))]
fn writes_first(room: usize, stage: Stage, filled: usize, size: usize) -> bool
    ensures { result ≡ writes_first room stage filled size }
{
    match stage {
        Stage::Going => input::parts::rest(filled, size, size) < room,
        Stage::Last => true,
        Stage::Done => true,
        Stage::Broken => true,
    }
}

// What is to be done next. A line that is being run is stepped to its end before the next.
#[tactic(auto, unfolding(crate::specs::Pass::decide_of))]
pub fn decide(pass: Pass, room: usize, input: &[u8], size: usize) -> Next
    ensures { result ≡ decide_of room pass input.now size }
{
    if writes_first(room, pass.stage, pass.filled, size) {
        return Next::Flush;
    }
    if script::doing::rests(pass.day.doing) {
        return next_line(pass, input);
    }
    Next::Step
}

// With so many bytes more in the text behind its first `at`.
fn with_more(pass: Pass, day: Day, at: usize, more: usize, stage: Stage) -> Pass
    ensures { result ≡ pass_of day pass.from pass.end pass.ended pass.lines (wrapped (at + more)) stage }
{
    Pass {
        day,
        filled: wrapping_add_usize(at, more),
        stage,
        ..pass
    }
}

// After a step, in a text of `size` bytes.
pub fn stepped(pass: Pass, s: Stepped, size: usize) -> Pass
    ensures { result ≡ pass_of s.day pass.from pass.end pass.ended pass.lines
        (wrapped (least_of pass.filled size + s.written)) pass.stage }
{
    with_more(pass, s.day, least(pass.filled, size), s.written, pass.stage)
}

// Puts the last line behind what waits. Then only writing is left.
pub fn put_last(pass: Pass, map: &[u64], owner: &[u16], text: &mut [u8]) -> Pass
    ensures text_after { put result text.new ≡ last_put pass map.now owner.now text.old }
    ensures counted { Counted map.now owner.now }
{
    let at = least(pass.filled, text.len());
    let n = script::blocks(map, owner, &mut text[at..]);
    with_more(pass, pass.day, at, n, Stage::Last)
}

// The same with the line of the line that can't be read before it.
pub fn put_error(pass: Pass, map: &[u64], owner: &[u16], text: &mut [u8]) -> Pass
    ensures text_after { put result text.new ≡ error_then_last_put pass map.now owner.now text.old }
    ensures counted { Counted map.now owner.now }
{
    let at = least(pass.filled, text.len());
    let n = lines::error_line(wrapping_add_usize(pass.lines, 1), &mut text[at..]);
    put_last(
        with_more(pass, pass.day, at, n, pass.stage),
        map,
        owner,
        text,
    )
}

#[tactic(auto, unfolding(crate::specs::Narrow::readable_of))]
pub fn is_readable(command: Command) -> bool
    ensures { result ≡ readable_of command }
{
    !matches!(command, Command::Unreadable)
}

// The line that ends at `to` is passed over with its newline, and begun.
pub fn begun(pass: Pass, to: usize, command: Command) -> Pass
    ensures { result ≡ beyond pass to command }
{
    Pass {
        day: script::begin(pass.day, command),
        from: least(wrapping_add_usize(to, 1), pass.end),
        lines: wrapping_add_usize(pass.lines, 1),
        ..pass
    }
}

// The line of more words that ends at `to` is passed over with its newline; of a text of `size` bytes the first `more` behind what waits are its own.
pub fn said(pass: Pass, day: Day, to: usize, size: usize, more: usize) -> Pass
    ensures { result ≡ passed_over day pass to (wrapped (least_of pass.filled size + more)) }
{
    Pass {
        day,
        from: least(wrapping_add_usize(to, 1), pass.end),
        lines: wrapping_add_usize(pass.lines, 1),
        filled: wrapping_add_usize(least(pass.filled, size), more),
        ..pass
    }
}

// After what waits was written: where only that was left, the program is done.
#[tactic(auto, unfolding(crate::specs::Pass::written_stage))]
fn written_stage(stage: Stage) -> Stage
    ensures { result ≡ written_stage stage }
{
    match stage {
        Stage::Going => Stage::Going,
        Stage::Last => Stage::Done,
        Stage::Done => Stage::Done,
        Stage::Broken => Stage::Broken,
    }
}

// After what waits was written: nothing does any more.
#[tactic(auto, unfolding(crate::specs::Pass::flushed_of))]
pub fn written(pass: Pass) -> Pass
    ensures { result ≡ flushed_of true pass }
{
    Pass {
        filled: 0,
        stage: written_stage(pass.stage),
        ..pass
    }
}

// After a write that failed, nothing is left to be done.
#[tactic(auto, unfolding(crate::specs::Pass::flushed_of))]
pub fn broken(pass: Pass) -> Pass
    ensures { result ≡ flushed_of false pass }
{
    Pass {
        stage: Stage::Broken,
        ..pass
    }
}

// Writes the first n bytes of the text, and says whether all were written.
fn write_front<W: Write>(writer: &mut W, text: &[u8], n: usize) -> bool {
    let size = least(n, text.len());
    streams::write_all(writer, &text[..size])
}

// Writes out what waits (`waiting_text`).
pub fn flush<W: Write>(writer: &mut W, pass: Pass, text: &[u8]) -> Pass
    ensures { Flushed pass result }
{
    if write_front(writer, text, pass.filled) {
        return written(pass);
    }
    broken(pass)
}

// After a read of n bytes behind the first `kept` of the input. A read that brings nothing, or fails, ends the input.
pub fn refilled(pass: Pass, kept: usize, n: usize) -> Pass
    ensures { result ≡ pass_of pass.day 0 (wrapped (kept + n)) (n == 0) pass.lines pass.filled pass.stage }
{
    Pass {
        from: 0,
        end: wrapping_add_usize(kept, n),
        ended: n == 0,
        ..pass
    }
}

// Moves the part of a line to the front of the input and reads more behind it.
pub fn fill<R: Read>(reader: &mut R, pass: Pass, input: &mut [u8]) -> Pass
    ensures { Filled pass input.old result input.new }
{
    let left = input::shift(input, pass.from, pass.end);
    let kept = least(left, input.len());
    let n = streams::read(reader, &mut input[kept..]);
    refilled(pass, kept, n)
}
