// A sitting between two turns, and a turn of it: a step of the line that is being run, the line's end, the next line, the last lines, more input, or
// output written.
ghost use Rattle.std.specs.Prelude.{◌≡◌, ℕ, ◌+◌, ◌-◌, List, if◌then◌else◌};
ghost use Rattle.server.specs.State.{lent};
ghost use Rattle.input.specs.Parts.{bytes_from, least_of, wrapped};
ghost use Rattle.input.specs.Input.{find_of};
ghost use Rattle.marking.specs.Fields.{script_end};
ghost use Rattle.sitting.specs.Turn.{memory, state, new_of, over_of, with_stage, flush_or_fill, on_found, unread, in_line};
ghost use Rattle.sitting.specs.Turn.{writes_first, decide_of, with_more, stepped_by, finished_by, put, finish_of, last_put, error_put};
ghost use Rattle.sitting.specs.Turn.{begun_by, line_begun, begins, begin_of, written_stage, Turned};
ghost use Rattle.sitting.specs.Narrow.{readable_of, Flushed, Filled};

use input::Found;
use input::parts::least;
use lines::Command;
use marking::verdict::{Finished, Judged, Verdict};
use marking::{Kind, Marked, Part};
use script::Day;
use script::doing::Doing;
use server::Server;
use std::io::{Stdin, Stdout};
use std::num::wrapping_add_usize;

// Room for the most that a turn puts: a word, an answer of up to 131,072 bytes, and a printed line.
const ROOM: usize = 131700;

// What is printed, the verdict so far, the right lines before, and where the answer of the line that is being run stands in the input.
#[derive(Clone, Copy)]
pub struct Mark {
    kind: Kind,
    verdict: Verdict,
    right: usize,
    answer: Part,
}

// The script, its marks, where the bytes that are not yet read as lines stand in the input, whether the input has ended, the number of lines begun,
// and how many bytes of the text wait to be written.
#[derive(Clone, Copy)]
pub struct Sitting {
    day: Day,
    mark: Mark,
    from: usize,
    end: usize,
    ended: bool,
    lines: usize,
    filled: usize,
    stage: Stage,
}

// Going on; with the last lines put and only writing left; over with all written; or over because writing failed.
#[derive(Clone, Copy)]
pub enum Stage {
    Going,
    Last,
    Done,
    Broken,
}

// What a turn does.
#[derive(Clone, Copy)]
pub enum Next {
    Step,
    Finish,
    Line(usize),
    Flush,
    Fill,
    Last,
    Error,
}

pub(crate) fn new_sitting(kind: Kind, server: Server) -> Sitting
    ensures { result ≡ new_of kind server }
{
    let day = Day {
        server: server,
        clock: 0,
        doing: Doing::Rest,
    };
    let answer = Part { from: 0, to: 0 };
    let mark = Mark {
        kind: kind,
        verdict: Verdict::Rest,
        right: 0,
        answer: answer,
    };
    Sitting {
        day: day,
        mark: mark,
        from: 0,
        end: 0,
        ended: false,
        lines: 0,
        filled: 0,
        stage: Stage::Going,
    }
}

#[tactic(auto, unfolding(crate::specs::Turn::over_of))]
pub(crate) fn is_over(sitting: Sitting) -> bool
    ensures { result ≡ over_of sitting.stage }
{
    matches!(sitting.stage, Stage::Done | Stage::Broken)
}

fn with_stage(sitting: Sitting, stage: Stage) -> Sitting
    ensures { result ≡ with_stage sitting stage }
{
    let day = sitting.day;
    let mark = sitting.mark;
    Sitting {
        day: day,
        mark: mark,
        from: sitting.from,
        end: sitting.end,
        ended: sitting.ended,
        lines: sitting.lines,
        filled: sitting.filled,
        stage: stage,
    }
}

// ---- what a turn does

// With no line whole yet, what is printed is written before more is read.
fn flush_or_fill(filled: usize) -> Next
    ensures { result ≡ flush_or_fill filled }
{
    if 0 < filled {
        return Next::Flush;
    }
    Next::Fill
}

// The next line of the input, or what is to be done for one.
fn next_line(sitting: Sitting, input: &[u8]) -> Next
    ensures { result ≡ on_found (find_of (unread sitting input.now) sitting.ended) sitting.filled }
{
    match input::find_line(input, sitting.from, sitting.end, sitting.ended) {
        Found::Part => flush_or_fill(sitting.filled),
        Found::Line(n) => Next::Line(n),
        Found::TooLong => Next::Error,
        Found::Nothing => Next::Last,
    }
}

// Whether what waits is written first: where the text, of `size` bytes, has not room for all that a turn may put, and where only writing is left.
fn writes_first(stage: Stage, filled: usize, size: usize) -> bool
    ensures { result ≡ writes_first stage filled size }
{
    match stage {
        Stage::Going => input::parts::rest(filled, size, size) < ROOM,
        Stage::Last => true,
        Stage::Done => true,
        Stage::Broken => true,
    }
}

// A line that is being run is stepped until the script rests.
fn in_line(day: Day) -> Next
    ensures { result ≡ in_line day.doing }
{
    let doing = day.doing;
    if script::doing::rests(doing) {
        return Next::Finish;
    }
    Next::Step
}

// What is to be done next. A line that is being run comes to its end before the next.
fn decide(sitting: Sitting, input: &[u8], size: usize) -> Next
    ensures { result ≡ decide_of sitting input.now size }
{
    let stage = sitting.stage;
    let day = sitting.day;
    let mark = sitting.mark;
    let verdict = mark.verdict;
    if writes_first(stage, sitting.filled, size) {
        return Next::Flush;
    }
    match verdict {
        Verdict::Rest => next_line(sitting, input),
        Verdict::Open(_) => in_line(day),
        Verdict::Told => in_line(day),
    }
}

// ---- its parts

// With so many bytes more in the text behind its first `at`.
fn with_more(
    sitting: Sitting,
    day: Day,
    mark: Mark,
    at: usize,
    more: usize,
    stage: Stage,
) -> Sitting
    ensures { result ≡ with_more sitting day mark at more stage }
{
    Sitting {
        day: day,
        mark: mark,
        from: sitting.from,
        end: sitting.end,
        ended: sitting.ended,
        lines: sitting.lines,
        filled: wrapping_add_usize(at, more),
        stage: stage,
    }
}

// After a step, in a text of `size` bytes.
fn stepped(sitting: Sitting, marked: Marked, size: usize) -> Sitting
    ensures { result ≡ stepped_by sitting marked size }
{
    let day = marked.day;
    let verdict = marked.verdict;
    let before = sitting.mark;
    let kind = before.kind;
    let answer = before.answer;
    let mark = Mark {
        kind: kind,
        verdict: verdict,
        right: before.right,
        answer: answer,
    };
    let stage = sitting.stage;
    with_more(
        sitting,
        day,
        mark,
        least(sitting.filled, size),
        marked.written,
        stage,
    )
}

// One right line more, or none.
fn right_after(right: usize, more: bool) -> usize
    ensures { result ≡ (if more then wrapped (right + 1) else right) }
{
    if more {
        return wrapping_add_usize(right, 1);
    }
    right
}

// After a line's end, in a text of `size` bytes.
fn finished(sitting: Sitting, done: Finished, size: usize) -> Sitting
    ensures { result ≡ finished_by sitting done size }
{
    let day = sitting.day;
    let before = sitting.mark;
    let kind = before.kind;
    let answer = before.answer;
    let mark = Mark {
        kind: kind,
        verdict: Verdict::Rest,
        right: right_after(before.right, done.right),
        answer: answer,
    };
    let stage = sitting.stage;
    with_more(
        sitting,
        day,
        mark,
        least(sitting.filled, size),
        done.written,
        stage,
    )
}

// A line is at its end.
fn finish_line(sitting: Sitting, input: &[u8], text: &mut [u8]) -> Sitting
    ensures { put result text.new ≡ finish_of sitting input.now text.old }
{
    let mark = sitting.mark;
    let verdict = mark.verdict;
    let answer = mark.answer;
    let size = text.len();
    let end = least(answer.to, input.len());
    let start = least(answer.from, end);
    let done = marking::verdict::finish(verdict, &input[start..end], text, sitting.filled);
    finished(sitting, done, size)
}

// Puts the last line behind what waits. Then only writing is left.
fn put_last(sitting: Sitting, text: &mut [u8]) -> Sitting
    ensures { put result text.new ≡ last_put sitting text.old }
{
    let day = sitting.day;
    let mark = sitting.mark;
    let kind = mark.kind;
    let at = least(sitting.filled, text.len());
    let n = marking::put::put_last(kind, mark.right, text, sitting.filled);
    with_more(sitting, day, mark, at, n, Stage::Last)
}

// The same with the line of the line that can't be read before it.
fn put_error(sitting: Sitting, text: &mut [u8]) -> Sitting
    ensures { put result text.new ≡ error_put sitting text.old }
{
    let day = sitting.day;
    let mark = sitting.mark;
    let kind = mark.kind;
    let stage = sitting.stage;
    let at = least(sitting.filled, text.len());
    let n = marking::put::put_stop(
        kind,
        wrapping_add_usize(sitting.lines, 1),
        text,
        sitting.filled,
    );
    put_last(with_more(sitting, day, mark, at, n, stage), text)
}

#[tactic(auto, unfolding(crate::specs::Narrow::readable_of))]
fn is_readable(command: Command) -> bool
    ensures { result ≡ readable_of command }
{
    !matches!(command, Command::Unreadable)
}

// Where the script's fields of the line between two places end.
fn script_to(kind: Kind, input: &[u8], from: usize, to: usize) -> usize
    ensures { result ≡ wrapped (from + script_end kind (bytes_from from to input.now)) }
{
    let end = least(to, input.len());
    let start = least(from, end);
    wrapping_add_usize(from, marking::fields::script_end(kind, &input[start..end]))
}

// The line that ends at `to` is passed over with its newline, and begun; its answer stands from `answer` on.
fn passed(
    sitting: Sitting,
    answer: usize,
    to: usize,
    command: Command,
    judged: Judged,
    size: usize,
) -> Sitting
    ensures { result ≡ begun_by sitting answer to command judged size }
{
    let day = sitting.day;
    let stage = sitting.stage;
    let before = sitting.mark;
    let kind = before.kind;
    let verdict = judged.verdict;
    let part = Part {
        from: answer,
        to: to,
    };
    let mark = Mark {
        kind: kind,
        verdict: verdict,
        right: before.right,
        answer: part,
    };
    let next = script::begin(day, command);
    Sitting {
        day: next,
        mark: mark,
        from: least(wrapping_add_usize(to, 1), sitting.end),
        end: sitting.end,
        ended: sitting.ended,
        lines: wrapping_add_usize(sitting.lines, 1),
        filled: wrapping_add_usize(least(sitting.filled, size), judged.written),
        stage: stage,
    }
}

// A line that can be read is begun.
fn begun(
    sitting: Sitting,
    answer: usize,
    to: usize,
    command: Command,
    input: &[u8],
    text: &mut [u8],
) -> Sitting
    ensures { put result text.new ≡ line_begun sitting answer to command input.now text.old }
{
    let mark = sitting.mark;
    let kind = mark.kind;
    let size = text.len();
    let end = least(to, input.len());
    let start = least(sitting.from, end);
    let judged = marking::verdict::begin(kind, &input[start..end], text, sitting.filled);
    passed(sitting, answer, to, command, judged, size)
}

// Begins the line of n bytes that stands next in the input. One that can't be read is the last.
fn begin_line(
    sitting: Sitting,
    n: usize,
    input: &[u8],
    bytes: &mut [u8],
    text: &mut [u8],
) -> Sitting
    ensures { begins result bytes.new text.new ≡ begin_of sitting n input.now bytes.old text.old }
{
    let mark = sitting.mark;
    let kind = mark.kind;
    let to = wrapping_add_usize(sitting.from, n);
    let answer = script_to(kind, input, sitting.from, to);
    let command = input::read_line(input, sitting.from, answer, bytes);
    if is_readable(command) {
        return begun(sitting, answer, to, command, input, text);
    }
    put_error(sitting, text)
}

// Writes the first n bytes of the text, and says whether all were written.
fn write_front(mut stdout: Stdout, text: &[u8], n: usize) -> bool {
    let size = least(n, text.len());
    streams::write_all(&mut stdout, &text[..size])
}

// After what waits was written: where only that was left, the program is done.
fn written_stage(stage: Stage) -> Stage
    ensures { result ≡ written_stage stage }
{
    match stage {
        Stage::Going => Stage::Going,
        Stage::Last => Stage::Done,
        Stage::Done => Stage::Done,
        Stage::Broken => Stage::Broken,
    }
}

// Writes out what waits (`waiting_text`).
fn flush(stdout: Stdout, sitting: Sitting, text: &[u8]) -> Sitting
    ensures { Flushed sitting result }
{
    let day = sitting.day;
    let mark = sitting.mark;
    let stage = sitting.stage;
    if write_front(stdout, text, sitting.filled) {
        let then = written_stage(stage);
        return Sitting {
            day: day,
            mark: mark,
            from: sitting.from,
            end: sitting.end,
            ended: sitting.ended,
            lines: sitting.lines,
            filled: 0,
            stage: then,
        };
    }
    with_stage(sitting, Stage::Broken)
}

// Moves the part of a line to the front of the input and reads more behind it. A read that brings nothing, or fails, ends the input.
fn fill(mut stdin: Stdin, sitting: Sitting, input: &mut [u8]) -> Sitting
    ensures { Filled sitting input.old result input.new }
{
    let day = sitting.day;
    let mark = sitting.mark;
    let stage = sitting.stage;
    let left = input::shift(input, sitting.from, sitting.end);
    let kept = least(left, input.len());
    let n = streams::read(&mut stdin, &mut input[kept..]);
    Sitting {
        day: day,
        mark: mark,
        from: 0,
        end: kept + n,
        ended: n == 0,
        lines: sitting.lines,
        filled: sitting.filled,
        stage: stage,
    }
}

// One turn.
pub(crate) fn turn(
    stdin: Stdin,
    stdout: Stdout,
    sitting: Sitting,
    disk: &mut [u8],
    map: &mut [u64],
    owner: &mut [u16],
    table: &mut [u32],
    selected: &mut [u32],
    held: &mut [u8],
    input: &mut [u8],
    bytes: &mut [u8],
    text: &mut [u8],
) -> Sitting
    ensures { Turned sitting (memory
        (lent disk.old map.old owner.old table.old selected.old held.old)
        input.old bytes.old text.old)
        (state result (memory
        (lent disk.new map.new owner.new table.new selected.new held.new)
        input.new bytes.new text.new)) }
{
    let size = text.len();
    let next = decide(sitting, &*input, size);
    match next {
        Next::Step => {
            let day = sitting.day;
            let mark = sitting.mark;
            let verdict = mark.verdict;
            let answer = mark.answer;
            let marked = marking::step(
                day,
                verdict,
                disk,
                map,
                owner,
                table,
                selected,
                held,
                &*bytes,
                &*input,
                answer,
                text,
                sitting.filled,
            );
            stepped(sitting, marked, size)
        }
        Next::Finish => finish_line(sitting, &*input, text),
        Next::Line(n) => begin_line(sitting, n, &*input, bytes, text),
        Next::Flush => flush(stdout, sitting, &*text),
        Next::Fill => fill(stdin, sitting, input),
        Next::Last => put_last(sitting, text),
        Next::Error => put_error(sitting, text),
    }
}
