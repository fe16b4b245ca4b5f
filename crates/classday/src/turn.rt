// A turn of the program: a step of the line that is being run, the next line, the last lines, more input, or output written. All but the words that
// passday does not know is done by the crate pass.
ghost use Rattle.std.specs.Prelude.{◌≡◌, ℕ, ◌+◌, List};
ghost use Rattle.std.proofs.Math.Option.{none};
ghost use Rattle.server.specs.State.{lent};
ghost use Rattle.input.specs.Parts.{bytes_from, wrapped};
ghost use Rattle.lines.specs.declared.commands.Command.TheVariants as command;
ghost use Rattle.lines.specs.Commands.{read_of};
ghost use Rattle.replies.specs.Reply.{replies, replied};
ghost use Rattle.script.specs.Sheet.{Counted};
ghost use Rattle.pass.specs.Pass.{memory, passing, said_of, begun_of, Turned};
ghost use Rattle.classday.specs.Sheet.{class_words, reply_behind, prints_at};

use input::parts::least;
use pass::{Next, Pass};
use server::Server;
use std::io::{Stdin, Stdout};
use std::num::wrapping_add_usize;

// Room for any line that is printed.
const ROOM: usize = 8192;

// The reply to a line, from the store of a server: the owners of its blocks and the records of its file places.
fn reply(
    server: Server,
    disk: &[u8],
    owner: &[u16],
    table: &[u32],
    line: &[u8],
    text: &mut [u8],
) -> Option<usize>
    ensures { replies result text.new ≡ replied
        (prints_at server disk.now owner.now table.now line.now) text.old }
{
    let blocks = least(server.blocks, owner.len());
    let places = least(server.files, table.len());
    let records = least(4 * places, table.len());
    words::answer_line(
        line,
        disk,
        &owner[..blocks],
        &table[..records],
        server.most,
        text,
    )
}

// The reply to the line between two places of the input, behind the first `at` bytes of the text.
fn reply_behind(
    server: Server,
    disk: &[u8],
    owner: &[u16],
    table: &[u32],
    input: &[u8],
    from: usize,
    to: usize,
    text: &mut [u8],
    at: usize,
) -> Option<usize>
    ensures { replies result text.new ≡ reply_behind at
        (prints_at server disk.now owner.now table.now (bytes_from from to input.now)) text.old }
{
    let stop = least(to, input.len());
    let start = least(from, stop);
    let place = least(at, text.len());
    reply(
        server,
        disk,
        owner,
        table,
        &input[start..stop],
        &mut text[place..],
    )
}

// The line that ends at `to`, which passday can't read: it is answered, or it is the last.
fn answer_line(
    pass: Pass,
    to: usize,
    disk: &[u8],
    map: &[u64],
    owner: &[u16],
    table: &[u32],
    input: &[u8],
    text: &mut [u8],
) -> Pass
    ensures by_index { (selected held bytes : List ℕ)
        → passing result (memory (lent disk.now map.now owner.now table.now selected held)
        input.now bytes text.new)
        ≡ said_of (class_words pass.day (lent disk.now map.now owner.now table.now selected held)
        (bytes_from pass.from to input.now)) pass to
        (memory (lent disk.now map.now owner.now table.now selected held)
        input.now bytes text.old) }
    ensures by_index_2 { (selected held : List ℕ)
        → class_words pass.day (lent disk.now map.now owner.now table.now selected held)
        (bytes_from pass.from to input.now) ≡ none → Counted map.now owner.now }
{
    match reply_behind(
        pass.day.server,
        disk,
        owner,
        table,
        input,
        pass.from,
        to,
        text,
        pass.filled,
    ) {
        None => pass::put_error(pass, map, owner, text),
        Some(size) => pass::said(pass, pass.day, to, text.len(), size),
    }
}

// Begins the line of n bytes that stands next in the input, or answers it.
fn begin_line(
    pass: Pass,
    n: usize,
    disk: &[u8],
    map: &[u64],
    owner: &[u16],
    table: &[u32],
    input: &[u8],
    bytes: &mut [u8],
    text: &mut [u8],
) -> Pass
    ensures by_index { (selected held : List ℕ)
        → passing result (memory (lent disk.now map.now owner.now table.now selected held)
        input.now bytes.new text.new)
        ≡ begun_of class_words pass n (memory (lent disk.now map.now owner.now table.now selected held)
        input.now bytes.old text.old) }
    ensures by_index_2 { (selected held : List ℕ)
        → (read_of (bytes_from pass.from (wrapped (pass.from + n)) input.now) bytes.old).command ≡ command.Unreadable
        → class_words pass.day (lent disk.now map.now owner.now table.now selected held)
        (bytes_from pass.from (wrapped (pass.from + n)) input.now) ≡ none → Counted map.now owner.now }
{
    let to = wrapping_add_usize(pass.from, n);
    let command = input::read_line(input, pass.from, to, bytes);
    if pass::is_readable(command) {
        return pass::begun(pass, to, command);
    }
    answer_line(pass, to, disk, map, owner, table, input, text)
}

// One turn.
pub(crate) fn turn(
    mut stdin: Stdin,
    mut stdout: Stdout,
    pass: Pass,
    disk: &mut [u8],
    map: &mut [u64],
    owner: &mut [u16],
    table: &mut [u32],
    selected: &mut [u32],
    held: &mut [u8],
    input: &mut [u8],
    bytes: &mut [u8],
    text: &mut [u8],
) -> Pass
    ensures { Turned 8192 class_words pass (memory
        (lent disk.old map.old owner.old table.old selected.old held.old)
        input.old bytes.old text.old)
        (passing result (memory
        (lent disk.new map.new owner.new table.new selected.new held.new)
        input.new bytes.new text.new)) }
{
    let size = text.len();
    match pass::decide(pass, ROOM, &*input, size) {
        Next::Step => {
            let s = script::step(
                pass.day,
                disk,
                map,
                owner,
                table,
                selected,
                held,
                &*bytes,
                text,
                pass.filled,
            );
            pass::stepped(pass, s, size)
        }
        Next::Line(n) => begin_line(
            pass, n, &*disk, &*map, &*owner, &*table, &*input, bytes, text,
        ),
        Next::Flush => pass::flush(&mut stdout, pass, &*text),
        Next::Fill => pass::fill(&mut stdin, pass, input),
        Next::Last => pass::put_last(pass, &*map, &*owner, text),
        Next::Error => pass::put_error(pass, &*map, &*owner, text),
    }
}
