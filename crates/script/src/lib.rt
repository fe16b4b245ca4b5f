// A script's line run against the server, one call of the server at a time.
//
// A line is begun, then stepped until the script rests: each step is one call of the server and at most one printed line. Every step has an
// answer, whatever it is handed; the contracts say what the call was, what it left and what was printed.
//
// The caller keeps the script and the slices from step to step, and nobody else writes to them. So each call is told that the state is sound; from a
// server just made on, each is the server's own call, with the test of 35 (EveryScript in specs/Reached.antt).
#![tactic(auto)]

mod calling;
pub mod doing;
mod printing;

ghost use Rattle.std.specs.Prelude.{◌≡◌, take, drop};
ghost use Rattle.blocks.specs.FreeMap.{free_count};
ghost use Rattle.blocks.specs.Owners.{held_count};
ghost use Rattle.server.specs.State.{Lent, lent, outcome};
ghost use Rattle.lines.specs.Lines.{printed, printed_in, blocks_line};
ghost use Rattle.script.specs.Sheet.{Counted};
ghost use Rattle.script.specs.Day.{begin_of, stepping, answered_of, place_in, behind, step_behind};

use doing::Doing;
use input::parts::{least, rest};
use lines::Command;
use server::{Done, Server};

// The script between two calls: the server, the clock, and what is being done.
#[derive(Clone, Copy)]
pub struct Day {
    pub server: Server,
    pub clock: u32,
    pub doing: Doing,
}

// The script after a step, and how many bytes were printed.
#[derive(Clone, Copy)]
pub struct Stepped {
    pub day: Day,
    pub written: usize,
}

// A text of so many bytes has room for any line that is printed.
pub const ROOM: usize = 560;

// A command that was read is begun. A line that can't be read does nothing.
pub fn begin(day: Day, command: Command) -> Day
    ensures { result ≡ begin_of day command }
{
    let server = day.server;
    let clock = day.clock;
    match command {
        Command::Unreadable => day,
        Command::Time(now) => Day {
            server: server,
            clock: now,
            doing: Doing::Rest,
        },
        Command::Open(session) => Day {
            server: server,
            clock: clock,
            doing: Doing::Opening(session),
        },
        Command::Drop(session) => Day {
            server: server,
            clock: clock,
            doing: Doing::Dropping(session),
        },
        Command::Rx(session, n) => Day {
            server: server,
            clock: clock,
            doing: Doing::Hearing(session, 0, n),
        },
    }
}

// After a call: its line is printed behind the place `at`, and the script goes on.
fn conclude(day: Day, done: Done, size: usize, out: &[u8], text: &mut [u8], at: usize) -> Stepped
    ensures { (l : Lent) → stepping result l text.new
        ≡ behind (place_in at text.old) text.old
        (answered_of day size (drop (place_in at text.old) text.old) (outcome done l out.now)) }
{
    let doing = day.doing;
    let answer = done.answer;
    let from = least(at, text.len());
    let written = printing::show(doing::session_of(doing), answer, out, &mut text[from..]);
    let next = done.server;
    let then = doing::after(doing, answer, size);
    let after = Day {
        server: next,
        clock: day.clock,
        doing: then,
    };
    Stepped {
        day: after,
        written: written,
    }
}

// One call of the server for what is being done, and its line, if it has one, behind the first `at` bytes of the text. Where less is left of the
// text than any line can be, nothing happens at all, so that the caller can empty it and go on.
pub fn step(
    day: Day,
    disk: &mut [u8],
    map: &mut [u64],
    owner: &mut [u16],
    table: &mut [u32],
    selected: &mut [u32],
    held: &mut [u8],
    bytes: &[u8],
    text: &mut [u8],
    at: usize,
) -> Stepped
    ensures { stepping result (lent disk.new map.new owner.new table.new selected.new held.new) text.new
        ≡ step_behind at day (lent disk.old map.old owner.old table.old selected.old held.old) bytes.now text.old }
{
    if rest(at, text.len(), text.len()) < ROOM {
        return Stepped {
            day: day,
            written: 0,
        };
    }
    let mut out = [0u8; 258];
    let server = day.server;
    let doing = day.doing;
    let done = calling::call(
        server, day.clock, doing, bytes, disk, map, owner, table, selected, held, &mut out,
    );
    conclude(day, done, bytes.len(), &out, text, at)
}

// The last line: the blocks free, the one bits of the map, and the blocks held.
pub fn blocks(map: &[u64], owner: &[u16], text: &mut [u8]) -> usize
    ensures text_after { printed result text.new ≡ printed_in (blocks_line (free_count (take 64 map.now)) (held_count owner.now)) text.old }
    ensures counted { Counted map.now owner.now }
{
    let free = blocks::free_count(map);
    let held = blocks::held_count(owner);
    lines::blocks_line(free, held, text)
}
