// A turn of the program: a step of the line that is being run, the next line, the last lines, more input, or output written. Each of them is done by the
// crates script and pass; the line alone is the program's own, since no word more than those of script is known here.
ghost use Rattle.std.specs.Prelude.{◌≡◌, ℕ, ◌+◌, List};
ghost use Rattle.server.specs.State.{lent};
ghost use Rattle.lines.specs.declared.commands.Command.TheVariants as command;
ghost use Rattle.lines.specs.Commands.{read_of};
ghost use Rattle.input.specs.Parts.{bytes_from, wrapped};
ghost use Rattle.script.specs.Sheet.{Counted};
ghost use Rattle.pass.specs.Pass.{memory, passing};
ghost use Rattle.passday.specs.Pass.{begun_of, Turned};

use pass::{Next, Pass};
use std::io::{Stdin, Stdout};
use std::num::wrapping_add_usize;

// Begins the line of n bytes that stands next in the input. One that can't be read is the last.
fn begin_line(
    pass: Pass,
    n: usize,
    map: &[u64],
    owner: &[u16],
    input: &[u8],
    bytes: &mut [u8],
    text: &mut [u8],
) -> Pass
    ensures text_after { (disk table selected held : List ℕ)
        → passing result (memory (lent disk map.now owner.now table selected held)
        input.now bytes.new text.new)
        ≡ begun_of pass n (memory (lent disk map.now owner.now table selected held)
        input.now bytes.old text.old) }
    ensures counted { (read_of (bytes_from pass.from (wrapped (pass.from + n)) input.now) bytes.old).command ≡ command.Unreadable
        → Counted map.now owner.now }
{
    let to = wrapping_add_usize(pass.from, n);
    let command = input::read_line(input, pass.from, to, bytes);
    if pass::is_readable(command) {
        return pass::begun(pass, to, command);
    }
    pass::put_error(pass, map, owner, text)
}

// One turn.
pub(crate) fn turn(
    mut stdin: Stdin,
    mut stdout: Stdout,
    pass: Pass,
    disk: &mut [u8],
    map: &mut [u64],
    owner: &mut [u16],
    table: &mut [u32],
    selected: &mut [u32],
    held: &mut [u8],
    input: &mut [u8],
    bytes: &mut [u8],
    text: &mut [u8],
) -> Pass
    ensures { Turned pass (memory
        (lent disk.old map.old owner.old table.old selected.old held.old)
        input.old bytes.old text.old)
        (passing result (memory
        (lent disk.new map.new owner.new table.new selected.new held.new)
        input.new bytes.new text.new)) }
{
    let size = text.len();
    match pass::decide(pass, script::ROOM, &*input, size) {
        Next::Step => {
            let s = script::step(
                pass.day,
                disk,
                map,
                owner,
                table,
                selected,
                held,
                &*bytes,
                text,
                pass.filled,
            );
            pass::stepped(pass, s, size)
        }
        Next::Line(n) => begin_line(pass, n, &*map, &*owner, &*input, bytes, text),
        Next::Flush => pass::flush(&mut stdout, pass, &*text),
        Next::Fill => pass::fill(&mut stdin, pass, input),
        Next::Last => pass::put_last(pass, &*map, &*owner, text),
        Next::Error => pass::put_error(pass, &*map, &*owner, text),
    }
}
