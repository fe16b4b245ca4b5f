// The script program: reads a script's lines from standard input, runs them against a server of 128 blocks, 32 files, 4 sessions and MAXSEL 50, and
// prints what it answers. All but the choice of a turn's part is done by the crates script and pass. In whatever pieces the input comes, the program goes
// on until the script ends, and what it then has written is the sheet of the script that it read (specs/Run.antt, Whole.antt).
#![tactic(auto)]

mod turn;

ghost use Rattle.std.specs.Prelude.{◌≡◌, false, length};
ghost use Rattle.server.specs.State.{lent};
ghost use Rattle.pass.specs.Pass.{memory, passing, over_of};
ghost use Rattle.passday.specs.Run.{Played};
ghost use Rattle.passday.specs.Whole.{Ready, PlayedAll, RanInMemory};

use pass::Pass;
use std::io::{Stdin, Stdout};

// Turns of the program, until it is over. Nothing says that the input ends, so they are counted up to a number that no run reaches.
fn play(
    stdin: Stdin,
    stdout: Stdout,
    start: Pass,
    disk: &mut [u8],
    map: &mut [u64],
    owner: &mut [u16],
    table: &mut [u32],
    selected: &mut [u32],
    held: &mut [u8],
    input: &mut [u8],
    bytes: &mut [u8],
    text: &mut [u8],
) -> Pass
    requires { over_of start.stage ≡ false }
    ensures { Played start (memory
        (lent disk.old map.old owner.old table.old selected.old held.old)
        input.old bytes.old text.old)
        (passing result (memory
        (lent disk.new map.new owner.new table.new selected.new held.new)
        input.new bytes.new text.new)) }
{
    let mut pass = start;
    for _turn in 0..u64::MAX {
        pass = turn::turn(
            stdin, stdout, pass, disk, map, owner, table, selected, held, input, bytes, text,
        );
        if pass::is_over(pass) {
            return pass;
        }
    }
    pass
}

// Makes the server, and runs the script that is read against it.
fn run(
    stdin: Stdin,
    stdout: Stdout,
    disk: &mut [u8],
    map: &mut [u64],
    owner: &mut [u16],
    table: &mut [u32],
    selected: &mut [u32],
    held: &mut [u8],
    input: &mut [u8],
    bytes: &mut [u8],
    text: &mut [u8],
) -> Pass
    requires { Ready (memory
        (lent disk.old map.old owner.old table.old selected.old held.old)
        input.old bytes.old text.old) }
    ensures { PlayedAll (memory
        (lent disk.old map.old owner.old table.old selected.old held.old)
        input.old bytes.old text.old)
        (passing result (memory
        (lent disk.new map.new owner.new table.new selected.new held.new)
        input.new bytes.new text.new)) }
{
    // not refused: the sizes are legal, and the memory has room for them
    let server = making::make(128, 32, 4, 50, &*disk, map, owner, table, selected, held).unwrap();
    play(
        stdin,
        stdout,
        pass::new_pass(server),
        disk,
        map,
        owner,
        table,
        selected,
        held,
        input,
        bytes,
        text,
    )
}

// The large arrays, all zeros. Their makers promise the length alone, so that no proof of a caller writes out the zeros.
fn blank_disk() -> [u8; 32768]
    ensures { length result ≡ 32768 }
{
    [0u8; 32768]
}

fn blank_input() -> [u8; 262144]
    ensures { length result ≡ 262144 }
{
    [0u8; 262144]
}

fn blank_text() -> [u8; 65536]
    ensures { length result ≡ 65536 }
{
    [0u8; 65536]
}

// The program's memory, and what is done in it.
fn run_in_memory(stdin: Stdin, stdout: Stdout) -> Pass
    ensures { RanInMemory result }
{
    let mut disk = blank_disk();
    let mut map = [0u64; 2];
    let mut owner = [0u16; 128];
    let mut table = [0u32; 128];
    let mut selected = [0u32; 200];
    let mut held = [0u8; 1032];
    let mut input = blank_input();
    let mut bytes = blank_text();
    let mut text = blank_text();
    run(
        stdin,
        stdout,
        &mut disk,
        &mut map,
        &mut owner,
        &mut table,
        &mut selected,
        &mut held,
        &mut input,
        &mut bytes,
        &mut text,
    )
}

// Where the first line can't be written, nothing is.
fn main(rt: HostRuntime) {
    let mut stdout = rt.stdout();
    if streams::write_all(&mut stdout, b"session\tpacket\tinformation\n") {
        run_in_memory(rt.stdin(), stdout);
    }
}
