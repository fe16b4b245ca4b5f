// The run of the programs `desk` and `sheet`: lines are read from standard input, run against a server of passday's sizes, and what crates/marking
// defines is written to standard output. In whatever pieces the input comes, the run goes on until the input ends or a line can't be read, and what it
// then has written is the output for the input that it read (specs/Run.antt, Whole.antt).
#![tactic(auto)]

pub mod turn;

ghost use Rattle.std.specs.Prelude.{◌≡◌, false, length};
ghost use Rattle.server.specs.State.{lent};
ghost use Rattle.sitting.specs.Turn.{memory, state, over_of};
ghost use Rattle.sitting.specs.Run.{Played};
ghost use Rattle.sitting.specs.Whole.{Ready, PlayedAll, Sat};

use marking::Kind;
use std::io::{Stdin, Stdout};
use turn::Sitting;

// Turns, until the run is over. Nothing says that the input ends, so they are counted up to a number that no run reaches.
fn play(
    stdin: Stdin,
    stdout: Stdout,
    start: Sitting,
    disk: &mut [u8],
    map: &mut [u64],
    owner: &mut [u16],
    table: &mut [u32],
    selected: &mut [u32],
    held: &mut [u8],
    input: &mut [u8],
    bytes: &mut [u8],
    text: &mut [u8],
) -> Sitting
    requires { over_of start.stage ≡ false }
    ensures { Played start (memory
        (lent disk.old map.old owner.old table.old selected.old held.old)
        input.old bytes.old text.old)
        (state result (memory
        (lent disk.new map.new owner.new table.new selected.new held.new)
        input.new bytes.new text.new)) }
{
    let mut sitting = start;
    for passed in 0..u64::MAX {
        sitting = turn::turn(
            stdin, stdout, sitting, disk, map, owner, table, selected, held, input, bytes, text,
        );
        if turn::is_over(sitting) {
            return sitting;
        }
    }
    sitting
}

// Makes the server, and runs the lines that are read against it.
fn run(
    stdin: Stdin,
    stdout: Stdout,
    kind: Kind,
    disk: &mut [u8],
    map: &mut [u64],
    owner: &mut [u16],
    table: &mut [u32],
    selected: &mut [u32],
    held: &mut [u8],
    input: &mut [u8],
    bytes: &mut [u8],
    text: &mut [u8],
) -> Sitting
    requires { Ready (memory
        (lent disk.old map.old owner.old table.old selected.old held.old)
        input.old bytes.old text.old) }
    ensures { PlayedAll kind (memory
        (lent disk.old map.old owner.old table.old selected.old held.old)
        input.old bytes.old text.old)
        (state result (memory
        (lent disk.new map.new owner.new table.new selected.new held.new)
        input.new bytes.new text.new)) }
{
    // not refused: the sizes are legal, and the memory has room for them
    let server = making::make(128, 32, 4, 50, &*disk, map, owner, table, selected, held).unwrap();
    play(
        stdin,
        stdout,
        turn::new_sitting(kind, server),
        disk,
        map,
        owner,
        table,
        selected,
        held,
        input,
        bytes,
        text,
    )
}

// The large arrays, all zeros. Their makers promise the length alone, so that no proof of a caller writes out the zeros.
fn blank_disk() -> [u8; 32768]
    ensures { length result ≡ 32768 }
{
    [0u8; 32768]
}

fn blank_bytes() -> [u8; 65536]
    ensures { length result ≡ 65536 }
{
    [0u8; 65536]
}

fn blank_text() -> [u8; 262144]
    ensures { length result ≡ 262144 }
{
    [0u8; 262144]
}

// The whole program: its memory, and what is done in it.
pub fn sit(stdin: Stdin, stdout: Stdout, kind: Kind)
    ensures { Sat kind }
{
    let mut disk = blank_disk();
    let mut map = [0u64; 2];
    let mut owner = [0u16; 128];
    let mut table = [0u32; 128];
    let mut selected = [0u32; 200];
    let mut held = [0u8; 1032];
    let mut input = blank_text();
    let mut bytes = blank_bytes();
    let mut text = blank_text();
    run(
        stdin,
        stdout,
        kind,
        &mut disk,
        &mut map,
        &mut owner,
        &mut table,
        &mut selected,
        &mut held,
        &mut input,
        &mut bytes,
        &mut text,
    );
}
