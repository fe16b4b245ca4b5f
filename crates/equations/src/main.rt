// The program `equations`: reads lines from standard input, and prints for each the line that crates/replies defines. A line that can't be read prints
// `error` and its number, and ends the program. In whatever pieces the input comes, the program goes on until the input ends, and what it then has
// written is the output for the input that it read (specs/Output.antt, Whole.antt).
#![tactic(auto)]

mod progress;

ghost use Rattle.std.specs.Prelude.{◌≡◌, length};
ghost use Rattle.equations.specs.Turn.{state};
ghost use Rattle.equations.specs.Whole.{PlayedAll, RanInMemory};

use progress::Progress;
use std::io::{Stdin, Stdout};

// Turns of the program, until it is over. Nothing says that the input ends, so they are counted up to a number that no run reaches.
fn play(stdin: Stdin, stdout: Stdout, input: &mut [u8], text: &mut [u8]) -> Progress
    ensures { PlayedAll input.old text.old (state result input.new text.new) }
{
    let mut progress = progress::new_progress();
    for _turn in 0..u64::MAX {
        progress = progress::turn(stdin, stdout, progress, input, text);
        if progress::is_over(progress) {
            return progress;
        }
    }
    progress
}

// The large arrays, all zeros. Their makers promise the length alone, so that no proof of a caller writes out the zeros.
fn blank_input() -> [u8; 262144]
    ensures { length result ≡ 262144 }
{
    [0u8; 262144]
}

fn blank_text() -> [u8; 65536]
    ensures { length result ≡ 65536 }
{
    [0u8; 65536]
}

// The program's memory, and what is done in it.
fn run_in_memory(stdin: Stdin, stdout: Stdout) -> Progress
    ensures { RanInMemory result }
{
    let mut input = blank_input();
    let mut text = blank_text();
    play(stdin, stdout, &mut input, &mut text)
}

fn main(rt: HostRuntime) {
    run_in_memory(rt.stdin(), rt.stdout());
}
