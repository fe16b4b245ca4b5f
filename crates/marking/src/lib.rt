// The marking desk's work on a line of a pupil's answer sheet: a script line's fields, then all that `passday` should print for it, less the session.
//
// The layer stands above the script and the server and knows only their contracts. It promises that what a line is compared with is what the script
// prints for its script fields, that a line is told right exactly where its answer is that, and that the server goes on from its own state, whatever
// the pupil wrote. The pupil's answer is compared while the server's fields are produced: as long as both agree nothing is held but how far, since
// what is produced then stands in the answer itself; from the first difference on what is produced is put into the text at once. So no buffer is
// needed for what the server answers, however long that is. The same steps write the right sheet of a script.
#![tactic(auto)]

pub mod fields;
pub mod put;
pub mod verdict;

ghost use Rattle.std.specs.Prelude.{◌≡◌, take};
ghost use Rattle.server.specs.State.{lent};
ghost use Rattle.marking.specs.Verdict.{judged_of};
ghost use Rattle.marking.specs.Step.{part_in, concludes, concluded_of, marking, mark_of};

use input::parts::least;
use script::{Day, Stepped};
use verdict::Verdict;

// What is printed: the desk's verdicts on an answer sheet, or the right sheet of a script.
#[derive(Clone, Copy)]
pub enum Kind {
    Desk,
    Sheet,
}

// Where the pupil's answer stands in the input: from a place to another.
#[derive(Clone, Copy)]
pub struct Part {
    pub from: usize,
    pub to: usize,
}

// After a step of a line: the script, the verdict so far, and how many bytes were put into the text.
#[derive(Clone, Copy)]
pub struct Marked {
    pub day: Day,
    pub verdict: Verdict,
    pub written: usize,
}

// After a call of the script, with what it printed at the front of `out`.
fn conclude(
    stepped: Stepped,
    verdict: Verdict,
    out: &[u8],
    input: &[u8],
    answer: Part,
    text: &mut [u8],
    at: usize,
) -> Marked
    ensures { concludes result text.new
        ≡ concluded_of stepped.day (judged_of verdict (part_in answer input.now) (take stepped.written out.now) at text.old) }
{
    let day = stepped.day;
    let size = least(stepped.written, out.len());
    let end = least(answer.to, input.len());
    let start = least(answer.from, end);
    let judged = verdict::judge(verdict, &out[..size], &input[start..end], text, at);
    Marked {
        day,
        verdict: judged.verdict,
        written: judged.written,
    }
}

// One call of the server for what the script is doing. What it prints, less the session, is compared with the pupil's answer, or put behind the first
// `at` bytes of the text.
pub fn step(
    day: Day,
    verdict: Verdict,
    disk: &mut [u8],
    map: &mut [u64],
    owner: &mut [u16],
    table: &mut [u32],
    selected: &mut [u32],
    held: &mut [u8],
    bytes: &[u8],
    input: &[u8],
    answer: Part,
    text: &mut [u8],
    at: usize,
) -> Marked
    ensures { marking result (lent disk.new map.new owner.new table.new selected.new held.new) text.new
        ≡ mark_of day verdict (lent disk.old map.old owner.old table.old selected.old held.old) bytes.now (part_in answer input.now) at text.old }
{
    let mut out = [0u8; 560];
    let stepped = script::step(
        day, disk, map, owner, table, selected, held, bytes, &mut out, 0,
    );
    conclude(stepped, verdict, &out, input, answer, text, at)
}
