// Why an equation is true or false on a file of the store, and whether a SELECT lists the file (document 02, A5).
//
// `why` takes an equation, a file's number and the store, and names the relations that decided, by their numbers in the equation from 1, rising.
// The layer promises that exactly the relations of the definition `reasons` are named. What that means is proved in crates/reasons: each has the
// truth of the outcome; whatever the truth of the others, the outcome is the same; none can be left out; and a file that matched and is not
// beyond MAXSEL is one that SELECT lists, and no other is.
//
// The equation is parsed once. The file's header is read once; then one pass over the steps, with a stack of at most 100 results, finds the
// truth and the reasons together. The older files are counted by the same steps.
// No function asks anything of its caller. A refusal tells nothing else and leaves everything as it was.
#![tactic(auto)]

ghost use Rattle.std.specs.Prelude.{◌≡◌, ◌+◌, ◌/◌, ◌≤◌, ◌<◌, cond, ◌++◌, length, take, drop, Some};
ghost use Rattle.std.proofs.Math.Option.{some};
ghost use Rattle.header.specs.Items.{fields_of};
ghost use Rattle.equation.specs.Tree.{Tree, parse};
ghost use Rattle.equation.specs.Marks.{settled_by};
ghost use Rattle.equation.specs.Parsed.{relations_by};
ghost use Rattle.equation.specs.Answer.{selects};
ghost use Rattle.stored.specs.Answers.{file_at};
ghost use Rattle.refusal.specs.Refusal.{numbered};
ghost use Rattle.why.specs.Answer.{whys, sizes_fit, older_of, told, file_why, found_why, tree_why, why_of};
ghost use Rattle.why.specs.Run.{result_on, Tells};
ghost use Rattle.why.specs.Sizes.{Store, Ready};

use crate::reasons::{Decided, decide};
use equation::evaluation::{outcome, parse};
use refusal::Refusal;

mod reasons;

// Whether the equation is true on the file; whether it is and at least MAXSEL older complete files match, so that a SELECT does not list the
// file; how many older ones match, counted where the equation is true on the file; how many relations are named.
#[derive(Clone, Copy)]
pub struct Explained {
    pub matched: bool,
    pub beyond: bool,
    pub older: usize,
    pub count: usize,
}

// Whether the sizes are in document 01's table.
fn sizes_fit(bytes: usize, disk: usize, blocks: usize, words: usize, most: usize) -> bool
    ensures { result ≡ sizes_fit bytes disk blocks words most }
{
    if 2047 < bytes {
        return false;
    }
    if blocks < 1 {
        return false;
    }
    if 4096 < blocks {
        return false;
    }
    if disk < 256 * blocks {
        return false;
    }
    if words / 4 < 1 {
        return false;
    }
    if 256 < words / 4 {
        return false;
    }
    if most < 1 {
        return false;
    }
    most <= 50
}

// ---- a file

// Settles the equation's relations on the file at a place, whose sizes fit.
fn settle_file(
    eq: &[u8],
    steps: &[u16],
    disk: &[u8],
    owner: &[u16],
    place: usize,
    received: u32,
    truths: &mut [u8],
)
    requires { Store disk.now owner.now × (place < 256) }
    ensures { truths.new ≡ settled_by (fields_of (file_at disk.now owner.now place received)) (relations_by eq.now steps.now) truths.old }
{
    // where the sizes are refused, the marks stay as they are
    let _ = stored::settle_at(
        eq,
        steps,
        disk,
        owner,
        place as u16,
        received as usize,
        truths,
    );
}

// Whether the equation is true on the file at a place; the steps are the equation's, so it is not refused.
fn meets(eq: &[u8], steps: &[u16], disk: &[u8], owner: &[u16], place: usize, received: u32) -> bool
    requires { Ready eq.now steps.now × Store disk.now owner.now × (place < 256) }
    ensures { result ≡ selects eq.now (fields_of (file_at disk.now owner.now place received)) }
{
    let mut truths = [0u8; 511];
    settle_file(eq, steps, disk, owner, place, received, &mut truths);
    outcome(steps, &truths).unwrap_or(false)
}

// ---- the older files

// A count with one more, if so.
fn counted(count: usize, met: bool) -> usize
    requires { count < 256 }
    ensures { result ≡ cond met (count + 1) count }
{
    if met { count + 1 } else { count }
}

// How many complete files that are older than a time match. They are gone through oldest first, and each header is read once.
fn count_older(
    eq: &[u8],
    steps: &[u16],
    disk: &[u8],
    owner: &[u16],
    table: &[u32],
    time: u32,
) -> usize
    requires { Ready eq.now steps.now × Store disk.now owner.now × (length table.now / 4 ≤ 256) }
    ensures { result ≡ older_of eq.now disk.now owner.now table.now time }
{
    let mut count: usize = 0;
    let mut after: u32 = 0;
    // a `loop`: each turn goes on behind the file that it found, in the order of the upload times
    loop {
        let next = table::next_complete(table, after);
        match next {
            None => return count,
            Some(place) => {
                let file = table::get(table, place);
                after = table::upload_time_of(file);
                if time <= after {
                    return count;
                }
                let met = meets(eq, steps, disk, owner, place, file.received);
                count = counted(count, met);
            }
        }
    }
}

// ---- the answer

// The answer on a file: the older files count only where it matched.
fn tell(matched: bool, older: usize, most: usize, count: usize) -> Explained
    ensures { result ≡ told matched older most count }
{
    if matched {
        return Explained {
            matched: true,
            beyond: most <= older,
            older,
            count,
        };
    }
    Explained {
        matched: false,
        beyond: false,
        older: 0,
        count,
    }
}

// The older files that match, where the file itself does.
fn older_where(
    matched: bool,
    eq: &[u8],
    steps: &[u16],
    disk: &[u8],
    owner: &[u16],
    table: &[u32],
    time: u32,
) -> usize
    requires { Ready eq.now steps.now × Store disk.now owner.now × (length table.now / 4 ≤ 256) }
    ensures { result ≡ cond matched (older_of eq.now disk.now owner.now table.now time) 0 }
{
    if matched {
        return count_older(eq, steps, disk, owner, table, time);
    }
    0
}

// The truth of the equation on the file at a place, and the relations that decided, in front of the row.
fn decide_file(
    eq: &[u8],
    steps: &[u16],
    disk: &[u8],
    owner: &[u16],
    place: usize,
    received: u32,
    row: &mut [u16],
) -> Decided
    requires { Ready eq.now steps.now × Store disk.now owner.now × (place < 256) × (length row.old ≡ 511) }
    ensures { (t : Tree) → parse eq.now ≡ some t → Tells (some (result_on (fields_of (file_at disk.now owner.now place received)) t)) result row.new }
{
    let mut truths = [0u8; 511];
    settle_file(eq, steps, disk, owner, place, received, &mut truths);
    decide(steps, &truths, row)
}

// The answer on the complete file at a place.
fn why_file(
    eq: &[u8],
    steps: &[u16],
    disk: &[u8],
    owner: &[u16],
    table: &[u32],
    most: usize,
    named: &mut [u16],
    place: usize,
) -> Result<Explained, Refusal>
    requires { Ready eq.now steps.now × Store disk.now owner.now × (length table.now / 4 ≤ 256) × (place < 256) }
    ensures { (t : Tree) → parse eq.now ≡ some t → whys (numbered result) named.new ≡ file_why eq.now t disk.now owner.now table.now most named.old place }
{
    let file = table::get(table, place);
    let mut row = [0u16; 511];
    let decided = decide_file(eq, steps, disk, owner, place, file.received, &mut row);
    let count = decided.count;
    if named.len() < count {
        return Err(Refusal::BadSize);
    }
    named[..count].copy_from_slice(&row[..count]);
    let matched = decided.matched;
    let time = table::upload_time_of(file);
    let older = older_where(matched, eq, steps, disk, owner, table, time);
    Ok(tell(matched, older, most, count))
}

// The answer on the file at a place, by its upload time.
fn why_place(
    eq: &[u8],
    steps: &[u16],
    disk: &[u8],
    owner: &[u16],
    table: &[u32],
    most: usize,
    named: &mut [u16],
    place: usize,
) -> Result<Explained, Refusal>
    requires { Ready eq.now steps.now × Store disk.now owner.now × (length table.now / 4 ≤ 256) }
    ensures { (t : Tree) → parse eq.now ≡ some t → whys (numbered result) named.new ≡ found_why eq.now t disk.now owner.now table.now most named.old (Some place) }
{
    if table::upload_time_of(table::get(table, place)) == 0 {
        return Err(Refusal::FilePartial);
    }
    why_file(eq, steps, disk, owner, table, most, named, place)
}

// The answer on the file of a number, by its place.
fn why_number(
    eq: &[u8],
    steps: &[u16],
    number: u32,
    disk: &[u8],
    owner: &[u16],
    table: &[u32],
    most: usize,
    named: &mut [u16],
) -> Result<Explained, Refusal>
    requires { Ready eq.now steps.now × Store disk.now owner.now × (length table.now / 4 ≤ 256) }
    ensures { whys (numbered result) named.new ≡ tree_why eq.now (parse eq.now) number disk.now owner.now table.now most named.old }
{
    match table::find(table, number) {
        None => Err(Refusal::NoSuchFile),
        Some(place) => why_place(eq, steps, disk, owner, table, most, named, place),
    }
}

// Why the equation is true or false on the file of a number: `named` gets the numbers of the relations that decided, from 1 and rising, in
// front; the rest of it stays. Refused, with nothing written: 33 for sizes outside the table, 8 for an equation that is none, 4 for no such
// file, 11 for a partial file, 33 where `named` is too short.
pub fn why(
    eq: &[u8],
    number: u32,
    disk: &[u8],
    owner: &[u16],
    table: &[u32],
    most: usize,
    named: &mut [u16],
) -> Result<Explained, Refusal>
    ensures { whys (numbered result) named.new ≡ why_of eq.now number disk.now owner.now table.now most named.old }
{
    if !sizes_fit(eq.len(), disk.len(), owner.len(), table.len(), most) {
        return Err(Refusal::BadSize);
    }
    let mut steps = [0u16; 2047];
    let n = parse(eq, &mut steps)?;
    why_number(eq, &steps[..n], number, disk, owner, table, most, named)
}
