// An equation parsed, and its truth on a header's items.
ghost use Rattle.std.specs.Prelude.{◌≡◌, ◌+◌, ◌<◌, get_or, take, drop, replicate};
ghost use Rattle.refusal.specs.Refusal.{numbered};
ghost use Rattle.header.specs.Items.{walk, fields_of};
ghost use Rattle.equation.specs.Relation.{meets};
ghost use Rattle.equation.specs.Marks.{field_of, mark_after, settled, settled_by, marked_true};
ghost use Rattle.equation.specs.Answer.{answer_of};
ghost use Rattle.equation.specs.Parsed.{relation_from, relations_by, outcome_by, counted, parses, parse_of};
ghost use Rattle.equation.specs.Steps.{finished, combine};

use crate::relation::item_meets;
use crate::steps::list_steps;
use header::items::{Head, read_head};
use refusal::Refusal;

// ---- the marks of relations

// Byte i of an equation, 0 past its end.
fn byte_of(eq: &[u8], i: usize) -> u8
    ensures { result ≡ get_or eq.now i 0 }
{
    eq.get(i).copied().unwrap_or(0)
}

// An item's bytes meet the relation at a place, whose constant ends where the equation ends at the latest.
fn meets_at(eq: &[u8], at: usize, item: &[u8]) -> bool
    requires { at < 2048 }
    ensures { result ≡ meets (get_or eq.now at 0) (take (get_or eq.now (at + 3) 0) (drop (at + 4) eq.now)) item.now }
{
    if eq.len() < at + 4 {
        return item_meets(byte_of(eq, at), &eq[0..0], item);
    }
    let start = at + 4;
    let size = eq[at + 3] as usize;
    if eq.len() - start < size {
        return item_meets(eq[at], &eq[start..], item);
    }
    let end = start + size;
    item_meets(eq[at], &eq[start..end], item)
}

// The mark of the relation at a place after an item: 0 not met yet, 1 met. What is met is not looked at again.
fn mark(m: u8, eq: &[u8], at: usize, id: u16, item: &[u8]) -> u8
    requires { at < 2048 }
    ensures { result ≡ mark_after (relation_from eq.now at) (field_of id item.now) m }
{
    if m == 1 {
        return 1;
    }
    let named = numbers::number16(byte_of(eq, at + 1), byte_of(eq, at + 2));
    if id == named && meets_at(eq, at, item) {
        1
    } else {
        m
    }
}

// Meets an item of a header: each relation of the steps that names its id and is met by its bytes is marked so.
// The mark of the relation of number k, from 0, stands at truths[k]; relations past the last mark have none.
pub fn settle(eq: &[u8], steps: &[u16], id: u16, item: &[u8], truths: &mut [u8])
    ensures { truths.new ≡ settled (field_of id item.now) (relations_by eq.now steps.now) truths.old }
{
    let mut k = 0;
    for step in steps {
        let at = usize::from(*step);
        if at < 2048 {
            if truths.len() <= k {
                return;
            }
            truths[k] = mark(truths[k], eq, at, id, item);
            k += 1;
        }
    }
}

// ---- the run of the steps

// The relation of number k is true by its mark.
fn marked_true(truths: &[u8], k: usize) -> bool
    ensures { result ≡ marked_true truths.now k }
{
    k < truths.len() && truths[k] == 1
}

fn combined(all: bool, a: bool, b: bool) -> bool
    ensures { result ≡ combine all a b }
{
    if all { a && b } else { a || b }
}

// The answer at the equation's end, by the stack's depth and its first result.
fn finish(d: usize, b: bool) -> Result<bool, Refusal>
    ensures { numbered result ≡ finished d b }
{
    if d == 1 {
        Ok(b)
    } else {
        Err(Refusal::BadEquation)
    }
}

// The truth of an equation by its steps and the marks of its relations, a relation being true exactly when its mark is 1: the postfix run, its
// stack in the array st up to depth d.
pub fn outcome(steps: &[u16], truths: &[u8]) -> Result<bool, Refusal>
    ensures { numbered result ≡ outcome_by steps.now truths.now }
{
    let mut st = [false; 100];
    let mut d = 0;
    let mut k = 0;
    for step in steps {
        let s = *step;
        if s < 2048 {
            if 100 <= d {
                return Err(Refusal::BadEquation);
            }
            st[d] = marked_true(truths, k);
            d += 1;
            k += 1;
        } else {
            if 2049 < s || d < 2 {
                return Err(Refusal::BadEquation);
            }
            let j = d - 2;
            d -= 1;
            st[j] = combined(s == 2048, st[j], st[d]);
        }
    }
    finish(d, st[0])
}

// Why an equation is refused, and how many steps stand in front of `steps` all the same.
#[derive(Clone, Copy)]
pub struct Unparsed {
    pub refusal: Refusal,
    pub count: usize,
}

impl From<Unparsed> for Refusal {
    ghost from_gives = { λ unparsed refusal. refusal ≡ unparsed.refusal };

    fn from(unparsed: Unparsed) -> Refusal {
        unparsed.refusal
    }
}

// Parses an equation, once for all files: its steps go to the front of `steps`, which needs as many numbers as the equation has bytes, and the
// answer is how many they are, also where they are refused. Steps are accepted or not whatever the marks, so none are needed.
// Refused with 8 exactly where it is no equation, whatever the files; with 33 above 2,047 bytes or where `steps` is too short.
pub fn parse(eq: &[u8], steps: &mut [u16]) -> Result<usize, Unparsed>
    ensures { parses (counted result) steps.new ≡ parse_of eq.now steps.old }
{
    if 2047 < eq.len() || steps.len() < eq.len() {
        return Err(Unparsed {
            refusal: Refusal::BadSize,
            count: 0,
        });
    }
    let count = list_steps(eq, steps);
    match outcome(&steps[..count], &[]) {
        Ok(_) => Ok(count),
        Err(refusal) => Err(Unparsed { refusal, count }),
    }
}

// ---- a file in one slice

// Settles the equation's relations by the items that stand in bytes from a place on.
fn settle_items(eq: &[u8], steps: &[u16], file: &[u8], truths: &mut [u8])
    ensures { truths.new ≡ settled_by (walk 0 file.now).items (relations_by eq.now steps.now) truths.old }
{
    let mut at = 0;
    // a `while`: each turn goes on behind the item that it read, and items differ in length
    while let Head::Item(id, n) = read_head(file, at) {
        let start = at + 3;
        let end = start + n;
        settle(eq, steps, id, &file[start..end], truths);
        at = end;
    }
}

// Settles the equation's relations by the items of a file; a file that does not begin AA 55 has none.
fn settle_file(eq: &[u8], steps: &[u16], file: &[u8], truths: &mut [u8])
    ensures { truths.new ≡ settled_by (fields_of file.now) (relations_by eq.now steps.now) truths.old }
{
    if file.starts_with(&[170, 85]) {
        settle_items(eq, steps, &file[2..], truths);
    }
}

// The truth of parsed steps on the header that a file's bytes begin with. 511 marks are enough for 2,047 bytes.
fn truth_of(eq: &[u8], steps: &[u16], file: &[u8]) -> Result<bool, Refusal>
    ensures { numbered result ≡ outcome_by steps.now (settled_by (fields_of file.now) (relations_by eq.now steps.now) (replicate 511 0)) }
{
    let mut truths = [0u8; 511];
    settle_file(eq, steps, file, &mut truths);
    outcome(steps, &truths)
}

// The truth of an equation on the header that a file's bytes begin with.
// Refused with 8 for one that is none, with 33 above 2,047 bytes.
pub fn evaluate(eq: &[u8], file: &[u8]) -> Result<bool, Refusal>
    ensures { numbered result ≡ answer_of eq.now file.now }
{
    let mut steps = [0u16; 2047];
    let count = parse(eq, &mut steps)?;
    truth_of(eq, &steps[..count], file)
}
