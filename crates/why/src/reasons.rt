// The truth of an equation and the relations that decided it, in one pass over its steps. The results of the stack lie in arrays; their reasons
// lie in one row, one behind the other, so that those of two operands are joined where they are: both stay, the second's are dropped, or the
// second's move down over the first's.
ghost use Rattle.std.specs.Prelude.{◌≡◌, ◌-◌, ◌≤◌, cond, [], length, take, drop};
ghost use Rattle.std.proofs.lemmas.List.Edits.{sets};
ghost use Rattle.equation.specs.Parsed.{relations_by};
ghost use Rattle.why.specs.Run.{settles, joined_row, result_by, Tells};

// Whether the equation is true, and how many relations decided it.
#[derive(Clone, Copy)]
pub(crate) struct Decided {
    pub(crate) matched: bool,
    pub(crate) count: usize,
}

// Of steps that are refused nothing is told.
fn nothing() -> Decided
    ensures { result.count ≡ 0 }
{
    Decided {
        matched: false,
        count: 0,
    }
}

// Whether an operand alone settles AND (all) or OR.
fn settles_it(all: bool, truth: bool) -> bool
    ensures { result ≡ settles all truth }
{
    all != truth
}

// The truth of the first operand, or of the second.
fn pick(first: bool, a: bool, b: bool) -> bool
    ensures { result ≡ cond first a b }
{
    if first { a } else { b }
}

// Joins the reasons of the last two results, which begin at `first` and at `second` and end at `end`, and answers where they end now.
fn join(row: &mut [u16], first: usize, second: usize, end: usize, p: bool, q: bool) -> usize
    requires { (first ≤ second) × (second ≤ end) × (end ≤ length row.old) }
    ensures value { result ≡ length (joined_row p q first second (take end row.old)) }
    ensures row_after { take result row.new ≡ joined_row p q first second (take end row.old) }
{
    if p {
        return second;
    }
    if q {
        row.copy_within(second..end, first);
        return first + (end - second);
    }
    end
}

// The pass over the steps, by the marks of the relations. The stack has d results; the next relation has number k from 0; the row has n numbers.
pub(crate) fn decide(steps: &[u16], truths: &[u8], row: &mut [u16]) -> Decided
    requires { (length (relations_by [] steps.now) ≤ 511) × (length truths.now ≡ 511) × (length row.old ≡ 511) }
    ensures { Tells (result_by steps.now truths.now) result row.new }
{
    let mut bits = [false; 100];
    let mut from = [0usize; 100];
    let mut d = 0;
    let mut n = 0;
    let mut k: usize = 0;
    for step in steps {
        let s = *step;
        if s < 2048 {
            if 100 <= d {
                return nothing();
            }
            bits[d] = truths[k] == 1;
            from[d] = n;
            k += 1;
            row[n] = k as u16;
            n += 1;
            d += 1;
        } else {
            if 2049 < s || d < 2 {
                return nothing();
            }
            let j = d - 2;
            d -= 1;
            let p = settles_it(s == 2048, bits[j]);
            let q = settles_it(s == 2048, bits[d]);
            n = join(row, from[j], from[d], n, p, q);
            bits[j] = pick(p, bits[j], bits[d]);
        }
    }
    Decided {
        matched: bits[0],
        count: n,
    }
}
