// The comparison of text (document 01, "Equations"): a relation's constant against an item's bytes. In the constant `*` is any run of
// bytes, the empty one too, and `?` any one byte; ASCII letters are lowered on both sides; every other byte stands for itself, and in the
// item `*` and `?` do too.
// The layer promises `matches`, a plain relation of constant and item, for texts of every length, with no recursion and no buffer: after a
// `*` the first place where the bytes up to the next `*` fit is as good as any later one, so only the last `*` is ever gone back to.
// Every comparison of a pattern byte with a text byte is counted: they are at most the product of both lengths (`comparisons`).
#![tactic(auto)]

ghost use Rattle.std.specs.Prelude.{◌≡◌, false, cond, ◌+◌, ◌*◌, ◌≤◌, eqb, length};
ghost use Rattle.text.specs.Match.{lower, any_tail, matches};
ghost use Rattle.text.specs.Steps.{plain, fitting, star_at};
ghost use Rattle.text.specs.Comparisons.{compared, tried, behind, comparisons, up_to64};

// A byte, an ASCII letter lowered.
#[tactic(auto, unfolding(crate::specs::Match::lower))]
pub fn lowered(b: u8) -> u8
    ensures { result ≡ lower b }
{
    match b {
        b'A'..=b'Z' => b + 32,
        _ => b,
    }
}

// A pattern byte other than `*` fits a text byte.
#[tactic(auto, unfolding(crate::specs::Steps::plain, crate::specs::Match::fits))]
fn fit(p: u8, t: u8) -> bool
    ensures { result ≡ plain p t }
{
    match p {
        b'*' => false,
        b'?' => true,
        _ => lowered(p) == lowered(t),
    }
}

// What a run found: how many pattern bytes fit, and how many comparisons of a pattern byte with a text byte it took.
#[derive(Clone, Copy)]
struct Run {
    fitting: usize,
    compared: u64,
}

// Whether the match is one, and how many comparisons it took, of which no more are counted than 64 bits hold.
#[derive(Clone, Copy)]
struct Counted {
    matched: bool,
    comparisons: u64,
}

// Compares pattern bytes with text bytes, one to one, up to the first `*` or the first that does not fit.
fn compare(pattern: &[u8], text: &[u8]) -> Run
    ensures fitting_value { result.fitting ≡ fitting pattern.now text.now }
    ensures compared_value { result.compared ≡ compared pattern.now text.now }
{
    let mut run = Run {
        fitting: 0,
        compared: 0,
    };
    for (p, t) in pattern.iter().zip(text) {
        run.compared += 1;
        if !fit(*p, *t) {
            return run;
        }
        run.fitting += 1;
    }
    run
}

// The sum of two counts, or the largest number of 64 bits where it is above that.
#[tactic(auto, unfolding(crate::specs::Comparisons::up_to64))]
fn count_sum(a: u64, b: u64) -> u64
    ensures { result ≡ up_to64 (a + b) }
{
    a.checked_add(b).unwrap_or(u64::MAX)
}

// A `*` stands at a place of the pattern.
fn star(pattern: &[u8], p: usize) -> bool
    ensures { result ≡ star_at pattern.now p }
{
    pattern.get(p) == Some(&b'*')
}

// The places p and t are the ends of a pattern and of a text.
fn ended(p: usize, pattern: usize, t: usize, text: usize) -> bool
    ensures { result ≡ cond (eqb p pattern) (eqb t text) false }
{
    p == pattern && t == text
}

// What follows a `*`: the pattern matches some tail of the text. The comparisons are counted on from `before`.
fn after_star(pattern: &[u8], text: &[u8], before: u64) -> Counted
    ensures matched_value { result.matched ≡ any_tail (matches pattern.now) text.now }
    ensures comparisons_value { result.comparisons ≡ up_to64 (before + tried pattern.now (behind pattern.now) text.now) }
{
    let mut back = 0;
    let mut mark = 0;
    let mut n = before;
    // a `loop`: each turn goes on behind the next star or one byte on in the text, so that no one list of places bounds the turns
    loop {
        let run = compare(&pattern[back..], &text[mark..]);
        n = count_sum(n, run.compared);
        let p = back + run.fitting;
        let t = mark + run.fitting;
        if star(pattern, p) {
            back = p + 1;
            mark = t;
        } else {
            if ended(p, pattern.len(), t, text.len()) {
                return Counted {
                    matched: true,
                    comparisons: n,
                };
            }
            if mark == text.len() {
                return Counted {
                    matched: false,
                    comparisons: n,
                };
            }
            mark += 1;
        }
    }
}

// The pattern matches the whole text, with the comparisons that this took.
fn counted_match(pattern: &[u8], text: &[u8]) -> Counted
    ensures matched_value { result.matched ≡ matches pattern.now text.now }
    ensures comparisons_value { result.comparisons ≡ up_to64 (comparisons pattern.now text.now) }
    ensures comparisons_in_bounds { result.comparisons ≤ length pattern.now * length text.now }
{
    let run = compare(pattern, text);
    let k = run.fitting;
    if star(pattern, k) {
        let p = k + 1;
        return after_star(&pattern[p..], &text[k..], run.compared);
    }
    Counted {
        matched: ended(k, pattern.len(), k, text.len()),
        comparisons: run.compared,
    }
}

// The pattern matches the whole text.
pub fn text_matches(pattern: &[u8], text: &[u8]) -> bool
    ensures { result ≡ matches pattern.now text.now }
{
    counted_match(pattern, text).matched
}
