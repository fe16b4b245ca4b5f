// A byte machine by value that reads a header: it knows neither slices nor blocks, so that a file in one piece and a file in
// blocks that are no neighbours are read alike. Its counts wrap by their type.
ghost use Rattle.std.specs.Prelude.{◌≡◌, ◌+◌, ◌%◌, false, not, if◌then◌else◌};
ghost use Rattle.refusal.specs.Refusal.{number_of, numbered};
ghost use Rattle.header.specs.Header.{listed_length, length_fits, sum_of};
ghost use Rattle.header.specs.Scan.{after_length, next_phase, in_header, in_body, unmarked, one_more, bumped, passed_one, passed_in, body_in, ok_after, last_after, place_after, with_head, with_data, seen_in, start_of, step_of, scan_from, header_from, seen_refusal, item_refusal, scan_sum, value_refusal, scan_verdict, scan_header};

use refusal::Refusal;

// Where the next byte stands: the two bytes of the mark, an item's id, length and data, the body after the end mark; or the items
// are broken, or the file is not marked.
#[derive(Clone, Copy)]
pub enum Phase {
    First,
    Second,
    Low,
    High(u8),
    Length(u16),
    Inside(u16, u8),
    Body,
    Broken,
    Unmarked,
}

// Of the header's bytes so far: their number, the last four as a number, their sum.
#[derive(Clone, Copy)]
pub struct Passed {
    pub pos: usize,
    pub recent: u32,
    pub sum: u16,
}

// Where the data of an item begins, and its length. Not an `Option`: who reads `at` does so only where the header's checks have found the item,
// and an `Option` would want an answer for a case that cannot be.
#[derive(Clone, Copy)]
pub struct Place {
    pub found: bool,
    pub at: usize,
    pub size: u8,
}

// What the items so far say: whether lengths and order are right, the last id of 01 to 0b, how many of these, of upload_time and
// of destinations, the data of file_size, body_checksum, header_checksum and body_offset, and where the wanted item is.
#[derive(Clone, Copy)]
pub struct Seen {
    pub ok: bool,
    pub last: u16,
    pub low: usize,
    pub uploads: usize,
    pub destinations: usize,
    pub size: u32,
    pub bodysum: u32,
    pub headsum: u32,
    pub offset: u32,
    pub place: Place,
}

// A scan: the id of the wanted item, and what the bytes so far said.
#[derive(Clone, Copy)]
pub struct Scan {
    pub want: u16,
    pub phase: Phase,
    pub passed: Passed,
    pub body: u16,
    pub seen: Seen,
}

// What a header says whose items are not refused: its length and sum, how many destinations it has, and where the first item with the
// wanted id is.
#[derive(Clone, Copy)]
pub struct Header {
    pub size: usize,
    pub sum: u16,
    pub destinations: usize,
    pub place: Place,
}

fn one_more(n: usize) -> usize
    ensures { result ≡ one_more n }
{
    n.wrapping_add(1)
}

fn bump_if(n: usize, yes: bool) -> usize
    ensures { result ≡ bumped n yes }
{
    if yes { one_more(n) } else { n }
}

fn pass(p: Passed, b: u8) -> Passed
    ensures { result ≡ passed_one p b }
{
    Passed {
        pos: one_more(p.pos),
        recent: p.recent / 256 + b as u32 * 16777216,
        sum: ((p.sum as u32 + b as u32) % 65536) as u16,
    }
}

// After an item's length.
fn after_length(id: u16, n: u8) -> Phase
    ensures { result ≡ after_length id n }
{
    match (id, n) {
        (0, 0) => Phase::Body,
        (0, _) => Phase::Broken,
        (_, 0) => Phase::Low,
        _ => Phase::Inside(id, n),
    }
}

fn next_phase(phase: Phase, b: u8) -> Phase
    ensures { result ≡ next_phase phase b }
{
    match phase {
        Phase::First if b == 170 => Phase::Second,
        Phase::Second if b == 85 => Phase::Low,
        Phase::First | Phase::Second => Phase::Unmarked,
        Phase::Low => Phase::High(b),
        Phase::High(a) => Phase::Length(a as u16 + 256 * (b as u16)),
        Phase::Length(id) => after_length(id, b),
        Phase::Inside(_, 0..=1) => Phase::Low,
        Phase::Inside(id, left) => Phase::Inside(id, left - 1),
        Phase::Body | Phase::Broken | Phase::Unmarked => phase,
    }
}

fn in_header(phase: Phase) -> bool
    ensures { result ≡ in_header phase }
{
    matches!(
        phase,
        Phase::First
            | Phase::Second
            | Phase::Low
            | Phase::High(_)
            | Phase::Length(_)
            | Phase::Inside(..)
    )
}

fn in_body(phase: Phase) -> bool
    ensures { result ≡ in_body phase }
{
    matches!(phase, Phase::Body)
}

fn not_marked(phase: Phase) -> bool
    ensures { result ≡ unmarked phase }
{
    matches!(phase, Phase::First | Phase::Second | Phase::Unmarked)
}

fn pass_in(phase: Phase, p: Passed, b: u8) -> Passed
    ensures { result ≡ passed_in phase p b }
{
    if in_header(phase) { pass(p, b) } else { p }
}

fn body_in(phase: Phase, sum: u16, b: u8) -> u16
    ensures { result ≡ body_in phase sum b }
{
    if in_body(phase) {
        ((sum as u32 + b as u32) % 65536) as u16
    } else {
        sum
    }
}

// The length of a listed item; 0 for others.
#[tactic(auto, unfolding(crate::specs::Header::listed, crate::specs::Header::length_in))]
fn listed_length(id: u16) -> u8
    ensures { result ≡ listed_length id }
{
    match id {
        1 => 4,
        2 => 8,
        3 => 3,
        4 => 4,
        5 => 4,
        6 => 4,
        7 => 1,
        8 => 1,
        9 => 2,
        10 => 2,
        11 => 2,
        18 => 4,
        _ => 0,
    }
}

#[tactic(auto, unfolding(crate::specs::Header::length_fits))]
fn length_fits(id: u16, n: u8) -> bool
    ensures { result ≡ length_fits id n }
{
    let m = listed_length(id);
    m == 0 || n == m
}

// The lengths fit so far, and 01 to 0b rise ahead of all others.
fn ok_after(ok: bool, last: u16, id: u16, n: u8) -> bool
    ensures { result ≡ ok_after ok last id n }
{
    ok && length_fits(id, n) && (11 < id || last < id)
}

fn last_after(id: u16) -> u16
    ensures { result ≡ last_after id }
{
    id.min(11)
}

fn place_after(p: Place, want: u16, id: u16, n: u8, at: usize) -> Place
    ensures { result ≡ place_after p want id n at }
{
    if p.found || id != want {
        return p;
    }
    Place {
        found: true,
        at,
        size: n,
    }
}

// An item's id and length are known; its data begins at byte `at`.
#[tactic(auto, unfolding(crate::specs::Scan::with_head))]
fn with_head(s: Seen, want: u16, id: u16, n: u8, at: usize) -> Seen
    ensures { result ≡ with_head s want id n at }
{
    Seen {
        ok: ok_after(s.ok, s.last, id, n),
        last: last_after(id),
        low: bump_if(s.low, id <= 11),
        uploads: bump_if(s.uploads, id == 18),
        destinations: bump_if(s.destinations, id == 20),
        place: place_after(s.place, want, id, n, at),
        ..s
    }
}

fn either(yes: bool, a: u32, b: u32) -> u32
    ensures { result ≡ (if yes then a else b) }
{
    if yes { a } else { b }
}

// The last byte of an item's data has come.
#[tactic(auto, unfolding(crate::specs::Scan::with_data))]
fn with_data(s: Seen, id: u16, recent: u32) -> Seen
    ensures { result ≡ with_data s id recent }
{
    Seen {
        size: either(id == 4, recent, s.size),
        bodysum: either(id == 9, recent, s.bodysum),
        headsum: either(id == 10, recent, s.headsum),
        offset: either(id == 11, recent, s.offset),
        ..s
    }
}

fn see(phase: Phase, s: Seen, want: u16, p: Passed, b: u8) -> Seen
    ensures { result ≡ seen_in phase s want p b }
{
    match phase {
        Phase::Length(id) if id != 0 => with_head(s, want, id, b, p.pos),
        Phase::Inside(id, 0..=1) => with_data(s, id, p.recent),
        _ => s,
    }
}

#[tactic(auto, unfolding(crate::specs::Scan::step_of))]
fn step(s: Scan, b: u8) -> Scan
    ensures { result ≡ step_of s b }
{
    let passed = pass_in(s.phase, s.passed, b);
    Scan {
        phase: next_phase(s.phase, b),
        passed,
        body: body_in(s.phase, s.body, b),
        seen: see(s.phase, s.seen, s.want, passed, b),
        ..s
    }
}

// A scan before a file's first byte, which is to find the first item with an id.
pub fn start(want: u16) -> Scan
    ensures { result ≡ start_of want }
{
    Scan {
        want,
        phase: Phase::First,
        passed: Passed {
            pos: 0,
            recent: 0,
            sum: 0,
        },
        body: 0,
        seen: Seen {
            ok: true,
            last: 0,
            low: 0,
            uploads: 0,
            destinations: 0,
            size: 0,
            bodysum: 0,
            headsum: 0,
            offset: 0,
            place: Place {
                found: false,
                at: 0,
                size: 0,
            },
        },
    }
}

// No further byte changes what the header says.
pub fn ended(s: Scan) -> bool
    ensures { result ≡ not (in_header s.phase) }
{
    !in_header(s.phase)
}

// A sum of bytes with further bytes.
fn add_bytes(sum: u16, part: &[u8]) -> u16
    ensures { result ≡ (sum + sum_of part.now) % 65536 }
{
    let mut total = sum;
    for b in part {
        total = ((total as u32 + *b as u32) % 65536) as u16;
    }
    total
}

// The bytes after the header: the body's are summed, and others are passed over.
#[tactic(auto, using(crate::proofs::Machine::rest_body, crate::proofs::Machine::rest_other))]
fn feed_rest(s: Scan, part: &[u8]) -> Scan
    requires { in_header s.phase ≡ false }
    ensures { result ≡ scan_from s part.now }
{
    if in_body(s.phase) {
        return Scan {
            body: add_bytes(s.body, part),
            ..s
        };
    }
    s
}

// The scan after further bytes of the file.
pub fn feed(s: Scan, part: &[u8]) -> Scan
    ensures { result ≡ scan_from s part.now }
{
    let mut scan = s;
    for (i, b) in part.iter().enumerate() {
        if ended(scan) {
            return feed_rest(scan, &part[i..]);
        }
        scan = step(scan, *b);
    }
    scan
}

// The scan after further bytes of the file, of which only the header's are looked at.
pub fn feed_header(s: Scan, part: &[u8]) -> Scan
    ensures { result ≡ header_from s part.now }
{
    let mut scan = s;
    for b in part {
        if ended(scan) {
            return scan;
        }
        scan = step(scan, *b);
    }
    scan
}

// 14 or 6 by what the items said.
fn refuse_seen(s: Seen) -> Result<(), Refusal>
    ensures { number_of result ≡ seen_refusal s }
{
    if !s.ok || 1 < s.uploads {
        return Err(Refusal::BadHeader);
    }
    if s.low != 11 || s.uploads != 1 {
        return Err(Refusal::ItemMissing);
    }
    Ok(())
}

// 7, 14 or 6 for the header scanned.
#[tactic(auto, unfolding(crate::specs::Scan::item_refusal))]
fn refuse_items(s: Scan) -> Result<(), Refusal>
    ensures { number_of result ≡ item_refusal s }
{
    if not_marked(s.phase) {
        return Err(Refusal::NoHeader);
    }
    if in_body(s.phase) {
        return refuse_seen(s.seen);
    }
    Err(Refusal::BadHeader)
}

// The header's sum, less its own two bytes.
fn sum_of(p: Passed, s: Seen) -> u16
    ensures { result ≡ scan_sum p s }
{
    ((p.sum as u32 + 131072 - s.headsum / 65536 % 256 - s.headsum / 16777216) % 65536) as u16
}

// The same of a scan whose items are not refused.
pub fn header_sum(s: Scan) -> u16
    ensures { result ≡ scan_sum s.passed s.seen }
{
    sum_of(s.passed, s.seen)
}

// 14, 15 or 16 by the values, once the items are all there.
fn refuse_values(p: Passed, s: Seen, body: u16, announced: u32) -> Result<(), Refusal>
    ensures { number_of result ≡ value_refusal p s body announced }
{
    if (s.offset / 65536) as usize != p.pos {
        return Err(Refusal::BadHeader);
    }
    if s.size != announced {
        return Err(Refusal::BadHeader);
    }
    if sum_of(p, s) as u32 != s.headsum / 65536 {
        return Err(Refusal::HeaderSum);
    }
    if body as u32 != s.bodysum / 65536 {
        return Err(Refusal::BodySum);
    }
    Ok(())
}

// What DATA_END says to the scan of `got` bytes of a file announced as so many.
#[tactic(auto, using(refusal::proofs::Laws::not_done), unfolding(crate::specs::Scan::scan_verdict))]
pub fn verdict_of(s: Scan, got: usize, announced: u32) -> Result<(), Refusal>
    ensures { number_of result ≡ scan_verdict s got announced }
{
    if got < announced as usize {
        return Err(Refusal::BodySum);
    }
    refuse_items(s)?;
    refuse_values(s.passed, s.seen, s.body, announced)
}

// What the header scanned says.
#[tactic(auto, using(refusal::proofs::Laws::not_done), unfolding(crate::specs::Scan::scan_header))]
pub fn header_of(s: Scan) -> Result<Header, Refusal>
    ensures { numbered result ≡ scan_header s }
{
    refuse_items(s)?;
    let passed = s.passed;
    let seen = s.seen;
    Ok(Header {
        size: passed.pos,
        sum: sum_of(passed, seen),
        destinations: seen.destinations,
        place: seen.place,
    })
}
