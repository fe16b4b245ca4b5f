// The file table: which file stands at which place, and what numbers, upload times and blocks are given.
//
// The caller lends one slice of words, four a place: the file number (0: no file at this place), the announced length, the bytes received so
// far and the upload time (0 while the file is partial). `get` and `put` alone know how a record is stored; all else goes through them, so
// that a record can grow. A table has `table.len() / 4` places.
//
// Every public function takes any table and any numbers and asks nothing of its caller. A record past the last place reads as no file, and storing
// one there is refused by 33 and changes nothing. No function but `records_fit` and `distinct` checks the whole table: what the others find
// where two files share a number or a time is defined too (the lowest place), and the laws in proofs/ say what they find where none do.
#![tactic(auto)]

ghost use Rattle.std.specs.Prelude.{◌≡◌, true, cond, ◌+◌, ◌/◌, ◌≤◌, ◌<◌, length, get_or, take, drop, eqb, ltb};
ghost use Rattle.refusal.specs.Refusal.{number_of};
ghost use Rattle.table.specs.Table.{files, file_at, put_number, put_table, is_complete, is_partial, is_kind, uploaded, key_of, keys, times, count_of, first_with, find_of, free_of};
ghost use Rattle.table.specs.Given.{next_number, upload_time, blocks_for};
ghost use Rattle.table.specs.Order.{lesser, least_above, next_complete};
ghost use Rattle.table.specs.Fit.{file_fits, record_fits, records_fit, among, apart, distinct_of};

use refusal::Refusal;

// The record of a file place.
#[derive(Clone, Copy)]
pub struct File {
    pub number: u32,
    pub size: u32,
    pub received: u32,
    pub time: u32,
}

// ---- records

// The number of places.
pub fn places(table: &[u32]) -> usize
    ensures { result ≡ length (files table.now) }
{
    table.len() / 4
}

// The record at a place that the table has.
fn record_at(table: &[u32], place: usize) -> File
    requires { place < length table.now / 4 }
    ensures { result ≡ file_at (files table.now) place }
{
    let at = 4 * place;
    File {
        number: table[at],
        size: table[at + 1],
        received: table[at + 2],
        time: table[at + 3],
    }
}

// The record at a place, that of no file past the last place.
pub fn get(table: &[u32], place: usize) -> File
    ensures { result ≡ file_at (files table.now) place }
{
    if place < table.len() / 4 {
        return record_at(table, place);
    }
    File {
        number: 0,
        size: 0,
        received: 0,
        time: 0,
    }
}

// Stores a record at a place; refused by 33 past the last place, where nothing changes.
pub fn put(table: &mut [u32], place: usize, file: File) -> Result<(), Refusal>
    ensures value { number_of result ≡ put_number table.old place }
    ensures table_after { table.new ≡ put_table table.old place file }
{
    if table.len() / 4 <= place {
        return Err(Refusal::BadSize);
    }
    let at = 4 * place;
    table[at] = file.number;
    table[at + 1] = file.size;
    table[at + 2] = file.received;
    table[at + 3] = file.time;
    Ok(())
}

// The upload time of a complete file, 0 for any other record.
pub fn upload_time_of(file: File) -> u32
    ensures { result ≡ uploaded file }
{
    if file.number == 0 { 0 } else { file.time }
}

// ---- finding

// What a file is found by: its number or its upload time.
#[derive(Clone, Copy)]
pub enum Key {
    Number,
    Time,
}

fn key_of(file: File, key: Key) -> u32
    ensures { result ≡ key_of key file }
{
    match key {
        Key::Number => file.number,
        Key::Time => upload_time_of(file),
    }
}

// The lowest place with this number or time; 0 is the number of a place with no file.
fn first_with(table: &[u32], key: Key, value: u32) -> Option<usize>
    ensures { result ≡ first_with value (keys key (files table.now)) }
{
    for at in 0..places(table) {
        if key_of(get(table, at), key) == value {
            return Some(at);
        }
    }
    None
}

// The place of the file with this number: the lowest, where two have it.
pub fn find(table: &[u32], number: u32) -> Option<usize>
    ensures { result ≡ find_of (files table.now) number }
{
    if number == 0 {
        return None;
    }
    first_with(table, Key::Number, number)
}

// The lowest place with no file.
pub fn free_place(table: &[u32]) -> Option<usize>
    ensures { result ≡ free_of (files table.now) }
{
    first_with(table, Key::Number, 0)
}

// ---- counting

#[derive(Clone, Copy)]
enum Kind {
    Partial,
    Complete,
}

// Whether a record is that of a file of the kind.
fn is_kind(file: File, kind: Kind) -> bool
    ensures { result ≡ is_kind kind file }
{
    file.number != 0
        && match kind {
            Kind::Partial => file.time == 0,
            Kind::Complete => file.time != 0,
        }
}

fn count_kind(table: &[u32], kind: Kind) -> usize
    ensures { result ≡ count_of (is_kind kind) (files table.now) }
{
    let mut n: usize = 0;
    for at in 0..places(table) {
        if is_kind(get(table, at), kind) {
            n += 1;
        }
    }
    n
}

// The number of complete files.
pub fn complete_count(table: &[u32]) -> usize
    ensures { result ≡ count_of is_complete (files table.now) }
{
    count_kind(table, Kind::Complete)
}

// The number of partial files.
pub fn partial_count(table: &[u32]) -> usize
    ensures { result ≡ count_of is_partial (files table.now) }
{
    count_kind(table, Kind::Partial)
}

// ---- order of upload times

// The lesser of a time, where that is above `after`, and the least so far, which is 0 where there is none.
fn lesser_above(after: u32, time: u32, least: u32) -> u32
    ensures { result ≡ cond (ltb after time) (lesser time least) least }
{
    if time <= after {
        return least;
    }
    if least == 0 {
        return time;
    }
    least.min(time)
}

// The least upload time above `after`, 0 where there is none.
fn least_above(table: &[u32], after: u32) -> u32
    ensures { result ≡ least_above after (times (files table.now)) }
{
    let mut least: u32 = 0;
    for at in (0..places(table)).rev() {
        least = lesser_above(after, upload_time_of(get(table, at)), least);
    }
    least
}

// Of the complete files with an upload time above `after` the one with the least: from 0 on, the complete files oldest first.
pub fn next_complete(table: &[u32], after: u32) -> Option<usize>
    ensures { result ≡ next_complete (files table.now) after }
{
    let least = least_above(table, after);
    if least == 0 {
        return None;
    }
    first_with(table, Key::Time, least)
}

// ---- what is given

// The blocks that a file of this length takes.
pub fn blocks_for(size: u32) -> usize
    ensures { result ≡ blocks_for size }
{
    (size as usize + 255) / 256
}

// The file number after the last one given, none where all are used up.
pub fn next_number(last: u32) -> Option<u32>
    ensures { result ≡ next_number last }
{
    last.checked_add(1)
}

// The upload time after the last one given: the clock, where that is later than it; none where all are used up.
pub fn upload_time(clock: u32, last: u32) -> Option<u32>
    ensures { result ≡ upload_time clock last }
{
    let next = last.checked_add(1)?;
    Some(clock.max(next))
}

// ---- the facts of refusal 35

// The number of blocks of a place, by counts that have an entry for the free blocks first.
fn held_at(counts: &[usize], place: usize) -> usize
    requires { place < 4611686018427387904 }
    ensures { result ≡ get_or counts.now (place + 1) 0 }
{
    counts.get(place + 1).copied().unwrap_or(0)
}

#[tactic(auto, unfolding(crate::specs::Fit::file_fits))]
fn file_fits(file: File, last: u32, latest: u32, held: usize) -> bool
    ensures { result ≡ file_fits last latest held file }
{
    file.number <= last
        && file.received <= file.size
        && held == blocks_for(file.size)
        && file.time <= latest
        && (file.time == 0 || file.received == file.size)
}

#[tactic(auto, unfolding(crate::specs::Fit::record_fits))]
fn record_fits(file: File, last: u32, latest: u32, held: usize) -> bool
    ensures { result ≡ record_fits last latest held file }
{
    if file.number == 0 {
        return held == 0;
    }
    file_fits(file, last, latest, held)
}

// Whether each record agrees with the last file number given, the latest upload time given and the blocks that its place holds.
pub fn records_fit(table: &[u32], last: u32, latest: u32, counts: &[usize]) -> bool
    ensures { result ≡ records_fit last latest counts.now (files table.now) }
{
    for at in 0..places(table) {
        if !record_fits(get(table, at), last, latest, held_at(counts, at)) {
            return false;
        }
    }
    true
}

// The file number or the upload time at each of up to 256 places, in a row, so that one is quickly compared with all others.
fn keys_of(table: &[u32], key: Key) -> [u32; 256]
    requires { length (files table.now) ≤ 256 }
    ensures { (length result ≡ 256) × (take (length (files table.now)) result ≡ keys key (files table.now)) }
{
    let mut values = [0u32; 256];
    for at in 0..places(table) {
        values[at] = key_of(record_at(table, at), key);
    }
    values
}

// Whether the value at a place, if it is not 0, stands again further on. All are looked at, with no early end: a plain loop is the faster.
fn stands_later(values: &[u32], at: usize) -> bool
    requires { at < length values.now }
    ensures { result ≡ among (get_or values.now at 0) (drop (at + 1) values.now) }
{
    let value = values[at];
    if value == 0 {
        return false;
    }
    let mut found = false;
    for later in &values[at + 1..] {
        if *later == value {
            found = true;
        }
    }
    found
}

// The lesser of two values, where 0 is none: the value, unless it is 0. The value is below `low`.
fn lower(value: u32, low: u32) -> u32
    ensures { result ≡ cond (eqb value 0) low value }
{
    if value == 0 { low } else { value }
}

// Whether no value but 0 stands twice. From the last value down, one that is below all later ones is none of them; any other is looked for.
fn all_apart(values: &[u32]) -> bool
    ensures { result ≡ apart values.now }
{
    let mut low: u32 = 4294967295;
    for at in (0..values.len()).rev() {
        if values[at] < low {
            low = lower(values[at], low);
        } else if stands_later(values, at) {
            return false;
        }
    }
    true
}

// Whether the values that are not 0 rise with the places: then no two are the same. Files mostly stand in the order in which they came.
fn rise(table: &[u32], key: Key) -> bool
    ensures { result ≡ true → apart (keys key (files table.now)) ≡ true }
{
    let mut low: u32 = 4294967295;
    for at in (0..places(table)).rev() {
        let value = key_of(get(table, at), key);
        if low <= value {
            return false;
        }
        low = lower(value, low);
    }
    true
}

// Whether no two of at most 256 places have the same number, or the same time.
fn keys_apart(table: &[u32], key: Key) -> bool
    requires { length (files table.now) ≤ 256 }
    ensures { result ≡ apart (keys key (files table.now)) }
{
    if rise(table, key) {
        return true;
    }
    all_apart(&keys_of(table, key)[..places(table)])
}

// Whether no two of at most 256 places have the same file number, and no two complete files the same upload time.
#[tactic(auto, unfolding(crate::specs::Fit::distinct_of))]
pub fn distinct(table: &[u32]) -> bool
    ensures { result ≡ distinct_of (files table.now) }
{
    places(table) <= 256 && keys_apart(table, Key::Number) && keys_apart(table, Key::Time)
}
