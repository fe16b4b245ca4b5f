// The sessions against the store: whether what their states name is there (refusal 35).
//
// `links_sound` takes any sessions, any numbers and slices of any length, and changes nothing. It is true exactly where each open session of
// those in use has an upload of a partial file, within the bytes that the file has, a download, a directory and a selection of complete ones, and an
// unfinished packet that is unfinished. `Facts` in proofs/ has these facts one by one; what calls keep besides, and refusal 35 does not ask,
// stands in specs/Kept.antt.
#![tactic(auto)]

ghost use Rattle.std.specs.Prelude.{◌≡◌, ◌+◌, ◌*◌, ◌≤◌, length, take, drop};
ghost use Rattle.table.specs.Table.{files, numbers, find_of};
ghost use Rattle.table.specs.Fit.{Distinct};
ghost use Rattle.links.specs.Sound.{complete_at, uplink_sound, listed_sound, size_in, directory_sound, downlink_sound, named_sound, names_sound, selection_sound, packet_sound, link_sound, link_in, links_sound};

use session::state::{Downlink, Listed, Session, Uplink};

// The file at a place is complete.
fn complete_at(table: &[u32], place: usize) -> bool
    ensures { result ≡ complete_at (files table.now) place }
{
    let f = table::get(table, place);
    table::upload_time_of(f) != 0
}

// What an uplink state names is there.
fn uplink_sound(up: Uplink, table: &[u32]) -> bool
    ensures { result ≡ uplink_sound (files table.now) up }
{
    match up {
        Uplink::Idle => true,
        Uplink::Receiving {
            place,
            offset,
            received,
        } => {
            let f = table::get(table, place);
            if f.number == 0 {
                return false;
            }
            if f.time != 0 {
                return false;
            }
            offset as u64 + received as u64 <= f.received as u64
        }
        Uplink::Ignoring => true,
    }
}

// The one file of a directory is complete; the selected ones are looked at with the selection.
fn listed_sound(listed: Listed, table: &[u32]) -> bool
    ensures { result ≡ listed_sound (files table.now) listed }
{
    match listed {
        Listed::One(place) => complete_at(table, place),
        Listed::Selected(_) => true,
    }
}

// The announced length of the file that is found, 0 of none.
fn size_in(found: Option<usize>, table: &[u32]) -> u32
    ensures { result ≡ size_in (files table.now) found }
{
    match found {
        None => 0,
        Some(place) => table::get(table, place).size,
    }
}

// What a directory names is there, and it has come to a byte of one of its files, or past the last one.
fn directory_sound(
    listed: Listed,
    done: usize,
    sent: usize,
    next: usize,
    table: &[u32],
    selected: &[u32],
) -> bool
    ensures { result ≡ directory_sound (files table.now) selected.now next listed done sent }
{
    if listed_sound(listed, table) {
        if directory::count(listed, next, table, selected) < done {
            return false;
        }
        let found = directory::found_at(listed, next, done, table, selected);
        return sent <= size_in(found, table) as usize;
    }
    false
}

// What a downlink state names is there.
fn downlink_sound(down: Downlink, next: usize, table: &[u32], selected: &[u32]) -> bool
    ensures { result ≡ downlink_sound (files table.now) selected.now next down }
{
    match down {
        Downlink::Idle => true,
        Downlink::Sending {
            place,
            offset,
            sent,
        } => {
            let f = table::get(table, place);
            if table::upload_time_of(f) == 0 {
                return false;
            }
            offset as u64 + sent as u64 <= f.size as u64
        }
        Downlink::Ended { place } => complete_at(table, place),
        Downlink::Aborting { place } => complete_at(table, place),
        Downlink::Listing {
            listed,
            long: _,
            done,
            sent,
        } => directory_sound(listed, done, sent, next, table, selected),
    }
}

// A selected number is that of a complete file.
fn named_sound(table: &[u32], number: u32) -> bool
    ensures { result ≡ named_sound (files table.now) number }
{
    let found = table::find(table, number);
    match found {
        None => false,
        Some(place) => complete_at(table, place),
    }
}

// The first `count` of the selected numbers are those of complete files, each looked for in the whole table.
fn names_each(table: &[u32], selected: &[u32], count: usize) -> bool
    requires { count ≤ length selected.now }
    ensures { result ≡ names_sound (files table.now) (take count selected.now) }
{
    for number in &selected[..count] {
        if !named_sound(table, *number) {
            return false;
        }
    }
    true
}

// The place of the file with a number, looked for from a place on and only then from the first one. No two files have the same number.
fn place_of(table: &[u32], number: u32, from: usize) -> Option<usize>
    requires { Distinct (numbers (files table.now)) }
    ensures { result ≡ find_of (files table.now) number }
{
    if number == 0 {
        return None;
    }
    let n = table::places(table);
    for at in from..n {
        if table::get(table, at).number == number {
            return Some(at);
        }
    }
    table::find(table, number)
}

// The first `count` of the selected numbers are those of complete files: mostly they stand in the order of their places, so that each is
// looked for from the place of the one before it on.
fn names_in_order(table: &[u32], selected: &[u32], count: usize) -> bool
    requires { (count ≤ length selected.now) × Distinct (numbers (files table.now)) }
    ensures { result ≡ names_sound (files table.now) (take count selected.now) }
{
    let mut from = 0;
    for number in &selected[..count] {
        let found = place_of(table, *number, from);
        let Some(place) = found else {
            return false;
        };
        if !complete_at(table, place) {
            return false;
        }
        from = place;
    }
    true
}

// The first `count` of the selected numbers are those of complete files.
fn names_sound(table: &[u32], selected: &[u32], count: usize) -> bool
    requires { count ≤ length selected.now }
    ensures { result ≡ names_sound (files table.now) (take count selected.now) }
{
    if count == 0 {
        return true;
    }
    if table::distinct(table) {
        return names_in_order(table, selected, count);
    }
    names_each(table, selected, count)
}

// An unfinished packet: fewer bytes than its head announces.
fn packet_sound(held: usize, part: &[u8]) -> bool
    requires { length part.now ≡ 258 }
    ensures { result ≡ packet_sound held part.now }
{
    if held < 2 {
        return true;
    }
    let size = part[0] as usize + 256 * (part[1] as usize / 32);
    if 256 < size {
        return false;
    }
    held < 2 + size
}

// A selection: its size, the next file in it, and each number.
fn selection_sound(table: &[u32], most: usize, selected: &[u32], count: usize, next: usize) -> bool
    requires { length selected.now ≡ most }
    ensures { result ≡ selection_sound (files table.now) most selected.now count next }
{
    if most < count {
        return false;
    }
    if count < next {
        return false;
    }
    names_sound(table, selected, count)
}

// A session with its parts of the selections and of the unfinished packets.
fn link_sound(table: &[u32], most: usize, selected: &[u32], part: &[u8], s: Session) -> bool
    requires { (length selected.now ≡ most) × (length part.now ≡ 258) }
    ensures { result ≡ link_sound (files table.now) most selected.now part.now s }
{
    if s.linked {
        let up = s.up;
        let down = s.down;
        if uplink_sound(up, table) {
            if downlink_sound(down, s.next, table, selected) {
                if selection_sound(table, most, selected, s.count, s.next) {
                    return packet_sound(s.held, part);
                }
            }
        }
        return false;
    }
    true
}

// Session i, counted from 0; one beyond the number of sessions is not looked at.
fn link_at(
    table: &[u32],
    sessions: usize,
    most: usize,
    selected: &[u32],
    held: &[u8],
    s: Session,
    i: usize,
) -> bool
    requires { (i ≤ 3) × (sessions ≤ 4) × (most ≤ 50) × (sessions * most ≤ length selected.now) × (sessions * 258 ≤ length held.now) }
    ensures { result ≡ link_in (files table.now) sessions most selected.now held.now s i }
{
    if i < sessions {
        let a = i * most;
        let b = i * 258;
        return link_sound(table, most, &selected[a..a + most], &held[b..b + 258], s);
    }
    true
}

// The sessions name nothing that the store lacks. Lent slices that are too short are no sessions'.
pub fn links_sound(
    links: [Session; 4],
    sessions: usize,
    most: usize,
    table: &[u32],
    selected: &[u32],
    held: &[u8],
) -> bool
    ensures { result ≡ links_sound (files table.now) sessions most selected.now held.now links }
{
    if 4 < sessions {
        return false;
    }
    if 50 < most {
        return false;
    }
    if selected.len() < sessions * most {
        return false;
    }
    if held.len() < sessions * 258 {
        return false;
    }
    if link_at(table, sessions, most, selected, held, links[0], 0) {
        if link_at(table, sessions, most, selected, held, links[1], 1) {
            if link_at(table, sessions, most, selected, held, links[2], 2) {
                return link_at(table, sessions, most, selected, held, links[3], 3);
            }
        }
    }
    false
}
