// A directory on its way: the entries of the files that it names run on, one behind the other, and the next bytes of them are put where they are wanted.
// The cost is the bytes put and one walk over each header that they touch.
#![tactic(auto)]

ghost use Rattle.std.specs.Prelude.{◌≡◌, ◌+◌, ◌≤◌, ◌<◌};
ghost use Rattle.table.specs.Table.{files};
ghost use Rattle.entries.specs.Entry.{reads};
ghost use Rattle.listing.specs.Listing.{entry_in, entries_of, fill_of};
ghost use Rattle.listing.specs.Progress.{put_from, advanced, rested, filled_with};

use session::state::Listed;

// How many of a directory's files lie behind, how many bytes of the next one's entry, and how many bytes are collected.
#[derive(Clone, Copy)]
struct Progress {
    done: usize,
    sent: usize,
    size: usize,
}

// The next bytes of a directory, `size` of them with zeros behind, and how many of its files lie behind then, and bytes of the next one's entry.
#[derive(Clone, Copy)]
pub struct Filled {
    pub done: usize,
    pub sent: usize,
    pub size: usize,
    pub bytes: [u8; 256],
}

// The entry of the file that is found, from byte `skip` of it on, at the front of what is lent; the length of the whole entry.
fn read_found(
    found: Option<usize>,
    long: bool,
    skip: usize,
    disk: &[u8],
    owner: &[u16],
    table: &[u32],
    out: &mut [u8],
) -> usize
    ensures { reads result out.new
        ≡ put_from (entry_in long disk.now owner.now (files table.now) found) skip out.old }
{
    let Some(place) = found else {
        return 0;
    };
    if 256 <= place {
        return 0;
    }
    let f = table::get(table, place);
    entries::read_entry(
        long,
        disk,
        owner,
        place as u16,
        f.received as usize,
        skip,
        out,
    )
}

// The progress past an entry of `size` bytes, where `room` bytes more can be put, at least one.
fn advance(p: Progress, size: usize, room: usize) -> Progress
    requires { (p.done < 18446744073709551615) × (p.size + room ≤ 256) }
    ensures { result ≡ advanced p size room }
{
    if size <= p.sent {
        return Progress {
            done: p.done + 1,
            sent: p.sent - size,
            size: p.size,
        };
    }
    let left = size - p.sent;
    if room < left {
        return Progress {
            done: p.done,
            sent: p.sent + room,
            size: p.size + room,
        };
    }
    Progress {
        done: p.done + 1,
        sent: 0,
        size: p.size + left,
    }
}

// No byte of an entry is left past the last one.
fn at_end(p: Progress) -> Progress
    ensures { result ≡ rested p }
{
    Progress {
        done: p.done,
        sent: 0,
        size: p.size,
    }
}

fn collected(p: Progress, bytes: [u8; 256]) -> Filled
    ensures { result ≡ filled_with p bytes }
{
    Filled {
        done: p.done,
        sent: p.sent,
        size: p.size,
        bytes,
    }
}

// The next bytes of the entries, at most 256, where `done` files lie behind and `sent` bytes of the next one's entry. `next` is the session's place in
// its selection.
pub fn fill(
    listed: Listed,
    long: bool,
    next: usize,
    done: usize,
    sent: usize,
    disk: &[u8],
    owner: &[u16],
    table: &[u32],
    selected: &[u32],
) -> Filled
    ensures { result
        ≡ fill_of (entries_of listed long next disk.now owner.now (files table.now) selected.now) done sent }
{
    let n = directory::count(listed, next, table, selected);
    let mut bytes = [0u8; 256];
    let mut p = Progress {
        done,
        sent,
        size: 0,
    };
    // a `while`: each turn goes on behind the bytes that it collected, which end in the same entry or in the next
    while p.done < n {
        let at = p.size;
        if at < 256 {
            let found = directory::found_at(listed, next, p.done, table, selected);
            let size = read_found(found, long, p.sent, disk, owner, table, &mut bytes[at..]);
            p = advance(p, size, 256 - at);
        } else {
            return collected(p, bytes);
        }
    }
    collected(at_end(p), bytes)
}
