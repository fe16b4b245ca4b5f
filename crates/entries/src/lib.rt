// Directory entries of files that lie in blocks: a file's whole header, or its short form. An entry is read from any byte of it on, with one walk over
// the header's items and no buffer of a header's size. The layer promises that what it puts are the bytes of the stored header, or of the part of them that
// the short form names, that nothing else of what is lent changes, and the entry's length. No function asks anything of its caller: sizes outside the table,
// and a file whose items DATA_END refuses, have an empty entry.
#![tactic(auto)]

ghost use Rattle.std.specs.Prelude.{◌≡◌, ◌-◌, ◌≤◌, length, drop};
ghost use Rattle.entries.specs.Entry.{put_front, reads, read_of};
ghost use Rattle.entries.specs.Reading.{least_of, read_front, short_read};

use stored::read_header;

// Copies bytes to the front of what is lent, as many as it has room for.
fn put_front(bytes: &[u8], out: &mut [u8])
    ensures { out.new ≡ put_front bytes.now out.old }
{
    let n = bytes.len().min(out.len());
    // not refused: as many bytes as both have
    let _ = numbers::store(out, 0, &bytes[..n]);
}

// Copies the bytes of a place from byte `skip` up to byte `size`, as many as there is room for.
fn read_long(disk: &[u8], owner: &[u16], place: u16, size: usize, skip: usize, out: &mut [u8])
    ensures { out.new
        ≡ read_front disk.now owner.now place skip (least_of (size - skip) (length out.old)) out.old }
{
    let n = size.saturating_sub(skip).min(out.len());
    // where the place has no such bytes, what is lent stays as it is
    let _ = blocks::read(disk, owner, place, skip, &mut out[..n]);
}

// The short form: the first 70 bytes of a place, the 7 from byte `at` on, and the end mark.
fn short_form(disk: &[u8], owner: &[u16], place: u16, at: usize) -> [u8; 80]
    ensures { result ≡ short_read disk.now owner.now place at }
{
    let mut entry = [0u8; 80];
    // where the place has no such bytes, what is lent stays as it is
    let _ = blocks::read(disk, owner, place, 0, &mut entry[..70]);
    let _ = blocks::read(disk, owner, place, at, &mut entry[70..77]);
    entry
}

// Copies the short form from byte `skip` on, as many bytes as there is room for.
fn read_short(disk: &[u8], owner: &[u16], place: u16, at: usize, skip: usize, out: &mut [u8])
    ensures { out.new ≡ put_front (drop skip (short_read disk.now owner.now place at)) out.old }
{
    let entry = short_form(disk, owner, place, at);
    if skip < 80 {
        put_front(&entry[skip..], out);
    }
}

// Copies the entry of the file at a place, of which so many bytes are received, from byte `skip` of the entry on, to the front of what is lent, as far as
// both go. The answer is the length of the whole entry.
pub fn read_entry(
    long: bool,
    disk: &[u8],
    owner: &[u16],
    place: u16,
    received: usize,
    skip: usize,
    out: &mut [u8],
) -> usize
    ensures { reads result out.new ≡ read_of long disk.now owner.now place received skip out.old }
{
    let Ok(header) = read_header(disk, owner, place, received, 18) else {
        return 0;
    };
    if long {
        let size = header.size;
        read_long(disk, owner, place, size, skip, out);
        return size;
    }
    let at = header.place.at.saturating_sub(3);
    read_short(disk, owner, place, at, skip, out);
    80
}
