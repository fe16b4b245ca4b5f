// Headers and equations on a file that lies in blocks. The file at a place lies in the blocks with owner value place + 1, in rising order, and
// its contents are the bytes received of what they hold. Each function promises what crates/header or crates/equation says of those contents,
// with no buffer of a file's size: a file is scanned block by block, and an equation meets the header's items one by one.
// No function asks anything of its caller: sizes outside the table are refused by 33.
#![tactic(auto)]

ghost use Rattle.std.specs.Prelude.{◌≡◌, ◌+◌, ◌*◌, ◌/◌, ◌≤◌, ◌<◌, length, get_or, take, drop};
ghost use Rattle.refusal.specs.Refusal.{number_of, numbered};
ghost use Rattle.numbers.specs.Numbers.{two};
ghost use Rattle.blocks.specs.Owners.{nth};
ghost use Rattle.blocks.specs.Contents.{stored};
ghost use Rattle.blocks.specs.Answers.{disk_fits, write_disk};
ghost use Rattle.header.specs.Items.{head_of, walk, fields_of};
ghost use Rattle.header.specs.Header.{check_items, header_sum, header_of};
ghost use Rattle.header.specs.Fields.{server_set, with_fields, fields_set};
ghost use Rattle.header.specs.Scan.{start_of, scan_from, header_from};
ghost use Rattle.equation.specs.Marks.{settled, settled_by};
ghost use Rattle.equation.specs.Parsed.{relations_by};
ghost use Rattle.stored.specs.Answers.{file_at, check_at, header_at, truth_by, set_number, set_disk};
ghost use Rattle.stored.specs.Settable.{Settable};
ghost use Rattle.stored.specs.Settled.{settle_number, settled_at};
ghost use Rattle.stored.specs.Cursor.{Lies, Stands};

use equation::evaluation::{outcome, settle};
use header::fields::FieldRow;
use header::items::Head;
use header::scan::{Header, Scan};
use header::{fields, scan};
use refusal::Refusal;

// Whether the sizes are in the table, the disk has the blocks, and the file place is one.
fn sizes_fit(size: usize, n: usize, place: u16) -> bool
    ensures { result ≡ disk_fits size n place }
{
    1 <= n && n <= 4096 && 256 * n <= size && place < 256
}

// ---- scanning

// The scan of a file, block by block.
fn scan_file(disk: &[u8], owner: &[u16], place: u16, received: usize, want: u16) -> Scan
    requires { (length owner.now ≤ 4096) × (256 * length owner.now ≤ length disk.now) × (place < 256) }
    ensures { result ≡ scan_from (start_of want) (file_at disk.now owner.now place received) }
{
    let mut s = scan::start(want);
    let mut left = received;
    let mut b = blocks::next_block(owner, place, 0);
    // a `while`: each turn goes on at the file's next block, which is searched for among the owners
    while b < owner.len() {
        let n = left.min(256);
        let from = 256 * b;
        let to = from + n;
        s = scan::feed(s, &disk[from..to]);
        left -= n;
        b = blocks::next_block(owner, place, b + 1);
    }
    s
}

// The scan of a file's header; no block past its end is looked at.
fn scan_header(disk: &[u8], owner: &[u16], place: u16, received: usize, want: u16) -> Scan
    requires { (length owner.now ≤ 4096) × (256 * length owner.now ≤ length disk.now) × (place < 256) }
    ensures { result ≡ header_from (start_of want) (file_at disk.now owner.now place received) }
{
    let mut s = scan::start(want);
    let mut left = received;
    let mut b = blocks::next_block(owner, place, 0);
    // a `while`: each turn goes on at the file's next block, which is searched for among the owners
    while b < owner.len() {
        if scan::ended(s) {
            return s;
        }
        let n = left.min(256);
        let from = 256 * b;
        let to = from + n;
        s = scan::feed_header(s, &disk[from..to]);
        left -= n;
        b = blocks::next_block(owner, place, b + 1);
    }
    s
}

// The checks of DATA_END on the file at a place, announced as so many bytes. One pass.
#[tactic(auto, unfolding(crate::specs::Answers::check_at))]
pub fn check(
    disk: &[u8],
    owner: &[u16],
    place: u16,
    received: usize,
    announced: u32,
) -> Result<(), Refusal>
    ensures { number_of result ≡ check_at disk.now owner.now place received announced }
{
    if !sizes_fit(disk.len(), owner.len(), place) {
        return Err(Refusal::BadSize);
    }
    let n = received.min(256 * blocks::block_count(owner, place));
    let s = scan_file(disk, owner, place, n, 18);
    scan::verdict_of(s, n, announced)
}

// What the header of a file says, of sizes that fit.
fn header_at(
    disk: &[u8],
    owner: &[u16],
    place: u16,
    received: usize,
    want: u16,
) -> Result<Header, Refusal>
    requires { (length owner.now ≤ 4096) × (256 * length owner.now ≤ length disk.now) × (place < 256) }
    ensures { numbered result ≡ header_of want (file_at disk.now owner.now place received) }
{
    scan::header_of(scan_header(disk, owner, place, received, want))
}

// What the header of the file at a place says, with the place of the first item with an id. Only the header's bytes are looked at.
#[tactic(auto, using(blocks::proofs::Answers::disk_fits_law), unfolding(crate::specs::Answers::header_at))]
pub fn read_header(
    disk: &[u8],
    owner: &[u16],
    place: u16,
    received: usize,
    want: u16,
) -> Result<Header, Refusal>
    ensures { numbered result ≡ header_at disk.now owner.now place received want }
{
    if !sizes_fit(disk.len(), owner.len(), place) {
        return Err(Refusal::BadSize);
    }
    header_at(disk, owner, place, received, want)
}

// The sum of the header of a file whose items are not refused.
fn sum_at(disk: &[u8], owner: &[u16], place: u16, received: usize) -> u16
    requires { (length owner.now ≤ 4096) × (256 * length owner.now ≤ length disk.now) × (place < 256) × (check_items (file_at disk.now owner.now place received) ≡ 0) }
    ensures { result ≡ header_sum (file_at disk.now owner.now place received) }
{
    scan::header_sum(scan_header(disk, owner, place, received, 10))
}

// ---- setting the server's fields

// Writes a row of the fields at its place in a file, across the border of two blocks too. Where its blocks lack the bytes nothing is written,
// and the contract says so; so the refusal says nothing more, here and at the sum.
fn write_row(disk: &mut [u8], owner: &[u16], place: u16, row: FieldRow)
    requires { row.size ≤ length row.bytes }
    ensures { disk.new ≡ write_disk disk.old owner.now place row.at (take row.size row.bytes) }
{
    // where the place has no such bytes, nothing is written
    let _ = blocks::write(disk, owner, place, row.at, &row.bytes[..row.size]);
}

// Writes a 16-bit number.
fn write_sum(disk: &mut [u8], owner: &[u16], place: u16, at: usize, n: u16)
    ensures { disk.new ≡ write_disk disk.old owner.now place at (two n) }
{
    // where the place has no such bytes, nothing is written
    let _ = blocks::write(disk, owner, place, at, &n.to_le_bytes());
}

// Writes the rows of the fields, one by one, in a file whose items are not refused and whose upload_time is at byte `at`.
fn write_rows(
    disk: &mut [u8],
    owner: &[u16],
    place: u16,
    received: usize,
    at: usize,
    number: u32,
    time: u32,
)
    requires { Settable disk.old owner.now place received at }
    ensures { disk.new ≡ stored (place + 1) owner.now disk.old 0 (with_fields (server_set number time) (file_at disk.old owner.now place received)) }
{
    for k in 0..fields::ROWS {
        write_row(disk, owner, place, fields::row_at(k, number, time, at));
    }
}

// Sets the fields of such a file: the rows, and then header_checksum, whose place is fixed.
fn write_fields(
    disk: &mut [u8],
    owner: &[u16],
    place: u16,
    received: usize,
    at: usize,
    number: u32,
    time: u32,
)
    requires { Settable disk.old owner.now place received at }
    ensures { disk.new ≡ stored (place + 1) owner.now disk.old 0 (fields_set number time (file_at disk.old owner.now place received)) }
{
    write_rows(disk, owner, place, received, at, number, time);
    let sum = sum_at(disk, owner, place, received);
    write_sum(disk, owner, place, 63, sum);
}

// Sets file_number, file_name, last_modified_time, upload_time and header_checksum of the file at a place; or a refusal, and nothing written.
#[tactic(auto, using(blocks::proofs::Answers::disk_fits_law, crate::proofs::Setting::refused_sizes, crate::proofs::Setting::refused_length))]
pub fn set_fields(
    disk: &mut [u8],
    owner: &[u16],
    place: u16,
    received: usize,
    number: u32,
    time: u32,
) -> Result<(), Refusal>
    ensures value { number_of result ≡ set_number disk.old owner.now place received }
    ensures disk_after { disk.new ≡ set_disk disk.old owner.now place received number time }
{
    if !sizes_fit(disk.len(), owner.len(), place) {
        return Err(Refusal::BadSize);
    }
    if 256 * blocks::block_count(owner, place) < received {
        return Err(Refusal::Unsound);
    }
    let header = header_at(disk, owner, place, received, 18)?;
    write_fields(disk, owner, place, received, header.place.at, number, time);
    Ok(())
}

// ---- the items of a header, one by one, through a cursor over the file's blocks

// Where a file is read: one of its blocks, by its index in the file and by its number.
#[derive(Clone, Copy)]
struct Cursor {
    index: usize,
    block: usize,
}

// The cursor at the block of byte `at`, from a block at or before it. The owners are searched from the cursor's block on, and a header's items
// stand in order; so the work is linear, with no row of the file's blocks.
fn moved(owner: &[u16], place: u16, cursor: Cursor, at: usize) -> Cursor
    requires { (length owner.now ≤ 4096) × Stands owner.now place cursor.index cursor.block at }
    ensures { (result.index ≡ at / 256) × (result.block ≡ nth (place + 1) owner.now (at / 256)) }
{
    let index = at / 256;
    let mut block = cursor.block;
    for _passed in cursor.index..index {
        block = blocks::next_block(owner, place, block + 1);
    }
    Cursor { index, block }
}

// Byte `at` of the file of n bytes.
fn byte_at(disk: &[u8], owner: &[u16], place: u16, n: usize, cursor: Cursor, at: usize) -> u8
    requires { Lies disk.now owner.now place n × Stands owner.now place cursor.index cursor.block at × (at < n) }
    ensures { result ≡ get_or (file_at disk.now owner.now place n) at 0 }
{
    let block = moved(owner, place, cursor, at).block;
    disk[256 * block + at % 256]
}

// The head of the item at byte `at`.
fn head_at(disk: &[u8], owner: &[u16], place: u16, n: usize, cursor: Cursor, at: usize) -> Head
    requires { Lies disk.now owner.now place n × Stands owner.now place cursor.index cursor.block at }
    ensures { result ≡ head_of (drop at (file_at disk.now owner.now place n)) }
{
    if n < 3 {
        return Head::Broken;
    }
    if n - 3 < at {
        return Head::Broken;
    }
    let low = byte_at(disk, owner, place, n, cursor, at);
    let high = byte_at(disk, owner, place, n, cursor, at + 1);
    let id = numbers::number16(low, high);
    let size = byte_at(disk, owner, place, n, cursor, at + 2) as usize;
    if id == 0 {
        if size == 0 {
            return Head::End;
        }
        return Head::Broken;
    }
    if n - 3 - at < size {
        return Head::Broken;
    }
    Head::Item(id, size)
}

// Copies the file's bytes from byte `at` on.
fn fetch(
    disk: &[u8],
    owner: &[u16],
    place: u16,
    n: usize,
    cursor: Cursor,
    at: usize,
    out: &mut [u8],
)
    requires { Lies disk.now owner.now place n × Stands owner.now place cursor.index cursor.block at × (at + length out.old ≤ n) }
    ensures { out.new ≡ take (length out.old) (drop at (file_at disk.now owner.now place n)) }
{
    let mut here = cursor;
    for (i, b) in out.iter_mut().enumerate() {
        here = moved(owner, place, here, at + i);
        *b = byte_at(disk, owner, place, n, here, at + i);
    }
}

// Copies an item's bytes, from byte `at` on, and settles the equation's relations by them.
fn settle_window(
    eq: &[u8],
    steps: &[u16],
    disk: &[u8],
    owner: &[u16],
    place: u16,
    n: usize,
    cursor: Cursor,
    id: u16,
    at: usize,
    item: &mut [u8],
    truths: &mut [u8],
)
    requires { Lies disk.now owner.now place n × Stands owner.now place cursor.index cursor.block at × (at + length item.old ≤ n) }
    ensures { truths.new ≡ settled (record { id = id; bytes = take (length item.old) (drop at (file_at disk.now owner.now place n)) }) (relations_by eq.now steps.now) truths.old }
{
    fetch(disk, owner, place, n, cursor, at, item);
    settle(eq, steps, id, item, truths);
}

// Settles the equation's relations by one item, of `size` bytes from byte `at` on.
fn settle_item(
    eq: &[u8],
    steps: &[u16],
    disk: &[u8],
    owner: &[u16],
    place: u16,
    n: usize,
    cursor: Cursor,
    id: u16,
    at: usize,
    size: usize,
    truths: &mut [u8],
)
    requires { Lies disk.now owner.now place n × Stands owner.now place cursor.index cursor.block at × (at + size ≤ n) × (size < 256) }
    ensures { truths.new ≡ settled (record { id = id; bytes = take size (drop at (file_at disk.now owner.now place n)) }) (relations_by eq.now steps.now) truths.old }
{
    let mut item = [0u8; 256];
    settle_window(
        eq,
        steps,
        disk,
        owner,
        place,
        n,
        cursor,
        id,
        at,
        &mut item[0..size],
        truths,
    );
}

// Settles the equation's relations by the items from byte 2 on, with a cursor that moves from item to item.
fn settle_items(
    eq: &[u8],
    steps: &[u16],
    disk: &[u8],
    owner: &[u16],
    place: u16,
    n: usize,
    cursor: Cursor,
    truths: &mut [u8],
)
    requires { Lies disk.now owner.now place n × Stands owner.now place cursor.index cursor.block 0 }
    ensures { truths.new ≡ settled_by (walk 0 (drop 2 (file_at disk.now owner.now place n))).items (relations_by eq.now steps.now) truths.old }
{
    let mut here = cursor;
    let mut at: usize = 0;
    // a `loop`: each turn goes on behind the item that it read, and a `for` would need a bound that the items do not have
    loop {
        let h = head_at(disk, owner, place, n, here, 2 + at);
        match h {
            Head::Broken => return,
            Head::End => return,
            Head::Item(id, size) => {
                settle_item(
                    eq,
                    steps,
                    disk,
                    owner,
                    place,
                    n,
                    here,
                    id,
                    2 + at + 3,
                    size,
                    truths,
                );
                at = at + 3 + size;
                here = moved(owner, place, here, 2 + at);
            }
        }
    }
}

// Settles the equation's relations by the items of a file of n bytes; one that does not begin AA 55 has none.
fn settle_header(
    eq: &[u8],
    steps: &[u16],
    disk: &[u8],
    owner: &[u16],
    place: u16,
    n: usize,
    cursor: Cursor,
    truths: &mut [u8],
)
    requires { Lies disk.now owner.now place n × Stands owner.now place cursor.index cursor.block 0 }
    ensures { truths.new ≡ settled_by (fields_of (file_at disk.now owner.now place n)) (relations_by eq.now steps.now) truths.old }
{
    if n < 2 {
        return;
    }
    if byte_at(disk, owner, place, n, cursor, 0) == 170 {
        if byte_at(disk, owner, place, n, cursor, 1) == 85 {
            settle_items(eq, steps, disk, owner, place, n, cursor, truths);
        }
    }
}

// Settles the equation's relations by the items of the file at a place.
fn settle_file(
    eq: &[u8],
    steps: &[u16],
    disk: &[u8],
    owner: &[u16],
    place: u16,
    received: usize,
    truths: &mut [u8],
)
    requires { (length owner.now ≤ 4096) × (256 * length owner.now ≤ length disk.now) × (place < 256) }
    ensures { truths.new ≡ settled_by (fields_of (file_at disk.now owner.now place received)) (relations_by eq.now steps.now) truths.old }
{
    let n = received.min(256 * blocks::block_count(owner, place));
    let first = Cursor {
        index: 0,
        block: blocks::next_block(owner, place, 0),
    };
    settle_header(eq, steps, disk, owner, place, n, first, truths);
}

// ---- equations

// The truth of an equation, which is handed on as it was parsed, on the header of the file at a place, which is read once.
pub fn truth(
    eq: &[u8],
    steps: &[u16],
    disk: &[u8],
    owner: &[u16],
    place: u16,
    received: usize,
) -> Result<bool, Refusal>
    ensures { numbered result ≡ truth_by eq.now steps.now disk.now owner.now place received }
{
    if 256 < eq.len() {
        return Err(Refusal::BadSize);
    }
    if sizes_fit(disk.len(), owner.len(), place) {
        let mut truths = [0u8; 64];
        settle_file(eq, steps, disk, owner, place, received, &mut truths);
        return outcome(steps, &truths);
    }
    Err(Refusal::BadSize)
}

// Settles the marks of the equation's relations by the header of the file at a place, which is read once. Where the sizes are outside the
// table the marks stay.
#[tactic(auto, using(blocks::proofs::Answers::disk_fits_law), unfolding(crate::specs::Settled::settle_number, crate::specs::Settled::settled_at))]
pub fn settle_at(
    eq: &[u8],
    steps: &[u16],
    disk: &[u8],
    owner: &[u16],
    place: u16,
    received: usize,
    truths: &mut [u8],
) -> Result<(), Refusal>
    ensures value { number_of result ≡ settle_number disk.now owner.now place }
    ensures truths_after { truths.new ≡ settled_at eq.now steps.now disk.now owner.now place received truths.old }
{
    if !sizes_fit(disk.len(), owner.len(), place) {
        return Err(Refusal::BadSize);
    }
    settle_file(eq, steps, disk, owner, place, received, truths);
    Ok(())
}
