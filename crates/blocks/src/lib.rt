// The block store: 1 to 4,096 blocks of 256 bytes that files reserve, fill, read and give back.
//
// The caller lends three slices. `map` has one bit a block, 64 blocks a 64-bit word, lowest bit first, 1 for a free block. `owner` has one
// entry a block: 0 for a free block, else the file place plus 1; its length is the number of blocks. `disk` has 256 bytes a block. A file's
// blocks are all blocks with its owner value in rising order, so there are no chains, and a block is free or one file's by construction.
//
// Every function takes any slices and asks nothing of its caller. A size outside the table is refused by 33, too few free blocks by 13,
// bytes past the place's blocks by 35, each by a cheap test of its own; a refusal changes nothing. No function checks the whole store but
// `agrees`: what the others do where the map and the owners disagree is defined too, and the laws in proofs/ say what they do where they agree.
// A call's cost is linear in the blocks and in the bytes that it moves: no block is searched for anew from the first one.
#![tactic(auto)]

ghost use Rattle.std.specs.Prelude.{◌≡◌, cond, List, ℕ, ◌+◌, ◌-◌, ◌*◌, ◌/◌, ◌%◌, ◌^◌, ◌≤◌, ◌<◌, length, get_or, set, take, drop, replicate, eqb, position};
ghost use Rattle.std.proofs.lemmas.List.Edits.{sets};
ghost use Rattle.refusal.specs.Refusal.{number_of};
ghost use Rattle.blocks.specs.FreeMap.{free_count, lowest, cleared, marked, reserved_map};
ghost use Rattle.blocks.specs.Owners.{is_free, blocks, held_count, counts_of, next_of, nth, reserved_owner, released_owner, released_map, word_of, map_of};
ghost use Rattle.blocks.specs.Contents.{held, stored};
ghost use Rattle.blocks.specs.Check.{within, map_is, agrees_test};
ghost use Rattle.blocks.specs.Answers.{make_number, make_owner, make_map, store_fits, reserve_number, reserve_map, reserve_owner, release_number, release_map, release_owner, disk_fits, window_number, write_disk, read_out};

use refusal::Refusal;

// ---- counting

// The one bits of a map of at most 64 words.
fn count_bits(map: &[u64]) -> usize
    requires { length map.now ≤ 64 }
    ensures { result ≡ free_count map.now }
{
    let mut n: usize = 0;
    for w in map {
        n += w.count_ones() as usize;
    }
    n
}

// The number of free blocks: the one bits of the map. A map has at most 64 words; words past them are no part of it.
pub fn free_count(map: &[u64]) -> usize
    ensures { result ≡ free_count (take 64 map.now) }
{
    count_bits(&map[..map.len().min(64)])
}

// The end of the part of at most `size` blocks from block `from` on.
fn part_end(n: usize, from: usize, size: usize) -> usize
    requires { (from < n) × (n ≤ 9223372036854775807) × (0 < size) × (size ≤ 4096) }
    ensures { (from < result) × (result ≤ n) × (result ≤ from + size) × (result < from + size → result ≡ n) }
{
    n.min(from + size)
}

// The number of blocks with owner v, of few: in 16 bits, so that the compiler counts eight at a time.
fn count_few(owner: &[u16], v: u16) -> u16
    requires { length owner.now ≤ 4096 }
    ensures { result ≡ blocks v owner.now }
{
    let mut n: u16 = 0;
    for o in owner {
        if *o == v {
            n += 1;
        }
    }
    n
}

// The number of blocks with owner v.
fn count_of(owner: &[u16], v: u16) -> usize
    ensures { result ≡ blocks v owner.now }
{
    let mut n: usize = 0;
    for part in owner.chunks(4096) {
        n += count_few(part, v) as usize;
    }
    n
}

// The number of blocks that some file holds.
pub fn held_count(owner: &[u16]) -> usize
    ensures { result ≡ held_count owner.now }
{
    owner.len() - count_of(owner, 0)
}

// The number of blocks of a file place. The largest u16 is no place that an owner can name.
pub fn block_count(owner: &[u16], place: u16) -> usize
    ensures { result ≡ blocks (place + 1) owner.now }
{
    if place == 65535 {
        return 0;
    }
    count_of(owner, place + 1)
}

// Adds a run of blocks to the count of their owner; an owner past the last place has none.
fn add_run(n: &mut [usize; 257], v: u16, run: usize)
    requires { (length n.old ≡ 257) × (get_or n.old v 0 + run ≤ 9223372036854775807) }
    ensures { n.new ≡ set n.old v (get_or n.old v 0 + run) }
{
    let at = v as usize;
    if at < 257 {
        n[at] += run;
    }
}

// How many blocks from the first one on are of owner v.
fn run_of(owner: &[u16], v: u16) -> usize
    ensures { (result ≤ length owner.now) × ((k : ℕ) → k < result → get_or owner.now k 0 ≡ v) }
{
    owner.iter().position(|o| *o != v).unwrap_or(owner.len())
}

// The first block from block `from` on and before block `end` that is not of owner v, or `end`.
fn scan_other(owner: &[u16], v: u16, from: usize, end: usize) -> usize
    requires { (from ≤ end) × (end ≤ length owner.now) }
    ensures { (from ≤ result) × (result ≤ end)
        × ((u : ℕ) → blocks u (drop from owner.now) ≡ cond (eqb v u) (result - from) 0 + blocks u (drop result owner.now)) }
{
    from + run_of(&owner[from..end], v)
}

// From block `from` on, past each 64 blocks that are all of owner v.
fn pass_whole(owner: &[u16], v: u16, from: usize) -> usize
    requires { from ≤ length owner.now }
    ensures { (from ≤ result) × (result ≤ length owner.now)
        × ((u : ℕ) → blocks u (drop from owner.now) ≡ cond (eqb v u) (result - from) 0 + blocks u (drop result owner.now)) }
{
    let mut b = from;
    for part in owner[from..].chunks_exact(64) {
        if count_few(part, v) != 64 {
            return b;
        }
        b += 64;
    }
    b
}

// The end of the run of blocks with one owner from block `from` on. Most end soon; what is longer is passed over by 64 blocks.
fn run_end(owner: &[u16], from: usize) -> usize
    requires { from < length owner.now }
    ensures { (from < result) × (result ≤ length owner.now)
        × ((u : ℕ) → blocks u (drop from owner.now) ≡ cond (eqb (get_or owner.now from 0) u) (result - from) 0 + blocks u (drop result owner.now)) }
{
    let v = owner[from];
    let soon = part_end(owner.len(), from, 32);
    let b = scan_other(owner, v, from + 1, soon);
    if b < soon {
        return b;
    }
    scan_other(owner, v, pass_whole(owner, v, b), owner.len())
}

// The number of free blocks at 0, and of the blocks of each file place p at p + 1, in one pass. Blocks of one owner mostly stand together:
// each run of them is added at once.
pub fn counts(owner: &[u16]) -> [usize; 257]
    ensures { result ≡ counts_of owner.now }
{
    let mut n = [0usize; 257];
    let mut i = 0;
    // a `while`: each turn goes on where a run ended, and `chunk_by` would look at each block, where `run_end` passes 64 at once
    while i < owner.len() {
        let end = run_end(owner, i);
        add_run(&mut n, owner[i], end - i);
        i = end;
    }
    n
}

// ---- finding a place's blocks

// From block `from` on, past each 64 blocks that are none of owner v's.
fn pass_parts(owner: &[u16], v: u16, from: usize) -> usize
    requires { from ≤ length owner.now }
    ensures { (result ≤ length owner.now) × (next_of v owner.now from ≡ next_of v owner.now result) }
{
    let mut b = from;
    for part in owner[from..].chunks_exact(64) {
        if count_few(part, v) != 0 {
            return b;
        }
        b += 64;
    }
    b
}

// The lowest block with owner v, if there is one.
fn first_of(owner: &[u16], v: u16) -> Option<usize>
    ensures { result ≡ position (λ o. eqb o v) owner.now }
{
    owner.iter().position(|o| *o == v)
}

// The lowest block from block `from` on with owner v, or the number of blocks. Mostly it is block `from` itself.
fn next_of(owner: &[u16], v: u16, from: usize) -> usize
    ensures { result ≡ next_of v owner.now from }
{
    if owner.len() <= from {
        return owner.len();
    }
    if owner[from] == v {
        return from;
    }
    let left = pass_parts(owner, v, from);
    match first_of(&owner[left..], v) {
        Some(b) => left + b,
        None => owner.len(),
    }
}

// The lowest block from block `from` on that the file place has, or the number of blocks where there is none.
pub fn next_block(owner: &[u16], place: u16, from: usize) -> usize
    ensures { result ≡ next_of (place + 1) owner.now from }
{
    if place == 65535 {
        return owner.len();
    }
    next_of(owner, place + 1, from)
}

// Where the search for a block of an owner goes on, and how many of the owner's blocks it still has to pass.
#[derive(Clone, Copy)]
struct Spot {
    from: usize,
    left: usize,
}

// The search for the k-th block of owner v, past each 64 blocks that do not have it.
fn skip_parts(owner: &[u16], v: u16, k: usize) -> Spot
    ensures { (result.from ≤ length owner.now) × (nth v owner.now k ≡ result.from + nth v (drop result.from owner.now) result.left) }
{
    let mut from = 0;
    let mut left = k;
    for part in owner.chunks_exact(64) {
        let has = count_few(part, v) as usize;
        if left < has {
            break;
        }
        left -= has;
        from += 64;
    }
    Spot { from, left }
}

// The k-th block of owner v, counted from 0, or the number of blocks. Each search goes on where the last one ended.
fn find_block(owner: &[u16], v: u16, k: usize) -> usize
    ensures { result ≡ nth v owner.now k }
{
    let Spot { from, left } = skip_parts(owner, v, k);
    let mut b = next_of(owner, v, from);
    for _ in 0..left {
        b = next_of(owner, v, b + 1);
    }
    b
}

// The next block of owner v, where there are bytes left to move to or from it.
fn next_before(owner: &[u16], v: u16, from: usize, done: usize, n: usize) -> usize
    ensures { done < n → result ≡ next_of v owner.now from }
{
    if done < n {
        next_of(owner, v, from)
    } else {
        from
    }
}

// ---- the map that belongs to the owners

// The bit that goes with an owner.
fn free_bit(o: u16) -> u64
    ensures { result ≡ is_free o }
{
    u64::from(o == 0)
}

// The word of the 64 blocks from block 64 * i on, built from its highest bit down.
fn word_of(owner: &[u16], i: usize) -> u64
    requires { 64 * i < length owner.now }
    ensures { result ≡ word_of 64 (drop (64 * i) owner.now) }
{
    let start = 64 * i;
    let end = part_end(owner.len(), start, 64);
    let mut w: u64 = 0;
    for b in (start..end).rev() {
        w = free_bit(owner[b]) + 2 * w;
    }
    w
}

// ---- making an empty store

// 33 for sizes outside the table.
fn sizes_fit(words: usize, n: usize) -> Result<(), Refusal>
    ensures { number_of result ≡ make_number words n }
{
    if 1 <= n && n <= 4096 && words == (n + 63) / 64 {
        Ok(())
    } else {
        Err(Refusal::BadSize)
    }
}

// The map that belongs to the owners.
fn fill_map(map: &mut [u64], owner: &[u16])
    requires { 64 * length map.old < length owner.now + 64 }
    ensures { map.new ≡ map_of (length map.old) owner.now }
{
    for (i, w) in map.iter_mut().enumerate() {
        *w = word_of(owner, i);
    }
}

// An empty store: every block free. 33 for sizes outside the table or a map that has not exactly the words of the blocks.
#[tactic(auto, using(refusal::proofs::Laws::not_done), unfolding(crate::specs::Answers::make_map, crate::specs::Answers::make_owner))]
pub fn make(map: &mut [u64], owner: &mut [u16]) -> Result<(), Refusal>
    ensures value { number_of result ≡ make_number (length map.old) (length owner.old) }
    ensures map_after { map.new ≡ make_map map.old owner.old }
    ensures owner_after { owner.new ≡ make_owner map.old owner.old }
{
    sizes_fit(map.len(), owner.len())?;
    owner.fill(0);
    fill_map(map, owner);
    Ok(())
}

// ---- the check

// Whether no owner is above `files`. All are looked at, with no early end: a plain loop is the faster.
fn owners_within(owner: &[u16], files: u16) -> bool
    ensures { result ≡ within files owner.now }
{
    let mut good = true;
    for o in owner {
        if files < *o {
            good = false;
        }
    }
    good
}

// Whether a word is that of the 64 blocks from block 64 * i on. Where all of them are owned or all are free, their count tells it.
fn word_is(w: u64, owner: &[u16], i: usize) -> bool
    requires { 64 * i < length owner.now }
    ensures { result ≡ eqb w (word_of 64 (drop (64 * i) owner.now)) }
{
    let from = 64 * i;
    let end = part_end(owner.len(), from, 64);
    let free = count_few(&owner[from..end], 0);
    if free == 0 {
        return w == 0;
    }
    if free == 64 {
        return w == 18446744073709551615;
    }
    w == word_of(owner, i)
}

// Whether each word of the map is the word of its 64 blocks.
fn map_is(map: &[u64], owner: &[u16]) -> bool
    requires { 64 * length map.now < length owner.now + 64 }
    ensures { result ≡ map_is map.now owner.now }
{
    for (i, w) in map.iter().enumerate() {
        if !word_is(*w, owner, i) {
            return false;
        }
    }
    true
}

// Whether the map has exactly the words of the blocks, each bit is 1 exactly where its block is free, no bit past the last block is 1,
// and no owner is above `files`.
pub fn agrees(map: &[u64], owner: &[u16], files: u16) -> bool
    ensures { result ≡ agrees_test map.now owner.now files }
{
    map.len() == (owner.len() + 63) / 64 && owners_within(owner, files) && map_is(map, owner)
}

// ---- reserving

// Whether the sizes are in the table, the map has a bit for each block, and the file place is one.
fn store_fits(words: usize, n: usize, place: u16) -> bool
    ensures { result ≡ store_fits words n place }
{
    1 <= n && words <= 64 && n <= 64 * words && place < 256
}

// 33 for sizes, then 13 for too few free blocks.
fn room_for(map: &[u64], size: usize, place: u16, n: usize) -> Result<(), Refusal>
    ensures { number_of result ≡ reserve_number map.now size place n }
{
    if !store_fits(map.len(), size, place) {
        return Err(Refusal::BadSize);
    }
    if count_bits(map) < n {
        return Err(Refusal::NoRoom);
    }
    Ok(())
}

// The lowest free block, where all words before word `from` are 0.
fn lowest_free(map: &[u64], from: usize) -> usize
    requires { (length map.now ≤ 64) × (from ≤ length map.now) × (64 * from + lowest (drop from map.now) ≡ lowest map.now) }
    ensures { result ≡ lowest map.now }
{
    for i in from..map.len() {
        let w = map[i];
        if w != 0 {
            return 64 * i + w.trailing_zeros() as usize;
        }
    }
    64 * map.len()
}

// Owner v for block b; a number past the last block changes nothing.
fn give(owner: &mut [u16], b: usize, v: u16)
    ensures { owner.new ≡ set owner.old b v }
{
    if b < owner.len() {
        owner[b] = v;
    }
}

// Takes the lowest free block for owner v, where there is one and all words before word `from` are 0, and answers the block's word.
fn take_lowest(map: &mut [u64], owner: &mut [u16], v: u16, from: usize) -> usize
    requires { (length map.old ≤ 64) × (from ≤ length map.old) × (64 * from + lowest (drop from map.old) ≡ lowest map.old) × (lowest map.old < 64 * length map.old) }
    ensures value { result ≡ lowest map.old / 64 }
    ensures map_after { map.new ≡ cleared map.old (lowest map.old) }
    ensures owner_after { owner.new ≡ set owner.old (lowest map.old) v }
{
    let b = lowest_free(map, from);
    let i = b / 64;
    let w = map[i];
    map[i] = w - (1u64 << (b % 64));
    give(owner, b, v);
    i
}

// Takes the n lowest free blocks for owner v. The search goes on at the word of the last block taken.
fn take_blocks(map: &mut [u64], owner: &mut [u16], v: u16, n: usize)
    requires { (length map.old ≤ 64) × (n ≤ free_count map.old) }
    ensures map_after { map.new ≡ reserved_map n map.old }
    ensures owner_after { owner.new ≡ reserved_owner v n map.old owner.old }
{
    let mut i = 0;
    for _ in 0..n {
        i = take_lowest(map, owner, v, i);
    }
}

// The n lowest free blocks become the place's: their bits are cleared and their owner is the place plus 1.
#[tactic(auto, using(refusal::proofs::Laws::not_done), unfolding(crate::specs::Answers::reserve_map, crate::specs::Answers::reserve_owner))]
pub fn reserve(map: &mut [u64], owner: &mut [u16], place: u16, n: usize) -> Result<(), Refusal>
    ensures value { number_of result ≡ reserve_number map.old (length owner.old) place n }
    ensures map_after { map.new ≡ reserve_map map.old owner.old place n }
    ensures owner_after { owner.new ≡ reserve_owner map.old owner.old place n }
{
    room_for(map, owner.len(), place, n)?;
    take_blocks(map, owner, place + 1, n);
    Ok(())
}

// ---- releasing

// Sets the bit of block b, if the map has it and it is 0.
fn mark(map: &mut [u64], b: usize)
    ensures { map.new ≡ marked map.old b }
{
    let i = b / 64;
    if i < map.len() {
        let w = map[i];
        if (w >> (b % 64)) % 2 == 0 {
            map[i] = w + (1u64 << (b % 64));
        }
    }
}

// Sets the bit of each block of owner v.
fn mark_blocks(map: &mut [u64], owner: &[u16], v: u16)
    ensures { map.new ≡ released_map v owner.now 0 map.old }
{
    for (b, o) in owner.iter().enumerate() {
        if *o == v {
            mark(map, b);
        }
    }
}

// Owner 0 for each block of owner v.
fn clear_blocks(owner: &mut [u16], v: u16)
    ensures { owner.new ≡ released_owner v owner.old }
{
    for o in owner.iter_mut() {
        if *o == v {
            *o = 0;
        }
    }
}

// Each block of the place becomes free. Where its bit is set already, the map stays as it is.
#[tactic(auto, using(refusal::proofs::Laws::not_done), unfolding(crate::specs::Answers::release_map, crate::specs::Answers::release_owner))]
pub fn release(map: &mut [u64], owner: &mut [u16], place: u16) -> Result<(), Refusal>
    ensures value { number_of result ≡ release_number (length map.old) (length owner.old) place }
    ensures map_after { map.new ≡ release_map map.old owner.old place }
    ensures owner_after { owner.new ≡ release_owner map.old owner.old place }
{
    if !store_fits(map.len(), owner.len(), place) {
        return Err(Refusal::BadSize);
    }
    mark_blocks(map, owner, place + 1);
    clear_blocks(owner, place + 1);
    Ok(())
}

// ---- writing and reading

// Whether the sizes are in the table, the disk has the blocks, and the file place is one.
fn disk_fits(size: usize, n: usize, place: u16) -> bool
    ensures { result ≡ disk_fits size n place }
{
    1 <= n && n <= 4096 && 256 * n <= size && place < 256
}

// 33 for sizes, then 35 where the place's blocks do not have the n bytes from byte `at` on.
fn window_fits(size: usize, owner: &[u16], place: u16, at: usize, n: usize) -> Result<(), Refusal>
    ensures { number_of result ≡ window_number size owner.now place at n }
{
    if !disk_fits(size, owner.len(), place) {
        return Err(Refusal::BadSize);
    }
    let most = 256 * count_of(owner, place + 1);
    if most < at || most - at < n {
        return Err(Refusal::Unsound);
    }
    Ok(())
}

// How many of `left` bytes stand in one block from byte `at` on.
fn run_length(at: usize, left: usize) -> usize
    ensures { (result ≤ left) × (at % 256 + result ≤ 256) × (0 < left → 0 < result) × (result < left → at % 256 + result ≡ 256) }
{
    left.min(256 - at % 256)
}

// Copies `from` to `to`. A loop: `copy_from_slice` becomes a call of `memmove`, and the library is to need `memcpy` and `memset` alone.
fn copy(to: &mut [u8], from: &[u8])
    requires { length to.old ≡ length from.now }
    ensures { to.new ≡ from.now }
{
    for (i, b) in from.iter().enumerate() {
        to[i] = *b;
    }
}

// Stores a run of bytes from byte s of the disk on.
#[tactic(auto, using(crate::proofs::Steps::part_put))]
fn put_run(disk: &mut [u8], s: usize, run: &[u8])
    requires { s + length run.now ≤ length disk.old }
    ensures { disk.new ≡ sets disk.old s run.now }
{
    copy(&mut disk[s..s + run.len()], run);
}

// Stores the bytes from byte `at` of owner v on, a run for each block that they touch.
fn put_runs(disk: &mut [u8], owner: &[u16], v: u16, at: usize, bytes: &[u8])
    requires { (length owner.now ≤ 4096) × (256 * length owner.now ≤ length disk.old) × (at + length bytes.now ≤ 256 * blocks v owner.now) }
    ensures { disk.new ≡ stored v owner.now disk.old at bytes.now }
{
    let mut b = find_block(owner, v, at / 256);
    let mut i = 0;
    // a `while`: each turn goes on behind the run that it moved, and the first and the last run are shorter than a block
    while i < bytes.len() {
        let e = i + run_length(at + i, bytes.len() - i);
        put_run(disk, 256 * b + (at + i) % 256, &bytes[i..e]);
        b = next_before(owner, v, b + 1, e, bytes.len());
        i = e;
    }
}

// Stores the bytes from byte `at` of the place's contents on, across the borders of its blocks.
#[tactic(auto, using(refusal::proofs::Laws::not_done), unfolding(crate::specs::Answers::write_disk))]
pub fn write(
    disk: &mut [u8],
    owner: &[u16],
    place: u16,
    at: usize,
    bytes: &[u8],
) -> Result<(), Refusal>
    ensures value { number_of result ≡ window_number (length disk.old) owner.now place at (length bytes.now) }
    ensures disk_after { disk.new ≡ write_disk disk.old owner.now place at bytes.now }
{
    window_fits(disk.len(), owner, place, at, bytes.len())?;
    put_runs(disk, owner, place + 1, at, bytes);
    Ok(())
}

// Fills `out` from byte s of the disk on.
fn get_run(disk: &[u8], s: usize, out: &mut [u8])
    requires { s + length out.old ≤ length disk.now }
    ensures { out.new ≡ take (length out.old) (drop s disk.now) }
{
    copy(out, &disk[s..s + out.len()]);
}

// Fills `out` with the bytes from byte `at` of owner v on, a run for each block that they touch.
fn get_runs(disk: &[u8], owner: &[u16], v: u16, at: usize, out: &mut [u8])
    requires { (length owner.now ≤ 4096) × (256 * length owner.now ≤ length disk.now) × (at + length out.old ≤ 256 * blocks v owner.now) }
    ensures { out.new ≡ take (length out.old) (drop at (held v owner.now disk.now)) }
{
    let mut b = find_block(owner, v, at / 256);
    let mut i = 0;
    // a `while`: each turn goes on behind the run that it moved, and the first and the last run are shorter than a block
    while i < out.len() {
        let e = i + run_length(at + i, out.len() - i);
        get_run(disk, 256 * b + (at + i) % 256, &mut out[i..e]);
        b = next_before(owner, v, b + 1, e, out.len());
        i = e;
    }
}

// Fills `out` with the bytes from byte `at` of the place's contents on.
#[tactic(auto, using(refusal::proofs::Laws::not_done), unfolding(crate::specs::Answers::read_out))]
pub fn read(
    disk: &[u8],
    owner: &[u16],
    place: u16,
    at: usize,
    out: &mut [u8],
) -> Result<(), Refusal>
    ensures value { number_of result ≡ window_number (length disk.now) owner.now place at (length out.old) }
    ensures out_after { out.new ≡ read_out disk.now owner.now place at out.old }
{
    window_fits(disk.len(), owner, place, at, out.len())?;
    get_runs(disk, owner, place + 1, at, out);
    Ok(())
}
