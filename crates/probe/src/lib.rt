// The store's calls for programs in other languages, for tests and measurements.
//
// Each function is one call of the block store or of the files, under a plain name, on numbers and slices of numbers alone; a slice passes
// as a pointer and a length. It takes any slices and any numbers, asks nothing of its caller, and promises what the call below promises:
// the contracts cite the same definitions. An answer of several cases becomes one number: a refusal's number stands below 256, and 256 plus
// a place or a count is an answer that is no refusal.
#![tactic(auto)]

ghost use Rattle.std.specs.Prelude.{◌≡◌, cond, ◌≤◌, ◌<◌, length, take};
ghost use Rattle.refusal.specs.Refusal.{numbered};
ghost use Rattle.blocks.specs.FreeMap.{free_count};
ghost use Rattle.blocks.specs.Answers.{make_number, make_map, make_owner, window_number, read_out};
ghost use Rattle.files.specs.Uploads.{begin_of, writes, append_of, frees, discard_of};
ghost use Rattle.files.specs.Completion.{check_of, complete_of};
ghost use Rattle.files.specs.Selection.{count_in, select_of};
ghost use Rattle.files.specs.Sound.{sound_test};
ghost use Rattle.probe.specs.Codes.{place_of, begun_code, selection_code, sound_code, began, began_of, picked, picked_of};

use refusal::Refusal;

// ---- answers as numbers

#[tactic(auto, unfolding(crate::specs::Codes::begun_code, crate::specs::Codes::place_of))]
fn begun_code(answer: Result<usize, Refusal>) -> u32
    requires { place_of (numbered answer) < 256 }
    ensures { result ≡ begun_code (numbered answer) }
{
    match answer {
        Ok(place) => 256 + place as u32,
        Err(refusal) => u32::from(u8::from(refusal)),
    }
}

#[tactic(auto, unfolding(crate::specs::Codes::selection_code))]
fn selection_code(answer: Result<usize, Refusal>) -> u32
    requires { count_in (numbered answer) ≤ 50 }
    ensures { result ≡ selection_code (numbered answer) }
{
    match answer {
        Ok(count) => 256 + count as u32,
        Err(refusal) => u32::from(u8::from(refusal)),
    }
}

// ---- blocks

// An empty store, as `blocks::make`.
#[unsafe(no_mangle)]
pub extern "C" fn store_make(map: &mut [u64], owner: &mut [u16]) -> u8
    ensures value { result ≡ make_number (length map.old) (length owner.old) }
    ensures map_after { map.new ≡ make_map map.old owner.old }
    ensures owner_after { owner.new ≡ make_owner map.old owner.old }
{
    refusal::number_of(blocks::make(map, owner))
}

// The number of free blocks, as `blocks::free_count`.
#[unsafe(no_mangle)]
pub extern "C" fn store_free(map: &[u64]) -> usize
    ensures { result ≡ free_count (take 64 map.now) }
{
    blocks::free_count(map)
}

// Bytes of a place's blocks, as `blocks::read`.
#[unsafe(no_mangle)]
pub extern "C" fn store_read(
    disk: &[u8],
    owner: &[u16],
    place: u16,
    at: usize,
    out: &mut [u8],
) -> u8
    ensures value { result ≡ window_number (length disk.now) owner.now place at (length out.old) }
    ensures out_after { out.new ≡ read_out disk.now owner.now place at out.old }
{
    refusal::number_of(blocks::read(disk, owner, place, at, out))
}

// ---- uploads

// A new file, as `files::begin`: a refusal's number, or 256 plus the place.
#[unsafe(no_mangle)]
pub extern "C" fn store_begin(
    map: &mut [u64],
    owner: &mut [u16],
    table: &mut [u32],
    last: u32,
    size: u32,
) -> u32
    ensures { began result map.new owner.new table.new ≡ began_of (begin_of map.old owner.old table.old last size) }
{
    let answer = files::begin(map, owner, table, last, size);
    begun_code(answer)
}

// Further bytes of a file, as `files::append`.
#[unsafe(no_mangle)]
pub extern "C" fn store_append(
    disk: &mut [u8],
    owner: &[u16],
    table: &mut [u32],
    place: usize,
    bytes: &[u8],
) -> u8
    ensures { writes result disk.new table.new ≡ append_of disk.old owner.now table.old place bytes.now }
{
    refusal::number_of(files::append(disk, owner, table, place, bytes))
}

// A file discarded, as `files::discard`.
#[unsafe(no_mangle)]
pub extern "C" fn store_discard(
    map: &mut [u64],
    owner: &mut [u16],
    table: &mut [u32],
    place: usize,
) -> u8
    ensures { frees result map.new owner.new table.new ≡ discard_of map.old owner.old table.old place }
{
    refusal::number_of(files::discard(map, owner, table, place))
}

// The number that DATA_END gives for a file, as `files::check`.
#[unsafe(no_mangle)]
pub extern "C" fn store_check(disk: &[u8], owner: &[u16], table: &[u32], place: usize) -> u8
    ensures { result ≡ check_of disk.now owner.now table.now place }
{
    refusal::number_of(files::check(disk, owner, table, place))
}

// A file completed, as `files::complete`.
#[unsafe(no_mangle)]
pub extern "C" fn store_complete(
    disk: &mut [u8],
    owner: &[u16],
    table: &mut [u32],
    place: usize,
    time: u32,
) -> u8
    ensures { writes result disk.new table.new ≡ complete_of disk.old owner.now table.old place time }
{
    refusal::number_of(files::complete(disk, owner, table, place, time))
}

// ---- the whole store

// A selection, as `files::select`: a refusal's number, or 256 plus how many files were selected.
#[unsafe(no_mangle)]
pub extern "C" fn store_select(
    eq: &[u8],
    disk: &[u8],
    owner: &[u16],
    table: &[u32],
    selected: &mut [u32],
    most: usize,
) -> u32
    ensures { picked result selected.new ≡ picked_of (select_of eq.now disk.now owner.now table.now selected.old most) }
{
    let answer = files::select(eq, disk, owner, table, selected, most);
    selection_code(answer)
}

// Whether the store is sound, as `files::sound`: 1 or 0.
#[unsafe(no_mangle)]
pub extern "C" fn store_sound(
    map: &[u64],
    owner: &[u16],
    table: &[u32],
    last: u32,
    latest: u32,
) -> u8
    ensures { result ≡ sound_code (sound_test map.now owner.now table.now last latest) }
{
    if files::sound(map, owner, table, last, latest) {
        return 1;
    }
    0
}
