// The files of the store: begun, received, checked, completed, discarded and selected.
//
// The store is four lent slices: `map`, `owner` and `disk` of the block store and the file `table`. The file at place p has the blocks with
// owner p + 1; its record has its number, its announced length, the bytes received and its upload time, 0 while it is partial.
//
// Every function takes any slices and asks nothing of its caller. A refusal leaves everything as it was. No function but `sound` checks the
// whole store: what the others do where it is broken is defined too, and the laws in proofs/ say what they do where it is sound: it stays
// sound, no file but the call's own changes, and the local refusals 33 and 35 do not appear.
#![tactic(auto)]

ghost use Rattle.std.specs.Prelude.{◌≡◌, ◌+◌, ◌≤◌, ◌<◌, IfOk, cond, ◌++◌, length, set, take, drop, replicate};
ghost use Rattle.std.proofs.lemmas.List.Edits.{sets};
ghost use Rattle.refusal.specs.Refusal.{number_of, numbered};
ghost use Rattle.equation.specs.Parsed.{steps_of};
ghost use Rattle.stored.specs.Answers.{truth_at};
ghost use Rattle.files.specs.Uploads.{begins, begin_at, begin_of, after, place_number, writes, room_number, append_of, frees, discard_of};
ghost use Rattle.files.specs.Completion.{check_of, complete_of, destinations_at};
ghost use Rattle.files.specs.Selection.{is_yes, numbers_at, chosen, select_number, selects, select_of};
ghost use Rattle.files.specs.Sound.{sound_test};

use equation::evaluation::parse;
use refusal::Refusal;
use table::File;

// ---- a new file

// A new file at a place.
#[tactic(auto, using(refusal::proofs::Laws::not_done), unfolding(crate::specs::Uploads::begin_at, blocks::specs::Answers::reserve_map, blocks::specs::Answers::reserve_owner))]
fn begin_at(
    map: &mut [u64],
    owner: &mut [u16],
    table: &mut [u32],
    place: usize,
    number: u32,
    size: u32,
) -> Result<usize, Refusal>
    ensures { begins (numbered result) map.new owner.new table.new ≡ begin_at place number size map.old owner.old table.old }
{
    if 256 <= place {
        return Err(Refusal::BadSize);
    }
    blocks::reserve(map, owner, place as u16, table::blocks_for(size))?;
    let file = File {
        number,
        size,
        received: 0,
        time: 0,
    };
    // not refused: the place is one of the table
    let _ = table::put(table, place, file);
    Ok(place)
}

// A new file of an announced length, `last` being the last number given: it gets the next number, the lowest free place and the lowest free
// blocks. 3 where numbers are used up, 13 where no place is free or too few blocks are.
#[tactic(auto, unfolding(crate::specs::Uploads::begin_with, crate::specs::Uploads::begin_in))]
pub fn begin(
    map: &mut [u64],
    owner: &mut [u16],
    table: &mut [u32],
    last: u32,
    size: u32,
) -> Result<usize, Refusal>
    ensures { begins (numbered result) map.new owner.new table.new ≡ begin_of map.old owner.old table.old last size }
{
    let number = table::next_number(last).ok_or(Refusal::UsedUp)?;
    let place = table::free_place(table).ok_or(Refusal::NoRoom)?;
    begin_at(map, owner, table, place, number, size)
}

// ---- a file's place

// 33 for a place past the 256th, 35 for one with no file.
#[tactic(auto, unfolding(crate::specs::Uploads::place_number))]
fn place_holds(place: usize, file: File) -> Result<(), Refusal>
    ensures value { number_of result ≡ place_number place file }
    ensures below { IfOk result (λ done. place < 256) }
{
    if 256 <= place {
        return Err(Refusal::BadSize);
    }
    if file.number == 0 {
        return Err(Refusal::Unsound);
    }
    Ok(())
}

// ---- further bytes

// Whether the place has a file and n more bytes do not pass its announced length.
#[tactic(auto, using(refusal::proofs::Laws::not_done), unfolding(crate::specs::Uploads::room_number))]
fn room_for(place: usize, file: File, n: usize) -> Result<(), Refusal>
    ensures value { number_of result ≡ after (place_number place file) (room_number file n) }
    ensures within { IfOk result (λ done. (place < 256) × (file.received + n ≤ file.size)) }
{
    place_holds(place, file)?;
    if file.size < file.received || ((file.size - file.received) as usize) < n {
        return Err(Refusal::BodySum);
    }
    Ok(())
}

// The bytes go behind those received. 16 where they would pass the announced length, 35 where the place has no file.
#[tactic(auto, using(refusal::proofs::Laws::not_done), unfolding(crate::specs::Uploads::append_of, crate::specs::Uploads::append_number, blocks::specs::Answers::write_disk))]
pub fn append(
    disk: &mut [u8],
    owner: &[u16],
    table: &mut [u32],
    place: usize,
    bytes: &[u8],
) -> Result<(), Refusal>
    ensures { writes (number_of result) disk.new table.new ≡ append_of disk.old owner.now table.old place bytes.now }
{
    let file = table::get(table, place);
    room_for(place, file, bytes.len())?;
    blocks::write(disk, owner, place as u16, file.received as usize, bytes)?;
    let longer = File {
        received: file.received + bytes.len() as u32,
        ..file
    };
    // not refused: the place is one of the table
    let _ = table::put(table, place, longer);
    Ok(())
}

// ---- a file discarded

// The file's blocks become free and its record empty. 35 where the place has no file.
#[tactic(auto, using(refusal::proofs::Laws::not_done), unfolding(crate::specs::Uploads::discard_of, crate::specs::Uploads::discard_number, blocks::specs::Answers::release_map, blocks::specs::Answers::release_owner))]
pub fn discard(
    map: &mut [u64],
    owner: &mut [u16],
    table: &mut [u32],
    place: usize,
) -> Result<(), Refusal>
    ensures { frees (number_of result) map.new owner.new table.new ≡ discard_of map.old owner.old table.old place }
{
    place_holds(place, table::get(table, place))?;
    blocks::release(map, owner, place as u16)?;
    let empty = File {
        number: 0,
        size: 0,
        received: 0,
        time: 0,
    };
    // not refused: the place is one of the table
    let _ = table::put(table, place, empty);
    Ok(())
}

// ---- a file completed

// Whether DATA_END accepts the file, or why not. One pass over its bytes.
#[tactic(auto, using(refusal::proofs::Laws::not_done), unfolding(crate::specs::Completion::check_of))]
pub fn check(disk: &[u8], owner: &[u16], table: &[u32], place: usize) -> Result<(), Refusal>
    ensures { number_of result ≡ check_of disk.now owner.now table.now place }
{
    let file = table::get(table, place);
    place_holds(place, file)?;
    stored::check(disk, owner, place as u16, file.received as usize, file.size)
}

// Sets the four fields in the file's header and the upload time in its record. Where the items are refused nothing changes.
#[tactic(auto, using(refusal::proofs::Laws::not_done), unfolding(crate::specs::Completion::complete_of, crate::specs::Completion::complete_number, stored::specs::Answers::set_disk))]
pub fn complete(
    disk: &mut [u8],
    owner: &[u16],
    table: &mut [u32],
    place: usize,
    time: u32,
) -> Result<(), Refusal>
    ensures { writes (number_of result) disk.new table.new ≡ complete_of disk.old owner.now table.old place time }
{
    let file = table::get(table, place);
    place_holds(place, file)?;
    stored::set_fields(
        disk,
        owner,
        place as u16,
        file.received as usize,
        file.number,
        time,
    )?;
    // not refused: the place is one of the table
    let _ = table::put(table, place, File { time, ..file });
    Ok(())
}

// The number of the file's destinations, 0 where its header is refused.
#[tactic(auto, using(crate::proofs::Calls::destinations_past), unfolding(crate::specs::Completion::destinations_at))]
pub fn destinations(disk: &[u8], owner: &[u16], table: &[u32], place: usize) -> usize
    ensures { result ≡ destinations_at disk.now owner.now table.now place }
{
    if 256 <= place {
        return 0;
    }
    let file = table::get(table, place);
    match stored::read_header(disk, owner, place as u16, file.received as usize, 20) {
        Ok(header) => header.destinations,
        Err(_) => 0,
    }
}

// ---- a selection

// Whether the equation is true on the file at a place; the steps are the equation's.
#[tactic(auto, using(crate::proofs::Calls::truth_past, crate::proofs::Calls::yes_is, stored::proofs::Laws::truth_by_law))]
fn meets(eq: &[u8], steps: &[u16], disk: &[u8], owner: &[u16], place: usize, received: u32) -> bool
    requires { steps.now ≡ steps_of eq.now }
    ensures { result ≡ is_yes (truth_at eq.now disk.now owner.now place received) }
{
    if 256 <= place {
        return false;
    }
    let truth = stored::truth(eq, steps, disk, owner, place as u16, received as usize);
    truth.unwrap_or(false)
}

// Writes the number of a file that is selected, and answers how many numbers are there now.
fn note(selected: &mut [u32], count: usize, number: u32, met: bool) -> usize
    requires { count < length selected.old }
    ensures value { result ≡ cond met (count + 1) count }
    ensures selected_after { selected.new ≡ cond met (set selected.old count number) selected.old }
{
    if met {
        selected[count] = number;
        return count + 1;
    }
    count
}

// Writes zeros to the first `most` numbers.
fn clear(selected: &mut [u32], most: usize)
    requires { most ≤ length selected.old }
    ensures { selected.new ≡ replicate most 0 ++ drop most selected.old }
{
    selected[..most].fill(0);
}

// Goes through the complete files, oldest first, until `most` are found; each header is read at most once, and the equation by its steps.
fn choose(
    eq: &[u8],
    steps: &[u16],
    disk: &[u8],
    owner: &[u16],
    table: &[u32],
    selected: &mut [u32],
    most: usize,
) -> usize
    requires { (steps.now ≡ steps_of eq.now) × (most ≤ length selected.old) }
    ensures value { result ≡ length (chosen most eq.now disk.now owner.now table.now) }
    ensures selected_after { selected.new ≡ sets selected.old 0 (numbers_at table.now (chosen most eq.now disk.now owner.now table.now)) }
{
    let mut count: usize = 0;
    let mut after: u32 = 0;
    // a `while`: each turn goes on after the file that it looked at, and only a file that meets the equation counts
    while count < most {
        let next = table::next_complete(table, after);
        match next {
            None => return count,
            Some(place) => {
                let file = table::get(table, place);
                let met = meets(eq, steps, disk, owner, place, file.received);
                count = note(selected, count, file.number, met);
                after = table::upload_time_of(file);
            }
        }
    }
    count
}

// Parses the equation of a SELECT. 33 for a MAXSEL outside 1 to 50, too few numbers lent or more equation bytes than the server accepts; 8 for
// an equation refused.
#[tactic(auto, unfolding(crate::specs::Selection::select_number))]
fn select_parse(eq: &[u8], n: usize, most: usize, steps: &mut [u16]) -> Result<usize, Refusal>
    requires { 256 ≤ length steps.old }
    ensures refused_value { number_of result ≡ select_number eq.now n most }
    ensures count_in_bounds { IfOk result (λ count. (count ≤ length steps.new) × (take count steps.new ≡ steps_of eq.now)) }
{
    if most < 1 || 50 < most || n < most || 256 < eq.len() {
        return Err(Refusal::BadSize);
    }
    Ok(parse(eq, steps)?)
}

// The numbers of the oldest `most` complete files on which the equation is true, oldest first, then zeros up to `most`. The equation is parsed
// once for all files.
pub fn select(
    eq: &[u8],
    disk: &[u8],
    owner: &[u16],
    table: &[u32],
    selected: &mut [u32],
    most: usize,
) -> Result<usize, Refusal>
    ensures { selects (numbered result) selected.new ≡ select_of eq.now disk.now owner.now table.now selected.old most }
{
    let mut steps = [0u16; 256];
    let n = select_parse(eq, selected.len(), most, &mut steps)?;
    clear(selected, most);
    Ok(choose(eq, &steps[..n], disk, owner, table, selected, most))
}

// ---- the store as a whole

// Whether the store has the facts of refusal 35; `last` is the last file number given and `latest` the last upload time. Linear in blocks
// and files, but that a number or a time which is not below all later ones is compared with each of them.
#[tactic(auto, unfolding(crate::specs::Sound::sound_test))]
pub fn sound(map: &[u64], owner: &[u16], table: &[u32], last: u32, latest: u32) -> bool
    ensures { result ≡ sound_test map.now owner.now table.now last latest }
{
    let n = table.len() / 4;
    if 256 < n {
        return false;
    }
    if table.len() % 4 != 0 {
        return false;
    }
    if blocks::agrees(map, owner, n as u16) {
        let held = blocks::counts(owner);
        if table::records_fit(table, last, latest, &held) {
            return table::distinct(table);
        }
        return false;
    }
    false
}
