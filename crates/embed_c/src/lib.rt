// The library for programs in other languages: each function of embed that they call, under its own name and with the same clauses.
//
// A slice passes as a pointer and a length. What the calls are is said in embed.
#![tactic(auto)]

ghost use Rattle.std.specs.Prelude.{◌≡◌, true, length};
ghost use Rattle.server.specs.State.{lent};
ghost use Rattle.server.specs.Making.{emptied};
ghost use Rattle.embed.specs.Words.{is_state};
ghost use Rattle.embed.specs.Calls.{told, received, receive_by, sent, open_by, request_by, gone, lose_by, begun, make_by, filled, memory_by, free_by};

// The number of words of the server's state.
#[unsafe(no_mangle)]
pub extern "C" fn figmorella_state_words() -> usize
    ensures { result ≡ 54 }
{
    embed::figmorella_state_words()
}

// How long each slice must be for these sizes, in 7 numbers: state, disk, map, owner, table, selected, held. 0, or 33 for sizes outside
// the table or a short `need`.
#[unsafe(no_mangle)]
pub extern "C" fn figmorella_memory(
    blocks: usize,
    files: usize,
    sessions: usize,
    most: usize,
    need: &mut [usize],
) -> u8
    ensures { filled result need.new ≡ memory_by blocks files sessions most need.old }
{
    embed::figmorella_memory(blocks, files, sessions, most, need)
}

// A server with these sizes, over an empty store: 0, or 33 and nothing changed.
#[unsafe(no_mangle)]
pub extern "C" fn figmorella_make(
    blocks: usize,
    files: usize,
    sessions: usize,
    most: usize,
    state: &mut [u64],
    disk: &[u8],
    map: &mut [u64],
    owner: &mut [u16],
    table: &mut [u32],
    selected: &mut [u32],
    held: &mut [u8],
) -> u8
    ensures held_after { begun result state.new (emptied map.new owner.new table.new selected.new held.new)
        ≡ make_by blocks files sessions most state.old (length disk.now) (emptied map.old owner.old table.old selected.old held.old) }
    ensures state_after { result ≡ 0 → is_state state.new ≡ true }
{
    embed::figmorella_make(
        blocks, files, sessions, most, state, disk, map, owner, table, selected, held,
    )
}

// A link is there: the session begins, and LOGIN_RESP goes out.
#[unsafe(no_mangle)]
pub extern "C" fn figmorella_open(
    state: &mut [u64],
    disk: &[u8],
    map: &[u64],
    owner: &[u16],
    table: &[u32],
    selected: &[u32],
    held: &[u8],
    out: &mut [u8],
    counts: &mut [usize],
    session: usize,
    clock: u32,
) -> u8
    ensures out_after { sent (told result state.new counts.new) out.new
        ≡ open_by state.old counts.old (lent disk.now map.now owner.now table.now selected.now held.now) out.old session clock }
    ensures state_after { is_state state.old ≡ true → is_state state.new ≡ true }
{
    embed::figmorella_open(
        state, disk, map, owner, table, selected, held, out, counts, session, clock,
    )
}

// Takes bytes of a session's link, up to the end of one packet, and answers it.
#[unsafe(no_mangle)]
pub extern "C" fn figmorella_receive(
    state: &mut [u64],
    disk: &mut [u8],
    map: &mut [u64],
    owner: &mut [u16],
    table: &mut [u32],
    selected: &mut [u32],
    held: &mut [u8],
    out: &mut [u8],
    counts: &mut [usize],
    session: usize,
    clock: u32,
    input: &[u8],
) -> u8
    ensures out_after { received (told result state.new counts.new) (lent disk.new map.new owner.new table.new selected.new held.new) out.new
        ≡ receive_by state.old counts.old (lent disk.old map.old owner.old table.old selected.old held.old) out.old session clock input.now }
    ensures state_after { is_state state.old ≡ true → is_state state.new ≡ true }
{
    embed::figmorella_receive(
        state, disk, map, owner, table, selected, held, out, counts, session, clock, input,
    )
}

// What is due on a session's downlink: one packet, or nothing.
#[unsafe(no_mangle)]
pub extern "C" fn figmorella_request(
    state: &mut [u64],
    disk: &[u8],
    map: &[u64],
    owner: &[u16],
    table: &[u32],
    selected: &[u32],
    held: &[u8],
    out: &mut [u8],
    counts: &mut [usize],
    session: usize,
) -> u8
    ensures out_after { sent (told result state.new counts.new) out.new
        ≡ request_by state.old counts.old (lent disk.now map.now owner.now table.now selected.now held.now) out.old session }
    ensures state_after { is_state state.old ≡ true → is_state state.new ≡ true }
{
    embed::figmorella_request(
        state, disk, map, owner, table, selected, held, out, counts, session,
    )
}

// The link is lost: the session is closed.
#[unsafe(no_mangle)]
pub extern "C" fn figmorella_lose(
    state: &mut [u64],
    disk: &[u8],
    map: &[u64],
    owner: &[u16],
    table: &[u32],
    selected: &mut [u32],
    held: &mut [u8],
    counts: &mut [usize],
    session: usize,
) -> u8
    ensures held_after { gone (told result state.new counts.new) selected.new held.new
        ≡ lose_by state.old counts.old (lent disk.now map.now owner.now table.now selected.old held.old) session }
    ensures state_after { is_state state.old ≡ true → is_state state.new ≡ true }
{
    embed::figmorella_lose(
        state, disk, map, owner, table, selected, held, counts, session,
    )
}

// The number of free blocks and the number of all blocks, as two counts.
#[unsafe(no_mangle)]
pub extern "C" fn figmorella_free(state: &[u64], map: &[u64], counts: &mut [usize]) -> u8
    ensures { filled result counts.new ≡ free_by state.now map.now counts.old }
{
    embed::figmorella_free(state, map, counts)
}
