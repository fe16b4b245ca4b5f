// Making a server: its sizes, and the empty store in what is lent. Sizes outside the table and slices that are too short are refused by 33.
#![tactic(auto)]

ghost use Rattle.std.specs.Prelude.{◌≡◌, ◌*◌, ◌≤◌, length};
ghost use Rattle.refusal.specs.Refusal.{numbered};
ghost use Rattle.server.specs.State.{words};
ghost use Rattle.server.specs.Making.{new_server, EmptyPre, emptied, empty_of, makes, make_of};

use carry::turn::Last;
use refusal::Refusal;
use server::Server;
use server::check::Lengths;

// Nothing given yet, and no session open.
fn new_server(blocks: usize, files: usize, sessions: usize, most: usize) -> Server
    ensures { result ≡ new_server blocks files sessions most }
{
    let c = session::state::closed();
    Server {
        blocks,
        files,
        sessions,
        most,
        last: Last { number: 0, time: 0 },
        links: [c; 4],
    }
}

// All blocks free, no file, nothing selected and no unfinished packet.
fn empty(
    blocks: usize,
    files: usize,
    sessions: usize,
    most: usize,
    map: &mut [u64],
    owner: &mut [u16],
    table: &mut [u32],
    selected: &mut [u32],
    held: &mut [u8],
)
    requires { EmptyPre blocks files sessions most map.old owner.old table.old selected.old held.old }
    ensures { emptied map.new owner.new table.new selected.new held.new
        ≡ empty_of blocks files sessions most map.old owner.old table.old selected.old held.old }
{
    let w = (blocks + 63) / 64;
    let x = 4 * files;
    let y = sessions * most;
    let z = sessions * 258;
    // not refused: the sizes were tested
    let _ = blocks::make(&mut map[..w], &mut owner[..blocks]);
    carry::download::forget(&mut table[..x]);
    carry::download::forget(&mut selected[..y]);
    packet::frame::forget(&mut held[..z]);
}

// A server with these sizes, and the empty store in what is lent; 33 and nothing changed where the sizes are outside the table or a slice is too
// short. The disk is only asked for its length.
pub fn make(
    blocks: usize,
    files: usize,
    sessions: usize,
    most: usize,
    disk: &[u8],
    map: &mut [u64],
    owner: &mut [u16],
    table: &mut [u32],
    selected: &mut [u32],
    held: &mut [u8],
) -> Result<Server, Refusal>
    ensures { makes (numbered result) (emptied map.new owner.new table.new selected.new held.new)
        ≡ make_of blocks files sessions most (length disk.now) map.old owner.old table.old selected.old held.old }
{
    let server = new_server(blocks, files, sessions, most);
    let n = Lengths::of(disk, map, owner, table, selected, held);
    if !server::check::fits_all(server, n) {
        return Err(Refusal::BadSize);
    }
    empty(
        blocks, files, sessions, most, map, owner, table, selected, held,
    );
    Ok(server)
}
