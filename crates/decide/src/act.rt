// What is to be done.
use session::reply::Reply;
use session::state::Listed;

#[derive(Clone, Copy)]
pub enum Act {
    // The link is closed.
    Close,
    // Nothing, without an answer.
    Ignore,
    // An answer, and nothing else.
    Tell(Reply),
    // A new upload of this length.
    Begin(u32),
    // An upload goes on: the file's place and number, and the bytes it has.
    Resume(usize, u32, u32),
    // DATA for the file at a place; the offset at which this link began, and the bytes received on it so far.
    Store(usize, u32, u32),
    // DATA that would pass the announced length.
    Overrun(usize),
    // The DATA_END of an upload that is being ignored.
    Stop,
    // The DATA_END of the upload at a place.
    Finish(usize),
    // A selection.
    Select,
    // A download of the file at a place: the offset, the lock destination, and the number of selected files passed then.
    Send(usize, u32, u8, usize),
    // DL_ACK_CMD with this destination for the file at a place.
    Confirm(usize, u8),
    // The download or the directory is over, with this answer.
    End(Reply),
    // DL_NAK_CMD before the DATA_END of a download was sent.
    Abort(usize),
    // A directory of these files, in the long form or the short one, and the number of selected files passed then.
    List(Listed, bool, usize),
}
