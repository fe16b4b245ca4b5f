// The packet types by number, and their names.
ghost use Rattle.std.specs.Prelude.{◌≡◌};
ghost use Rattle.packet.specs.Names.{named};

// A packet type's name: the first `size` of the bytes, the others zero.
#[derive(Clone, Copy)]
pub struct Name {
    pub bytes: [u8; 17],
    pub size: usize,
}

const NAMES: [[u8; 17]; 18] = [
    *b"DATA\0\0\0\0\0\0\0\0\0\0\0\0\0",
    *b"DATA_END\0\0\0\0\0\0\0\0\0",
    *b"LOGIN_RESP\0\0\0\0\0\0\0",
    *b"UPLOAD_CMD\0\0\0\0\0\0\0",
    *b"UL_GO_RESP\0\0\0\0\0\0\0",
    *b"UL_ERROR_RESP\0\0\0\0",
    *b"UL_ACK_RESP\0\0\0\0\0\0",
    *b"UL_NAK_RESP\0\0\0\0\0\0",
    *b"DOWNLOAD_CMD\0\0\0\0\0",
    *b"DL_ERROR_RESP\0\0\0\0",
    *b"DL_ABORTED_RESP\0\0",
    *b"DL_COMPLETED_RESP",
    *b"DL_ACK_CMD\0\0\0\0\0\0\0",
    *b"DL_NAK_CMD\0\0\0\0\0\0\0",
    *b"DIR_SHORT_CMD\0\0\0\0",
    *b"DIR_LONG_CMD\0\0\0\0\0",
    *b"SELECT_CMD\0\0\0\0\0\0\0",
    *b"SELECT_RESP\0\0\0\0\0\0",
];

const SIZES: [usize; 18] = [
    4, 8, 10, 10, 10, 13, 11, 11, 12, 13, 15, 17, 10, 10, 13, 12, 10, 11,
];

// The name of a packet type; of size 0 for a type above 17, which has none.
pub fn name_of(kind: u8) -> Name
    ensures { result ≡ named kind }
{
    let k = usize::from(kind);
    if 17 < k {
        return Name {
            bytes: [0; 17],
            size: 0,
        };
    }
    Name {
        bytes: NAMES[k],
        size: SIZES[k],
    }
}
