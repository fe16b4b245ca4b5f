// The names of header items: their ids and the usual widths of their numbers (specs/Names.antt), and the search of a name in a text.
ghost use Rattle.std.specs.Prelude.{◌≡◌, map, ◌≤◌, max, ltb, get_or};
ghost use Rattle.text.specs.Match.{lower};
ghost use Rattle.names.specs.Names.{items, small};
ghost use Rattle.names.specs.Rows.{nameless, row_at, row_of, shared, found};

use text::lowered;

// A name in capitals, the first `size` of the letters, with its id and usual width; of size 0 where there is none.
#[derive(Clone, Copy)]
pub struct Row {
    pub letters: [u8; 23],
    pub size: usize,
    pub id: u16,
    pub width: u8,
}

const NAMES: [[u8; 23]; 28] = [
    *b"FILE_NUMBER\0\0\0\0\0\0\0\0\0\0\0\0",
    *b"FILE_NAME\0\0\0\0\0\0\0\0\0\0\0\0\0\0",
    *b"FILE_EXT\0\0\0\0\0\0\0\0\0\0\0\0\0\0\0",
    *b"FILE_SIZE\0\0\0\0\0\0\0\0\0\0\0\0\0\0",
    *b"CREATE_TIME\0\0\0\0\0\0\0\0\0\0\0\0",
    *b"LAST_MODIFIED_TIME\0\0\0\0\0",
    *b"SEU_FLAG\0\0\0\0\0\0\0\0\0\0\0\0\0\0\0",
    *b"FILE_TYPE\0\0\0\0\0\0\0\0\0\0\0\0\0\0",
    *b"BODY_CHECKSUM\0\0\0\0\0\0\0\0\0\0",
    *b"HEADER_CHECKSUM\0\0\0\0\0\0\0\0",
    *b"BODY_OFFSET\0\0\0\0\0\0\0\0\0\0\0\0",
    *b"SOURCE\0\0\0\0\0\0\0\0\0\0\0\0\0\0\0\0\0",
    *b"AX25_UPLOADER\0\0\0\0\0\0\0\0\0\0",
    *b"UPLOAD_TIME\0\0\0\0\0\0\0\0\0\0\0\0",
    *b"DOWNLOAD_COUNT\0\0\0\0\0\0\0\0\0",
    *b"DESTINATION\0\0\0\0\0\0\0\0\0\0\0\0",
    *b"AX25_DOWNLOADER\0\0\0\0\0\0\0\0",
    *b"DOWNLOAD_TIME\0\0\0\0\0\0\0\0\0\0",
    *b"EXPIRE_TIME\0\0\0\0\0\0\0\0\0\0\0\0",
    *b"PRIORITY\0\0\0\0\0\0\0\0\0\0\0\0\0\0\0",
    *b"COMPRESSION_TYPE\0\0\0\0\0\0\0",
    *b"BBS_MESSAGE_TYPE\0\0\0\0\0\0\0",
    *b"BULLETIN_ID_NUMBER\0\0\0\0\0",
    *b"TITLE\0\0\0\0\0\0\0\0\0\0\0\0\0\0\0\0\0\0",
    *b"KEYWORDS\0\0\0\0\0\0\0\0\0\0\0\0\0\0\0",
    *b"FILE_DESCRIPTION\0\0\0\0\0\0\0",
    *b"COMPRESSION_DESCRIPTION",
    *b"USER_FILE_NAME\0\0\0\0\0\0\0\0\0",
];

const SIZES: [usize; 28] = [
    11, 9, 8, 9, 11, 18, 8, 9, 13, 15, 11, 6, 13, 11, 14, 11, 15, 13, 11, 8, 16, 16, 18, 5, 8, 16,
    23, 14,
];

const IDS: [u16; 28] = [
    1, 2, 3, 4, 5, 6, 7, 8, 9, 10, 11, 16, 17, 18, 19, 20, 21, 22, 23, 24, 25, 32, 33, 34, 35, 36,
    37, 38,
];

const WIDTHS: [u8; 28] = [
    4, 1, 1, 4, 4, 4, 1, 1, 2, 2, 2, 1, 1, 4, 1, 1, 1, 4, 4, 1, 1, 1, 1, 1, 1, 1, 1, 1,
];

// The names' first letters, as small ones. A constant table is made anew by each function that reads it, and this one is short.
const FIRSTS: [u8; 28] = [
    102, 102, 102, 102, 99, 108, 115, 102, 98, 104, 98, 115, 97, 117, 100, 100, 97, 100, 101, 112,
    99, 98, 98, 116, 107, 102, 99, 117,
];

// The row at a place of the table.
pub fn row_at(k: usize) -> Row
    ensures { result ≡ row_at k }
{
    if 27 < k {
        return Row {
            letters: [0u8; 23],
            size: 0,
            id: 0,
            width: 1,
        };
    }
    Row {
        letters: NAMES[k],
        size: SIZES[k],
        id: IDS[k],
        width: WIDTHS[k],
    }
}

// The row of an id.
pub fn row_of(id: u16) -> Row
    ensures { result ≡ row_of id }
{
    for k in 0..28 {
        let row = row_at(k);
        if row.id == id {
            return row;
        }
    }
    row_at(28)
}

// How many letters of a name a text begins with, in either case.
fn shared_letters(letters: &[u8], text: &[u8]) -> usize
    ensures { result ≡ shared (map lower letters.now) text.now }
{
    let mut same = 0;
    for (letter, b) in letters.iter().zip(text) {
        if lowered(*b) != lowered(*letter) {
            return same;
        }
        same += 1;
    }
    same
}

// A text shares a letter at least with the name at a place.
fn shares_a_letter(k: usize, text: &[u8]) -> bool
    requires { k ≤ 27 }
    ensures { result ≡ ltb 0 (shared (small (get_or items k nameless)) text.now) }
{
    if text.len() == 0 {
        return false;
    }
    lowered(text[0]) == FIRSTS[k]
}

// The name that a text begins with, by its id and its length. Refused by how many bytes of the text a name begins with: there it is wrong.
pub fn find_name(text: &[u8]) -> Result<(u16, usize), usize>
    ensures { result ≡ found text.now }
{
    let mut most = 0;
    for k in 0..28 {
        if shares_a_letter(k, text) {
            let row = row_at(k);
            let letters = row.letters;
            let size = row.size;
            let same = shared_letters(&letters[..size], text);
            if same == size {
                return Ok((row.id, size));
            }
            most = most.max(same);
        }
    }
    Err(most)
}
