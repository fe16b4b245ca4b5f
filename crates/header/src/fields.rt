// The fields that the server sets in a complete file, in one table; header_checksum is not among them, since it is worked out from them.
ghost use Rattle.std.specs.Prelude.{◌≡◌, []};
ghost use Rattle.numbers.specs.Numbers.{four};
ghost use Rattle.numbers.specs.Hex.{eight};
ghost use Rattle.header.specs.Fields.{server_set, row_of, row_at};

use numbers::hex_digit;

// A field: where its data begins, how many bytes it has, and the bytes, with zeros behind them.
#[derive(Clone, Copy)]
pub struct FieldRow {
    pub at: usize,
    pub size: usize,
    pub bytes: [u8; 8],
}

// How many rows the table has.
pub const ROWS: usize = 4;

fn number_row(at: usize, n: u32) -> FieldRow
    ensures { result ≡ row_of at (four n) }
{
    let [a, b, c, d] = n.to_le_bytes();
    FieldRow {
        at,
        size: 4,
        bytes: [a, b, c, d, 0, 0, 0, 0],
    }
}

// A time as a name: eight digits, the highest first.
fn name_row(at: usize, time: u32) -> FieldRow
    ensures { result ≡ row_of at (eight time) }
{
    FieldRow {
        at,
        size: 8,
        bytes: [
            hex_digit((time / 268435456 % 16) as u8),
            hex_digit((time / 16777216 % 16) as u8),
            hex_digit((time / 1048576 % 16) as u8),
            hex_digit((time / 65536 % 16) as u8),
            hex_digit((time / 4096 % 16) as u8),
            hex_digit((time / 256 % 16) as u8),
            hex_digit((time / 16 % 16) as u8),
            hex_digit((time % 16) as u8),
        ],
    }
}

// Row k of the table: file_number, file_name, last_modified_time, upload_time; past the last one a row of no bytes. In a header that DATA_END does not
// refuse 01 to 0b have fixed places, and upload_time's data is at byte `upload`.
#[tactic(auto, using(crate::proofs::Set::no_row), unfolding(crate::specs::Fields::row_at, crate::specs::Fields::place_in, crate::specs::Fields::before, crate::specs::Header::listed, crate::specs::Header::length_in))]
pub fn row_at(k: usize, number: u32, time: u32, upload: usize) -> FieldRow
    ensures { result ≡ row_at upload k (server_set number time) }
{
    match k {
        0 => number_row(5, number),
        1 => name_row(12, time),
        2 => number_row(43, time),
        3 => number_row(upload, time),
        _ => FieldRow {
            at: 0,
            size: 0,
            bytes: [0; 8],
        },
    }
}
