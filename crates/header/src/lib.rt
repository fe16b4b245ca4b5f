// File headers: what stands in a file's first bytes, whether DATA_END accepts the file, and the fields that the server sets.
// Each answer is a definition of specs/Header.antt or specs/Fields.antt over the list of the file's bytes, whatever the bytes are.
// A file in one piece is read by the functions here; a file in several pieces by `scan`, of which they are made.
#![tactic(auto)]

pub mod fields;
pub mod items;
pub mod scan;

ghost use Rattle.std.specs.Prelude.{◌≡◌, ◌≤◌, length, take};
ghost use Rattle.refusal.specs.Refusal.{number_of, numbered};
ghost use Rattle.numbers.specs.Numbers.{stored_at};
ghost use Rattle.header.specs.Header.{verdict, check_items, header_sum, header_of};
ghost use Rattle.header.specs.Fields.{server_set, with_fields, fields_set, Settable};

use fields::FieldRow;
use refusal::Refusal;
use scan::Header;

// The checks of DATA_END on a file that was announced as so many bytes. One pass.
pub fn check(file: &[u8], announced: u32) -> Result<(), Refusal>
    ensures { number_of result ≡ verdict file.now announced }
{
    let s = scan::feed(scan::start(18), file);
    scan::verdict_of(s, file.len(), announced)
}

// What a file's header says, with the place of the first item with an id. Only the header's bytes are looked at.
pub fn read_header(file: &[u8], want: u16) -> Result<Header, Refusal>
    ensures { numbered result ≡ header_of want file.now }
{
    scan::header_of(scan::feed_header(scan::start(want), file))
}

// Stores a row. Where it does not fit nothing is stored, and the contract says so; so the refusal says nothing more.
fn write_row(file: &mut [u8], row: FieldRow)
    requires { row.size ≤ length row.bytes }
    ensures { file.new ≡ stored_at file.old row.at (take row.size row.bytes) }
{
    let _ = numbers::store(file, row.at, &row.bytes[..row.size]);
}

// Stores the rows, one by one.
fn write_rows(file: &mut [u8], number: u32, time: u32, upload: usize)
    requires { Settable file.old upload }
    ensures { file.new ≡ with_fields (server_set number time) file.old }
{
    for k in 0..fields::ROWS {
        write_row(file, fields::row_at(k, number, time, upload));
    }
}

// The sum of a header whose items are not refused.
fn sum_of(file: &[u8]) -> u16
    requires { check_items file.now ≡ 0 }
    ensures { result ≡ header_sum file.now }
{
    scan::header_sum(scan::feed_header(scan::start(10), file))
}

// Sets file_number, file_name, last_modified_time, upload_time and header_checksum; or 7, 14 or 6 and nothing written where DATA_END
// refuses the items. Where it does not, 01 to 0b have fixed places, and only upload_time is looked for.
pub fn set_fields(file: &mut [u8], number: u32, time: u32) -> Result<(), Refusal>
    ensures value { number_of result ≡ check_items file.old }
    ensures file_after { file.new ≡ fields_set number time file.old }
{
    let header = read_header(file, 18)?;
    write_rows(file, number, time, header.place.at);
    let sum = sum_of(file);
    // not refused: a header whose items are not has these bytes
    let _ = numbers::write16(file, 63, sum);
    Ok(())
}
