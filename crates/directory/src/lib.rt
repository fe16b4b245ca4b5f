// The files that a directory names: one, or the next ones of the session's selection. A directory keeps which they are until its DATA_END goes out.
// Both functions take any numbers and slices of any length.
#![tactic(auto)]

ghost use Rattle.std.specs.Prelude.{◌≡◌, ◌-◌, min, length, get_or, None};
ghost use Rattle.table.specs.Table.{files};
ghost use Rattle.directory.specs.Directory.{found_in};

use session::state::Listed;

// How many selected numbers from one on lie before the session's place in the selection.
fn selected_count(first: usize, next: usize, size: usize) -> usize
    ensures { result ≡ min next size - first }
{
    if size < next {
        if size < first {
            return 0;
        }
        return size - first;
    }
    if next < first {
        return 0;
    }
    next - first
}

// How many files a directory names; `next` is the session's place in its selection.
pub fn count(listed: Listed, next: usize, table: &[u32], selected: &[u32]) -> usize
    ensures { result ≡ length (found_in listed next (files table.now) selected.now) }
{
    match listed {
        Listed::One(_) => 1,
        Listed::Selected(first) => selected_count(first, next, selected.len()),
    }
}

// Where its file k is, counted from 0; nowhere past the last one.
pub fn found_at(
    listed: Listed,
    next: usize,
    k: usize,
    table: &[u32],
    selected: &[u32],
) -> Option<usize>
    ensures { result ≡ get_or (found_in listed next (files table.now) selected.now) k None }
{
    match listed {
        Listed::One(place) => {
            if k == 0 {
                return Some(place);
            }
            None
        }
        Listed::Selected(first) => {
            if k < selected_count(first, next, selected.len()) {
                return table::find(table, selected[first + k]);
            }
            None
        }
    }
}
