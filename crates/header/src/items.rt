// The items of a header, one at a time.
ghost use Rattle.std.specs.Prelude.{◌≡◌, drop};
ghost use Rattle.header.specs.Items.{head_of};

// What stands at a place: neither an item nor the end mark; the end mark; an item, by its id and its data's length.
#[derive(Clone, Copy)]
pub enum Head {
    Broken,
    End,
    Item(u16, usize),
}

// The head of the item at a place.
pub fn read_head(bytes: &[u8], at: usize) -> Head
    ensures { result ≡ head_of (drop at bytes.now) }
{
    if bytes.len() < 3 {
        return Head::Broken;
    }
    if bytes.len() - 3 < at {
        return Head::Broken;
    }
    let id = numbers::number16(bytes[at], bytes[at + 1]);
    let n = bytes[at + 2] as usize;
    if id == 0 {
        if n == 0 {
            return Head::End;
        }
        return Head::Broken;
    }
    if bytes.len() - 3 - at < n {
        return Head::Broken;
    }
    Head::Item(id, n)
}
