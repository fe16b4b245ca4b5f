// One relation against the bytes of one item.
ghost use Rattle.std.specs.Prelude.{◌≡◌, ◌≤◌, length};
ghost use Rattle.numbers.specs.Numbers.{number};
ghost use Rattle.equation.specs.Relation.{width, compare, text_meets, number_meets, meets};

// The number of up to four bytes, the low one first.
fn value(bytes: &[u8]) -> u64
    requires { length bytes.now ≤ 4 }
    ensures { result ≡ number bytes.now }
{
    let mut v = 0;
    for b in bytes.iter().rev() {
        v = u64::from(*b) + 256 * v;
    }
    v
}

// So many bytes are a number.
#[tactic(auto, unfolding(crate::specs::Relation::width))]
pub(crate) fn number_width(n: usize) -> bool
    ensures { result ≡ width n }
{
    matches!(n, 1 | 2 | 4)
}

// The file's number against the constant's.
#[tactic(auto, unfolding(crate::specs::Relation::compare))]
fn relate(operator: u8, a: u64, b: u64) -> bool
    ensures { result ≡ compare operator a b }
{
    match operator {
        0 => a == b,
        1 => b < a,
        2 => a < b,
        3 => a != b,
        4 => b <= a,
        5 => a <= b,
        _ => false,
    }
}

#[tactic(auto, unfolding(crate::specs::Relation::text_meets))]
fn text_meets(operator: u8, constant: &[u8], item: &[u8]) -> bool
    ensures { result ≡ text_meets operator constant.now item.now }
{
    let met = text::text_matches(constant, item);
    match operator {
        0 => met,
        3 => !met,
        _ => false,
    }
}

#[tactic(auto, unfolding(crate::specs::Relation::number_meets))]
fn number_meets(operator: u8, constant: &[u8], item: &[u8]) -> bool
    ensures { result ≡ number_meets operator constant.now item.now }
{
    number_width(constant.len())
        && number_width(item.len())
        && relate(operator, value(item), value(constant))
}

// An item's bytes meet a relation, given as its first byte and its constant.
#[tactic(auto, unfolding(crate::specs::Relation::meets))]
pub fn item_meets(code: u8, constant: &[u8], item: &[u8]) -> bool
    ensures { result ≡ meets code constant.now item.now }
{
    let operator = code / 16 % 8;
    match code % 16 {
        0 => number_meets(operator, constant, item),
        3 => text_meets(operator, constant, item),
        _ => false,
    }
}
