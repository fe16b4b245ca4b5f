// Parts of a slice between two places, with both cut to what the slice has.
ghost use Rattle.std.specs.Prelude.{◌≡◌, ◌≤◌, if◌then◌else◌, nat_lt};
ghost use Rattle.input.specs.Parts.{rest_of};

// The smaller of two numbers.
pub fn least(a: usize, b: usize) -> usize
    ensures { (result ≤ a) × (result ≤ b) × (result ≡ (if nat_lt a b then a else b)) }
{
    a.min(b)
}

// How many bytes there are from a place to another, of `size` bytes lent.
#[tactic(auto, unfolding(crate::specs::Parts::rest_of))]
pub fn rest(at: usize, end: usize, size: usize) -> usize
    ensures { result ≡ rest_of at end size }
{
    end.min(size).saturating_sub(at)
}
