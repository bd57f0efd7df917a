// One place of a lent slice.
ghost use Rattle.std.specs.Prelude.{◌≡◌, get_or, set};

// The byte at a place, 0 past the end.
pub fn byte(text: &[u8], at: usize) -> u8
    ensures { result ≡ get_or text.now at 0 }
{
    text.get(at).copied().unwrap_or(0)
}

// A value stored, where the slice has the place.
pub fn put<T: Copy>(to: &mut [T], at: usize, value: T)
    ensures { to.new ≡ set to.old at value }
{
    // By index, since no contract says what a write through get_mut leaves.
    if at < to.len() {
        to[at] = value;
    }
}
