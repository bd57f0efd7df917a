// Cells: null is the lowest number, the others lie within 2^47 - 1 of zero.
ghost use Rattle.std.specs.Prelude.{◌≡◌, ◌+◌, ◌≤◌, length, take, drop};
ghost use Rattle.algebra.specs.Lists.{all};
ghost use Rattle.store.specs.Cells.{value, in_range, written};

pub const NULL: i64 = -9223372036854775808;

pub const LARGEST: i64 = 140737488355327;

pub fn in_range(x: i64) -> bool
    ensures { result ≡ in_range (value x) }
{
    x == NULL || (-LARGEST <= x && x <= LARGEST)
}

pub fn all_in_range(cells: &[i64]) -> bool
    ensures { result ≡ all (λ z. in_range (value z)) cells.now }
{
    cells.iter().all(|x| in_range(*x))
}

// count cells of from, from place at on, to place to of s. Cell by cell: most rows are narrow, and a call for each would take longer.
pub fn copy_cells(from: &[i64], at: usize, s: &mut [i64], to: usize, count: usize)
    requires { (at + count ≤ length from.now) × (to + count ≤ length s.old) }
    ensures { s.new ≡ written s.old to (take count (drop at from.now)) }
{
    for i in 0..count {
        s[to + i] = from[at + i];
    }
}

// The same within s, from an earlier place to a later one.
pub fn copy_within(s: &mut [i64], at: usize, to: usize, count: usize)
    requires { (at + count ≤ to) × (to + count ≤ length s.old) }
    ensures { s.new ≡ written s.old to (take count (drop at s.old)) }
{
    for i in 0..count {
        s[to + i] = s[at + i];
    }
}
