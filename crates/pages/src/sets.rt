// A set of positions below 64 as the bits of a u64.
ghost use Rattle.std.specs.Prelude.{◌≡◌, ◌^◌, ◌<◌, ◌≤◌, eqb, not};
ghost use Rattle.std.specs.Int.Bits.{bit_or};
ghost use Rattle.pages.specs.Sets as spec;

#[derive(Clone, Copy, Debug, PartialEq, Eq)]
pub struct ColumnSet {
    pub bits: u64,
}

impl ColumnSet {
    // How many positions there are.
    pub const SIZE: u32 = u64::BITS;

    pub const EMPTY: ColumnSet = ColumnSet { bits: 0 };

    pub const ALL: ColumnSet = ColumnSet { bits: u64::MAX };

    pub fn with(self, position: u32) -> ColumnSet
        requires { position < 64 }
        ensures { result.bits ≡ bit_or self.bits (2 ^ position) }
    {
        ColumnSet {
            bits: self.bits | (1 << position),
        }
    }

    pub fn union(self, other: ColumnSet) -> ColumnSet
        ensures { result.bits ≡ bit_or self.bits other.bits }
    {
        ColumnSet {
            bits: self.bits | other.bits,
        }
    }

    pub fn contains(self, position: u32) -> bool
        ensures { result ≡ spec.in_set self position }
    {
        position < Self::SIZE && (self.bits >> position) % 2 == 1
    }

    // How many of the set stand below position.
    pub fn rank(self, position: u32) -> u32
        ensures value { result ≡ spec.rank self position }
        ensures upper_bound { result ≤ 64 }
    {
        if position < Self::SIZE {
            return (self.bits % (1 << position)).count_ones();
        }
        self.bits.count_ones()
    }

    pub fn len(self) -> u32
        ensures value { result ≡ spec.rank self 64 }
        ensures upper_bound { result ≤ 64 }
    {
        self.rank(Self::SIZE)
    }

    pub fn is_empty(self) -> bool
        ensures { result ≡ eqb (spec.rank self 64) 0 }
    {
        self.len() == 0
    }
}
