// A domain: its node, its width, and for each level around a set and the width in front of it; None where the level is not read.
ghost use Rattle.std.specs.Prelude.{◌≡◌, ◌<◌, ◌≤◌, IfSome};
ghost use Rattle.std.proofs.Props.{props};
ghost use Rattle.algebra.specs.Domains as algebra;

use crate::sets::ColumnSet;

// A level: which columns are kept of what was there, and where it is read the width in front of its own row.
#[derive(Clone, Copy, Debug, PartialEq, Eq)]
pub struct Level {
    pub columns: ColumnSet,
    pub base: Option<u32>,
    pub ghost narrow: { IfSome base (λ b. b ≤ 64) } by { Prim.hlevel props },
}

#[derive(Clone, Copy, Debug, PartialEq, Eq)]
pub struct Domain {
    pub node: u32,
    pub width: u32,
    pub levels: [Level; 8],
    pub ghost narrow: { width ≤ 64 },
}

impl Domain {
    ghost use Rattle.pages.specs.Domains.{place_in, Means, Inner, Deeper};

    // No domain at all.
    pub fn outside() -> Domain
        ensures { Means result algebra.outside }
    {
        Domain {
            node: 0,
            width: 0,
            levels: [Level {
                columns: ColumnSet::EMPTY,
                base: None,
            }; 8],
        }
    }

    // Where the column at a position of a level stands.
    pub fn place(&self, level: u32, position: u32) -> u32
        requires { (level < 8) × (position < 1000) }
        ensures { result ≡ place_in self.now level position }
    {
        let own = level as usize;
        let Some(base) = self.levels[own].base else {
            return 0;
        };
        let mut place = self.levels[own].columns.rank(base + position);
        for l in (0..own).rev() {
            place = self.levels[l].columns.rank(place);
        }
        place
    }

    // One level more in front.
    fn deeper(&self, node: u32, width: u32, level: Level) -> Domain
        requires { width ≤ 64 }
        ensures { Deeper self.now result node width level }
    {
        let [a, b, c, d, e, f, g, _] = self.levels;
        Domain {
            node,
            width,
            levels: [level, a, b, c, d, e, f, g],
        }
    }

    // The domain that node gives, over the columns of set.
    pub fn inner(&self, node: u32, set: ColumnSet) -> Domain
        ensures { Inner self.now result node set }
    {
        let level = Level {
            columns: set,
            base: Some(self.width),
        };
        self.deeper(node, set.len(), level)
    }

    // The same domain inside a dependent join whose left row is not read.
    pub fn inside(&self) -> Domain
        ensures { (D : algebra.Domain) → Means self.now D → Means result (algebra.inside D) }
    {
        let level = Level {
            columns: ColumnSet::ALL,
            base: None,
        };
        self.deeper(self.node, self.width, level)
    }
}
