// Three words for each node: its width, its reach, and where its rows begin. Then one for each table: how many rows it has.
ghost use Rattle.std.specs.Prelude.{◌≡◌, true, ◌*◌, ◌<◌, ◌≤◌, leb, length, get_or};
ghost use Rattle.algebra.specs.Lists.{all};
ghost use Rattle.plan.specs.Words as spec;
ghost use Rattle.plan.specs.Verdict.{is_open};
ghost use Rattle.plan.specs.Promise.{Accepted};
ghost use Rattle.plan.specs.Passes.{Widths, Reaches};
ghost use Rattle.store.specs.Database.{table_start};
ghost use Rattle.store.specs.Widest.{widest};
ghost use Rattle.store.specs.Store.{Shaped, Laid, block_of, row_counts};

use crate::database::table_start;
use crate::rows::Block;
use plan::operator::Operator;
use plan::words::{left, nodes};
use plan::{PerNode, Plan};

// The widest row of the plan.
pub fn widest_row(words: &[u32], widths: &PerNode) -> u32
    requires { Widths words.now widths.now × (spec.nodes words.now ≤ 256) }
    ensures { result ≡ widest words.now }
{
    let widths = &widths[..nodes(words) as usize];
    widths.iter().copied().max().unwrap_or(0)
}

// Where the rows of node n begin; area is what each node has of scratch.
fn start(words: &[u32], counts: &[u32], area: u32, n: u32) -> u32
    requires { Accepted words.now × (n < spec.nodes words.now) × (length counts.now ≡ spec.tables words.now)
        × (all (λ c. leb c 4096) counts.now ≡ true) × (area ≤ 262144) }
    ensures { (spec.operator words.now n ≡ 1 → result ≡ table_start words.now counts.now (spec.left words.now n))
        × ((spec.operator words.now n ≡ 1 → ⊥) → result ≡ n * area) }
{
    if Operator::of(words, n) == Operator::Scan {
        return table_start(words, counts, left(words, n)) as u32;
    }
    n * area
}

// Where the tables' row counts begin.
const COUNTS: usize = 3 * Plan::NODES as usize;

// The words of a layout.
pub const WORDS: usize = COUNTS + Plan::TABLES as usize;

pub fn work_out_layout(
    words: &[u32],
    counts: &[u32],
    limit: u32,
    widths: &PerNode,
    reaches: &PerNode,
    layout: &mut [u32],
)
    requires { Accepted words.now × (length counts.now ≡ spec.tables words.now) × (all (λ c. leb c 4096) counts.now ≡ true)
        × (limit ≤ 4096) × Widths words.now widths.now × Reaches words.now reaches.now × (length layout.old ≡ 784) }
    ensures { Laid words.now counts.now limit layout.new }
{
    layout[COUNTS..COUNTS + counts.len()].copy_from_slice(counts);
    let area = limit * widest_row(words, widths);
    for n in 0..nodes(words) {
        let i = n as usize;
        layout[3 * i] = widths[i];
        layout[3 * i + 1] = reaches[i];
        layout[3 * i + 2] = start(words, counts, area, n);
    }
}

// The rows of table t.
pub fn row_count(words: &[u32], layout: &[u32], t: u32) -> u32
    requires { Shaped words.now layout.now × (spec.tables words.now ≤ 16) × (t < spec.tables words.now) }
    ensures { result ≡ get_or (row_counts words.now layout.now) t 0 }
{
    layout[COUNTS + t as usize]
}

pub fn is_open_node(words: &[u32], layout: &[u32], n: u32) -> bool
    requires { Shaped words.now layout.now × (spec.nodes words.now ≤ 256) × (n < spec.nodes words.now) }
    ensures { result ≡ is_open words.now n }
{
    layout[3 * n as usize + 1] != 0
}

// The rows of node n, where they stand.
pub fn block_of(words: &[u32], layout: &[u32], sizes: &[u32], n: u32) -> Block
    requires { Shaped words.now layout.now × (spec.nodes words.now ≤ 256) × (n < spec.nodes words.now)
        × (length sizes.now ≡ 256) }
    ensures { result ≡ block_of words.now layout.now sizes.now n }
{
    let at = 3 * n as usize;
    Block {
        table: Operator::of(words, n) == Operator::Scan,
        from: layout[at + 2] as usize,
        width: layout[at] as usize,
        count: sizes[n as usize] as usize,
    }
}
