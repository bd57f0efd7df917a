// Refusal 10, and where the tables' cells begin.
ghost use Rattle.std.specs.Prelude.{◌≡◌, true, ◌≤◌, leb, length};
ghost use Rattle.algebra.specs.Lists.{all};
ghost use Rattle.plan.specs.Words as spec;
ghost use Rattle.plan.specs.Promise.{Sized};
ghost use Rattle.store.specs.Database.{table_start, database_right};

use crate::MOST_ROWS;
use crate::cells::all_in_range;
use plan::words::{table_width, tables};

// Every row count is within the limit.
fn counts_right(counts: &[u32]) -> bool
    ensures { result ≡ all (λ c. leb c 4096) counts.now }
{
    counts.iter().all(|c| *c <= MOST_ROWS)
}

// Where the cells of table t begin.
pub fn table_start(words: &[u32], counts: &[u32], t: u32) -> usize
    requires { Sized words.now × (t ≤ spec.tables words.now)
        × (length counts.now ≡ spec.tables words.now) × (all (λ c. leb c 4096) counts.now ≡ true) }
    ensures { (result ≡ table_start words.now counts.now t) × (result ≤ 4194304) }
{
    let mut at: usize = 0;
    for i in 0..t {
        at += counts[i as usize] as usize * table_width(words, i) as usize;
    }
    at
}

pub fn database_right(words: &[u32], counts: &[u32], cells: &[i64]) -> bool
    requires { Sized words.now }
    ensures { result ≡ database_right words.now counts.now cells.now }
{
    if counts.len() != tables(words) as usize {
        return false;
    }
    if !counts_right(counts) {
        return false;
    }
    if cells.len() != table_start(words, counts, tables(words)) {
        return false;
    }
    all_in_range(cells)
}
