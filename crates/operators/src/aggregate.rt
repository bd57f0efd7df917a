// Aggregates over chosen rows, from the last row to the first as the definitions go.
ghost use Rattle.std.specs.Prelude.{◌≡◌, true, map, [], ◌+◌, ◌≤◌, length};
ghost use Rattle.algebra.specs.Operators as algebra;
ghost use Rattle.algebra.specs.Operators.{summed, better, best, column_of, aggregated};
ghost use Rattle.plan.specs.Codes.{meant_aggregate};
ghost use Rattle.store.specs.Cells.{value, InRange};
ghost use Rattle.store.specs.Rows.{row_of, Input};
ghost use Rattle.operators.specs.Lent.{space};
ghost use Rattle.operators.specs.Choice.{There, Ranged, chosen, aggregates_from, in_order, Below};
ghost use Rattle.operators.specs.Made.{Puts};

use crate::context::Items;
use crate::fault::Fault;
use plan::sorts::Aggregate;
use store::cells::{NULL, in_range};
use store::rows::{Block, rows};

// The sum of column p; null of no numbers.
fn sum_of(rows: &[i64], width: usize, p: usize, found: &[u16]) -> i64
    requires { (length found.now ≤ 4096) × There rows.now width found.now
        × (width ≤ 64) × Ranged rows.now width found.now }
    ensures { value result ≡ summed (column_of p (chosen rows.now width found.now)) }
{
    if width <= p {
        return NULL;
    }
    let mut sum = None;
    for i in (0..found.len()).rev() {
        let x = rows[found[i] as usize * width + p];
        if x != NULL {
            sum = Some(sum.unwrap_or(0) + x);
        }
    }
    sum.unwrap_or(NULL)
}

// Which of two numbers comes first.
#[derive(Clone, Copy)]
enum Order {
    Least,
    Greatest,
}

// The number of column p that comes first; null of no numbers.
fn best_of(rows: &[i64], width: usize, p: usize, found: &[u16], order: Order) -> i64
    requires { There rows.now width found.now × (width ≤ 64) }
    ensures { value result ≡ best (in_order order) (column_of p (chosen rows.now width found.now)) }
{
    let mut answer = NULL;
    if width <= p {
        return answer;
    }
    for i in (0..found.len()).rev() {
        answer = better_cell(rows[found[i] as usize * width + p], answer, order);
    }
    answer
}

// Of two cells the one that comes first; a null gives way.
fn better_cell(a: i64, b: i64, order: Order) -> i64
    ensures { value result ≡ better (in_order order) (value a) (value b) }
{
    if a == NULL {
        return b;
    }
    if b == NULL {
        return a;
    }
    match order {
        Order::Least => a.min(b),
        Order::Greatest => b.max(a),
    }
}

// An aggregate over chosen rows.
fn aggregate_cell(aggregate: Aggregate, rows: &[i64], width: usize, found: &[u16]) -> i64
    requires { (length found.now ≤ 4096) × There rows.now width found.now
        × (width ≤ 64) × Ranged rows.now width found.now }
    ensures { value result ≡ aggregated (meant_aggregate aggregate) (chosen rows.now width found.now) }
{
    match aggregate {
        Aggregate::Count => found.len() as i64,
        Aggregate::Sum(p) => sum_of(rows, width, p as usize, found),
        Aggregate::Minimum(p) => best_of(rows, width, p as usize, found, Order::Least),
        Aggregate::Maximum(p) => best_of(rows, width, p as usize, found, Order::Greatest),
    }
}

// The aggregates over chosen rows of a block, written from place to on.
pub fn write_aggregates(
    words: &[u32],
    aggregates: Items,
    cells: &[i64],
    b: Block,
    found: &[u16],
    to: usize,
    scratch: &mut [i64],
) -> Result<(), Fault>
    requires room { let s = space cells.now scratch.old in
        (aggregates.first + aggregates.count ≤ 2000) × (to + aggregates.count ≤ length s.scratch) }
    requires input { let s = space cells.now scratch.old in
        Input s.cells to b × (length found.now ≤ 4096) × Below b.count found.now
        × InRange (map (row_of s.cells s.scratch b) found.now) }
    ensures { let s = space cells.now scratch.old in
        Puts [] (algebra.aggregates (aggregates_from words.now aggregates.first aggregates.count)
        (map (row_of s.cells s.scratch b) found.now)) to s.scratch scratch.new result }
{
    for i in 0..aggregates.count {
        let aggregate = Aggregate::of(words, aggregates.first + i);
        let x = aggregate_cell(aggregate, rows(cells, scratch, b), b.width, found);
        if !in_range(x) {
            return Err(Fault::OutOfRange);
        }
        scratch[to + i as usize] = x;
    }
    Ok(())
}
