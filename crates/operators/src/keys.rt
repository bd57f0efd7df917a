// The columns of a row at some positions, and the rows that have the same there.
ghost use Rattle.std.specs.Prelude.{◌≡◌, not, map, ◌+◌, ◌*◌, ◌≤◌, ◌<◌, length, take, get_or};
ghost use Rattle.algebra.specs.Lists.{keep};
ghost use Rattle.algebra.specs.Value.{null};
ghost use Rattle.algebra.specs.Operators.{picked};
ghost use Rattle.store.specs.Cells.{value, cell, written};
ghost use Rattle.store.specs.Rows.{row_of, Input};
ghost use Rattle.operators.specs.Lent.{space};
ghost use Rattle.operators.specs.Choice.{There, Below, same_key};

use store::cells::NULL;
use store::rows::{Block, row};

// The cell of column p of a row, null where there is none.
fn cell_at(row: &[i64], p: usize) -> i64
    ensures { value result ≡ get_or (map value row.now) p null }
{
    if p < row.len() { row[p] } else { NULL }
}

// The columns at some positions of row i of a block, written from place to on.
pub fn pick_row(
    cells: &[i64],
    b: Block,
    i: usize,
    positions: &[u32],
    to: usize,
    scratch: &mut [i64],
)
    requires { let s = space cells.now scratch.old in
        Input s.cells to b × (i < b.count) × (to + length positions.now ≤ length s.scratch) }
    ensures { let s = space cells.now scratch.old in
        scratch.new
        ≡ written s.scratch to (map cell (picked positions.now (row_of s.cells s.scratch b i))) }
{
    for k in 0..positions.len() {
        let x = cell_at(row(cells, scratch, b, i), positions[k] as usize);
        scratch[to + k] = x;
    }
}

// Whether rows k and i have the same cells at some positions.
fn same_key(rows: &[i64], width: usize, positions: &[u32], k: usize, i: usize) -> bool
    requires { (k * width + width ≤ length rows.now) × (i * width + width ≤ length rows.now)
        × (width ≤ 64) × (k < 4096) × (i < 4096) }
    ensures { result ≡ same_key rows.now width positions.now k i }
{
    let a = &rows[k * width..k * width + width];
    let b = &rows[i * width..i * width + width];
    for p in positions {
        if cell_at(a, *p as usize) != cell_at(b, *p as usize) {
            return false;
        }
    }
    true
}

#[derive(Clone, Copy)]
pub struct Parts {
    pub members: usize,
    pub others: usize,
}

// Of the first n numbers in rest those whose rows have the key of row k go to found, the others stay.
pub fn split(
    rows: &[i64],
    width: usize,
    positions: &[u32],
    k: usize,
    rest: &mut [u16],
    n: usize,
    found: &mut [u16],
) -> Parts
    requires width_in_bounds { (width ≤ 64) × (k < 4096) × (k * width + width ≤ length rows.now) }
    requires n_in_bounds { (n ≤ length rest.old) × (n ≤ length found.old) × There rows.now width (take n rest.old) × Below 4096 (take n rest.old) }
    ensures { (take result.members found.new
        ≡ keep (same_key rows.now width positions.now k) (take n rest.old))
        × (take result.others rest.new
        ≡ keep (λ i. not (same_key rows.now width positions.now k i)) (take n rest.old))
        × (result.members ≤ n) × (result.others ≤ n) }
{
    let mut members = 0;
    let mut others = 0;
    for i in 0..n {
        let x = rest[i];
        if same_key(rows, width, positions, k, x as usize) {
            found[members] = x;
            members += 1;
        } else {
            rest[others] = x;
            others += 1;
        }
    }
    Parts { members, others }
}
