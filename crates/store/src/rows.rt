// The rows of a node: in the database cells for a scan, in scratch for the others.
ghost use Rattle.std.specs.Prelude.{◌≡◌, cond, map, ◌+◌, ◌*◌, ◌-◌, ◌≤◌, ◌<◌, length, take, drop};
ghost use Rattle.store.specs.Cells.{cell, written};
ghost use Rattle.store.specs.Rows.{source, place_of, row_of, Stands, Input};

use crate::cells::{copy_cells, copy_within};

#[derive(Clone, Copy)]
pub struct Block {
    pub table: bool,
    pub from: usize,
    pub width: usize,
    pub count: usize,
}

// A part of either of the two.
fn part<'a>(cells: &'a [i64], scratch: &'a [i64], table: bool, from: usize, to: usize) -> &'a [i64]
    requires { (from ≤ to) × (to ≤ length (cond table cells.now scratch.now)) }
    ensures { result.now ≡ take (to - from) (drop from (cond table cells.now scratch.now)) }
{
    if table {
        return &cells[from..to];
    }
    &scratch[from..to]
}

// Row i of a block.
pub fn row<'a>(cells: &'a [i64], scratch: &'a [i64], b: Block, i: usize) -> &'a [i64]
    requires { Stands cells.now scratch.now b × (i < b.count) }
    ensures { result.now
        ≡ take b.width (drop (place_of b i) (source cells.now scratch.now b)) }
{
    let from = b.from + i * b.width;
    part(cells, scratch, b.table, from, from + b.width)
}

// All rows of a block, one after the other.
pub fn rows<'a>(cells: &'a [i64], scratch: &'a [i64], b: Block) -> &'a [i64]
    requires { Stands cells.now scratch.now b }
    ensures { result.now
        ≡ take (b.count * b.width) (drop b.from (source cells.now scratch.now b)) }
{
    part(cells, scratch, b.table, b.from, b.from + b.count * b.width)
}

// Row i of a block that ends before place to, copied there.
pub fn copy_row(cells: &[i64], b: Block, i: usize, to: usize, scratch: &mut [i64])
    requires { Input cells.now to b × (i < b.count) × (to + b.width ≤ length scratch.old) }
    ensures { scratch.new
        ≡ written scratch.old to (map cell (row_of cells.now scratch.old b i)) }
{
    let from = b.from + i * b.width;
    if b.table {
        copy_cells(cells, from, scratch, to, b.width);
    } else {
        copy_within(scratch, from, to, b.width);
    }
}
