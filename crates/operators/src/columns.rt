// Output columns: rows with some of the columns of others.
ghost use Rattle.std.specs.Prelude.{◌≡◌, map, ◌+◌, ◌*◌, ◌≤◌, length, take};
ghost use Rattle.algebra.specs.Operators.{picked};
ghost use Rattle.plan.specs.Words.{items_from};
ghost use Rattle.plan.specs.Items.{position_of};
ghost use Rattle.store.specs.Cells.{cells_of, written};
ghost use Rattle.store.specs.Rows.{Before, rows_of};
ghost use Rattle.operators.specs.Lent.{space};

use crate::context::Items;
use crate::keys::pick_row;
use plan::words::position;
use store::rows::Block;

// The columns of items.
pub fn read_positions(words: &[u32], items: Items, positions: &mut [u32])
    requires { (items.first + items.count ≤ 2000) × (items.count ≤ length positions.old) }
    ensures { take items.count positions.new ≡ map position_of (items_from words.now items.first items.count) }
{
    for i in 0..items.count {
        positions[i as usize] = position(words, items.first + i);
    }
}

// The columns at some positions of every row.
pub fn pick_rows(cells: &[i64], b: Block, positions: &[u32], to: usize, scratch: &mut [i64])
    requires { let s = space cells.now scratch.old in
        Before s.cells to b × (b.count ≤ 4096) × (b.width ≤ 64)
        × (length positions.now ≤ 64) × (to + b.count * length positions.now ≤ length s.scratch) }
    ensures { let s = space cells.now scratch.old in
        scratch.new
        ≡ written s.scratch to (cells_of (map (picked positions.now) (rows_of s.cells s.scratch b))) }
{
    for i in 0..b.count {
        pick_row(cells, b, i, positions, to + i * positions.len(), scratch);
    }
}
