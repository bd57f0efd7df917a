// Group: one row per distinct key list, in order of first appearance; without keys one row.
ghost use Rattle.std.specs.Prelude.{◌≡◌, true, [], ◌∷◌, map, ◌+◌, ◌*◌, ◌≤◌, length};
ghost use Rattle.algebra.specs.Operators as algebra;
ghost use Rattle.algebra.specs.Operators.{groups_by};
ghost use Rattle.plan.specs.Words.{items_from};
ghost use Rattle.plan.specs.Items.{position_of};
ghost use Rattle.store.specs.Cells.{InRange};
ghost use Rattle.store.specs.Rows.{Before, rows_of};
ghost use Rattle.operators.specs.Lent.{space};
ghost use Rattle.operators.specs.Choice.{aggregates_from};
ghost use Rattle.operators.specs.Made.{Makes};

use crate::aggregate::write_aggregates;
use crate::choice::choose_all;
use crate::columns::read_positions;
use crate::context::Items;
use crate::fault::Fault;
use crate::keys::{pick_row, split};
use plan::Plan;
use store::MOST_ROWS;
use store::rows::{Block, rows};

// Without keys: the aggregates over all rows.
pub fn group_all(
    words: &[u32],
    aggregates: Items,
    limit: u32,
    cells: &[i64],
    b: Block,
    to: usize,
    found: &mut [u16],
    scratch: &mut [i64],
) -> Result<u32, Fault>
    requires room { let s = space cells.now scratch.old in
        (aggregates.first + aggregates.count ≤ 2000) × (to + aggregates.count ≤ length s.scratch) × (1 ≤ limit) }
    requires before { let s = space cells.now scratch.old in
        Before s.cells to b × (b.count ≤ 4096) × (b.width ≤ 64)
        × InRange (rows_of s.cells s.scratch b) × (length found.old ≡ 4096) }
    ensures { let s = space cells.now scratch.old in
        Makes limit (algebra.aggregates (aggregates_from words.now aggregates.first aggregates.count) (rows_of s.cells s.scratch b) ∷ [])
        to s.scratch scratch.new result }
{
    choose_all(found, b.count);
    write_aggregates(words, aggregates, cells, b, &found[..b.count], to, scratch)?;
    Ok(1)
}

// The keys, then the aggregates, for each distinct key list.
pub fn group_by(
    words: &[u32],
    keys: Items,
    aggregates: Items,
    limit: u32,
    cells: &[i64],
    b: Block,
    to: usize,
    found: &mut [u16],
    scratch: &mut [i64],
) -> Result<u32, Fault>
    requires room { let s = space cells.now scratch.old in
        (keys.first + keys.count ≤ 2000) × (aggregates.first + aggregates.count ≤ 2000)
        × (keys.count + aggregates.count ≤ 64) × (to + b.count * (keys.count + aggregates.count) ≤ length s.scratch) × (b.count ≤ limit) × (limit ≤ 4096) }
    requires before { let s = space cells.now scratch.old in
        Before s.cells to b × (b.width ≤ 64)
        × InRange (rows_of s.cells s.scratch b) × (length found.old ≡ 4096) }
    ensures { let s = space cells.now scratch.old in
        Makes limit (groups_by (map position_of (items_from words.now keys.first keys.count))
        (aggregates_from words.now aggregates.first aggregates.count) (rows_of s.cells s.scratch b))
        to s.scratch scratch.new result }
{
    let mut positions = [0u32; Plan::WIDTH as usize];
    read_positions(words, keys, &mut positions);
    let keyed = &positions[..keys.count as usize];
    let mut rest = [0u16; MOST_ROWS as usize];
    choose_all(&mut rest, b.count);
    let width = keys.count as usize + aggregates.count as usize;
    let mut left = b.count;
    let mut groups = 0;
    while 0 < left {
        let k = rest[0] as usize;
        let parts = split(
            rows(cells, scratch, b),
            b.width,
            keyed,
            k,
            &mut rest,
            left,
            found,
        );
        let at = to + groups as usize * width;
        pick_row(cells, b, k, keyed, at, scratch);
        write_aggregates(
            words,
            aggregates,
            cells,
            b,
            &found[..parts.members],
            at + keyed.len(),
            scratch,
        )?;
        left = parts.others;
        groups += 1;
    }
    Ok(groups)
}
