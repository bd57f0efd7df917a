// The words of the new plan, written to the lent output.
ghost use Rattle.std.specs.Prelude.{◌≡◌, ◌++◌, length, drop};
ghost use Rattle.plan.specs.Words as spec;
ghost use Rattle.plan.specs.Words.{total};
ghost use Rattle.pages.specs.Output.{table, Writable};

use crate::page::Page;
use plan::words::tables;

// Words written over as many others. Word by word: for the few widths of a plan's tables no call is worth it.
fn copy_words(from: &[u32], to: &mut [u32])
    requires { length from.now ≡ length to.old }
    ensures { to.new ≡ from.now }
{
    for k in 0..from.len() {
        to[k] = from[k];
    }
}

impl Page {
    // How many words a plan with the tables of words and what is written has.
    pub fn total_words(&self, words: &[u32]) -> usize
        ensures { result ≡ total (spec.tables words.now) self.now.node_count self.now.item_count }
    {
        8 + tables(words) as usize + 6 * self.node_count as usize + 7 * self.item_count as usize
    }

    // Header, table widths, nodes and items.
    pub fn write_table(&self, words: &[u32], out: &mut [u32])
        requires { Writable words.now self.now.node_count self.now.item_count (length out.old) }
        ensures { out.new ≡ table words.now self.now
            ++ drop (total (spec.tables words.now) self.now.node_count self.now.item_count) out.old }
    {
        let t = tables(words);
        let n = self.node_count;
        let i = self.item_count;
        let at_nodes = 8 + t;
        let at_items = at_nodes + 6 * n;
        let total = at_items + 7 * i;
        let header = [total, t, 8, n, at_nodes, i, at_items, 0];
        out[..8].copy_from_slice(&header);
        copy_words(&words[8..at_nodes as usize], &mut out[8..at_nodes as usize]);
        out[at_nodes as usize..at_items as usize].copy_from_slice(
            self.nodes[..n as usize].as_flattened(),
        );
        out[at_items as usize..total as usize].copy_from_slice(
            self.items[..i as usize].as_flattened(),
        );
    }
}
