// A text read line by line, its words stored where the slice has their places.
ghost use Rattle.std.specs.Prelude.{◌≡◌, cond, ◌≤◌, ◌<◌, length, drop};
ghost use Rattle.std.proofs.lemmas.List.Edits.{sets};
ghost use Rattle.text.specs.Reading.{constant_in, word_in, header, head_in, table_in};
ghost use Rattle.text.specs.Steps.{counts, FieldRead, LineRead, BodyRead, HeadRead, TableRead};

use crate::form::{Form, Sizes, end_of, is_constant};
use crate::numbers::{Field, constant, word};
use crate::place::put;
use plan::Plan;

// The word at a place of a line.
fn field(text: &[u8], at: usize, form: Form, signed: bool, end: u8) -> Option<Field>
    ensures { let front = drop at text.now in
        FieldRead text.now (cond signed (constant_in end front) (word_in form.low form.high end front)) result }
{
    if signed {
        constant(text, at, end)
    } else {
        word(text, at, form.low, form.high, end)
    }
}

// One line, its words stored from place to on; the place behind it.
fn read_line(text: &[u8], at: usize, form: Form, words: &mut [u32], to: usize) -> Option<usize>
    requires at_in_bounds { at ≤ length text.now }
    requires to_bound { to < 65536 }
    requires count_bound { form.count ≤ 16 }
    ensures { LineRead text.now at form words.old to words.new result }
{
    let count = form.count as usize;
    let mut next = at;
    let mut last = 0;
    let mut before = 0;
    for j in 0..count {
        let signed = is_constant(form.item, j, before);
        let f = field(text, next, form, signed, end_of(j, count))?;
        put(words, to + j, f.word);
        next = f.next;
        before = last;
        last = f.word;
    }
    Some(next)
}

// The lines behind the first, their words stored from place 8 on: the places behind the last
// line and behind the last word, or the number of a line that is bad.
fn read_body(text: &[u8], at: usize, s: Sizes, words: &mut [u32]) -> Result<(usize, usize), u32>
    requires { at ≤ length text.now }
    ensures { BodyRead text.now at (counts s) words.old words.new result }
{
    let mut next = at;
    let mut to = 8;
    for k in 0..s.line_count() {
        let form = s.form_at(k);
        next = read_line(text, next, form, words, to).ok_or(2 + k)?;
        to += form.count as usize;
    }
    Ok((next, to))
}

// T, N and I, and the place behind them.
fn read_head(text: &[u8]) -> Option<(Sizes, usize)>
    ensures { HeadRead text.now result }
{
    let tables = word(text, 0, 1, Plan::TABLES, b' ')?;
    let nodes = word(text, tables.next, 1, Plan::NODES, b' ')?;
    let items = word(text, nodes.next, 0, Plan::ITEMS, b'\n')?;
    let s = Sizes {
        tables: tables.word,
        nodes: nodes.word,
        items: items.word,
    };
    Some((s, items.next))
}

// The eight words in front, which T, N and I give.
fn put_header(words: &mut [u32], s: Sizes)
    ensures { words.new ≡ sets words.old 0 (header (counts s)) }
{
    let at_nodes = 8 + s.tables;
    let at_items = at_nodes + 6 * s.nodes;
    let total = at_items + 7 * s.items;
    let header = [total, s.tables, 8, s.nodes, at_nodes, s.items, at_items, 0];
    for (i, &w) in header.iter().enumerate() {
        put(words, i, w);
    }
}

// A whole text: how many words, or the number of a line; what is stored where a line is bad is no one's.
pub fn read_table(text: &[u8], words: &mut [u32]) -> Result<usize, u32>
    ensures { TableRead (table_in (head_in text.now)) words.old words.new result }
{
    let Some((s, at)) = read_head(text) else {
        return Err(1);
    };
    put_header(words, s);
    let (next, count) = read_body(text, at, s, words)?;
    if next < text.len() {
        return Err(2 + s.line_count());
    }
    Ok(count)
}
