// A text written number by number, each byte where the slice has its place.
ghost use Rattle.std.specs.Prelude.{◌≡◌, true, ◌+◌, ◌*◌, ◌≤◌, ◌<◌, ◌^◌, length, drop};
ghost use Rattle.plan.specs.Verdict.{header_right, limits_right};
ghost use Rattle.text.specs.Numbers.{decimal};
ghost use Rattle.text.specs.Text.{text_of};
ghost use Rattle.text.specs.Reading.{forms};
ghost use Rattle.text.specs.Steps.{counts, number, line_text, lines_text, WrittenTo};

use crate::form::{Sizes, end_of, is_constant};
use crate::numbers::NEGATIVE;
use crate::place::put;
use plan::words::{items, nodes, tables};

// How many digits a number has.
fn digit_count(n: u32) -> usize
    ensures value { result ≡ length (decimal n) }
    ensures upper_bound { result ≤ 10 }
{
    match n.checked_ilog10() {
        Some(power) => power as usize + 1,
        None => 1,
    }
}

// A number in decimal, the last digit first; the place behind it.
fn write_decimal(n: u32, text: &mut [u8], at: usize) -> usize
    requires { at < 2 ^ 32 }
    ensures written_to { WrittenTo text.old at (decimal n) text.new result }
    ensures upper_bound { result ≤ at + 10 }
{
    let count = digit_count(n);
    let mut rest = n;
    for k in (0..count).rev() {
        put(text, at + k, b'0' + (rest % 10) as u8);
        rest /= 10;
    }
    at + count
}

// A word as it stands in a line.
fn write_number(w: u32, constant: bool, text: &mut [u8], at: usize) -> usize
    requires { at < 2 ^ 31 }
    ensures written_to { WrittenTo text.old at (number constant w) text.new result }
    ensures upper_bound { result ≤ at + 11 }
{
    if !constant || w < NEGATIVE {
        return write_decimal(w, text, at);
    }
    put(text, at, b'-');
    write_decimal(w.wrapping_neg(), text, at + 1)
}

// A line of the words of row.
fn write_line(row: &[u32], item: bool, text: &mut [u8], at: usize) -> usize
    requires at_bound { at < 2 ^ 30 }
    requires row_len_bound { length row.now ≤ 16 }
    ensures written_to { WrittenTo text.old at (line_text item row.now) text.new result }
    ensures upper_bound { result ≤ at + 192 }
{
    let mut next = at;
    let mut last = 0;
    let mut before = 0;
    for (j, &w) in row.iter().enumerate() {
        next = write_number(w, is_constant(item, j, before), text, next);
        put(text, next, end_of(j, row.len()));
        next += 1;
        before = last;
        last = w;
    }
    next
}

// The lines behind the first.
fn write_body(words: &[u32], s: Sizes, text: &mut [u8], at: usize) -> usize
    requires at_bound { at < 2 ^ 29 }
    requires words_there { 8 + s.tables + 6 * s.nodes + 7 * s.items ≤ length words.now }
    ensures written_to { WrittenTo text.old at (lines_text (forms (counts s)) (drop 8 words.now)) text.new result }
    ensures upper_bound { result ≤ at + 600000 }
{
    let mut next = at;
    let mut from = 8;
    for k in 0..s.line_count() {
        let form = s.form_at(k);
        let to = from + form.count as usize;
        next = write_line(&words[from..to], form.item, text, next);
        from = to;
    }
    next
}

// The whole text; its length.
pub fn write_table(words: &[u32], text: &mut [u8]) -> usize
    requires header { header_right words.now ≡ true }
    requires limits { limits_right words.now ≡ true }
    ensures written_to { WrittenTo text.old 0 (text_of words.now) text.new result }
    ensures upper_bound { result < 2 ^ 32 }
{
    let s = Sizes {
        tables: tables(words),
        nodes: nodes(words),
        items: items(words),
    };
    let row = [s.tables, s.nodes, s.items];
    let next = write_line(&row, false, text, 0);
    write_body(words, s, text, next)
}
