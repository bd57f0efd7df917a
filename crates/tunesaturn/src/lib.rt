// The C interface: each function answers a number of refusal, its node, and a count.
#![tactic(auto)]

ghost use Rattle.std.specs.Prelude.{◌≡◌, length};
ghost use Rattle.plan.specs.Verdict.{verdict};
ghost use Rattle.rewrite.specs.Answer.{rewriting, output_after};
ghost use Rattle.evaluate.specs.Answer as evaluation;
ghost use Rattle.text.specs.Answers.{writing, text_after, reading, words_after};
ghost use Rattle.tunesaturn.specs.Answers.{Says, Gives};

use evaluate::evaluate;
use plan::check;
use rewrite::rewrite;
use text::{read_text, write_text};

#[repr(C)]
#[derive(Clone, Copy)]
pub struct Answer {
    pub number: u32,
    pub node: u32,
    pub count: u64,
}

fn numbered(number: u32, node: u32) -> Answer
    ensures { (result.number ≡ number) × (result.node ≡ node) × (result.count ≡ 0) }
{
    Answer {
        number,
        node,
        count: 0,
    }
}

fn counted(count: u32) -> Answer
    ensures { (result.number ≡ 0) × (result.node ≡ 0) × (result.count ≡ count) }
{
    Answer {
        number: 0,
        node: 0,
        count: u64::from(count),
    }
}

// The check of a plan table; count is 0.
#[unsafe(no_mangle)]
pub extern "C" fn tunesaturn_check(words: &[u32]) -> Answer
    ensures { Says result (verdict words.now) 0 }
{
    match check(words) {
        Ok(()) => numbered(0, 0),
        Err(refusal) => numbered(refusal.number(), refusal.node()),
    }
}

// The rewriting of a plan table to the front of out; count is the number of words.
#[unsafe(no_mangle)]
pub extern "C" fn tunesaturn_rewrite(words: &[u32], out: &mut [u32]) -> Answer
    ensures gives { Gives result (rewriting words.now (length out.old)) }
    ensures out_after { out.new ≡ output_after words.now out.old }
{
    match rewrite(words, out) {
        Ok(count) => counted(count),
        Err(refusal) => numbered(refusal.number(), refusal.node()),
    }
}

// The rows of a plan over lent cells to the front of out; count is the number of rows.
#[unsafe(no_mangle)]
pub extern "C" fn tunesaturn_evaluate(
    words: &[u32],
    counts: &[u32],
    cells: &[i64],
    limit: u32,
    scratch: &mut [i64],
    out: &mut [i64],
) -> Answer
    ensures gives { Gives result (evaluation.evaluation words.now counts.now cells.now limit (length scratch.old) (length out.old)) }
    ensures out_after { out.new ≡ evaluation.output_after words.now counts.now cells.now limit (length scratch.old) out.old }
    ensures scratch_after { scratch.new ≡ evaluation.scratch_after words.now counts.now cells.now limit scratch.old (length out.old) }
{
    match evaluate(words, counts, cells, limit, scratch, out) {
        Ok(count) => counted(count),
        Err(refusal) => numbered(refusal.number(), refusal.node()),
    }
}

// The text of a plan table to the front of text; count is the number of bytes.
#[unsafe(no_mangle)]
pub extern "C" fn tunesaturn_write_text(words: &[u32], text: &mut [u8]) -> Answer
    ensures gives { Gives result (writing words.now (length text.old)) }
    ensures text_after { text.new ≡ text_after words.now text.old }
{
    match write_text(words, text) {
        Ok(count) => counted(count),
        Err(refusal) => numbered(refusal.number(), 0),
    }
}

// The words of a text to the front of words; count is the number of words, node the line that 16 names.
#[unsafe(no_mangle)]
pub extern "C" fn tunesaturn_read_text(text: &[u8], words: &mut [u32]) -> Answer
    ensures gives { Gives result (reading text.now (length words.old)) }
    ensures words_after { words.new ≡ words_after text.now words.old }
{
    match read_text(text, words) {
        Ok(count) => counted(count),
        Err(refusal) => numbered(refusal.number(), refusal.line()),
    }
}
