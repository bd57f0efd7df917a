// The rewriter: a plan without dependent joins.
#![tactic(auto)]

mod steps; // closed nodes in number order

ghost use Rattle.std.specs.Prelude.{◌≡◌, Err, length};
ghost use Rattle.plan.specs.Verdict.{verdict, accepted};
ghost use Rattle.rewrite.specs.Answer.{rewriting, output_after};
ghost use Rattle.rewrite.specs.Numbers.{rewriting_of};

use pages::page::{OverLimits, Page};
use plan::reach::work_out_reaches;
use plan::widths::work_out_widths;
use plan::{Refusal, check};
use rules::reads::work_out_reads;
use rules::tables::Tables;
use steps::rewrite_nodes;

// Refusals 1 to 7, which are the check's, 8 and 9.
#[derive(Clone, Copy, Debug, PartialEq, Eq)]
pub enum RewriteRefusal {
    Plan(Refusal),
    OverLimits,
    NoRoom,
}

impl From<Refusal> for RewriteRefusal {
    ghost use Rattle.rewrite.specs.declared.RewriteRefusal.TheVariants.{Plan};

    ghost from_gives = { λ r e. e ≡ Plan r };

    fn from(refusal: Refusal) -> RewriteRefusal {
        RewriteRefusal::Plan(refusal)
    }
}

impl From<OverLimits> for RewriteRefusal {
    ghost use Rattle.rewrite.specs.declared.RewriteRefusal.TheVariants.{OverLimits as over_limits};

    ghost from_gives = { λ _ e. e ≡ over_limits };

    fn from(_over: OverLimits) -> RewriteRefusal {
        RewriteRefusal::OverLimits
    }
}

impl RewriteRefusal {
    // The number of refusal.
    pub fn number(self) -> u32
        ensures { result ≡ (rewriting_of (Err self)).number }
    {
        match self {
            RewriteRefusal::Plan(refusal) => refusal.number(),
            RewriteRefusal::OverLimits => 8,
            RewriteRefusal::NoRoom => 9,
        }
    }

    // The node that it names, 0 where it names none.
    pub fn node(self) -> u32
        ensures { result ≡ (rewriting_of (Err self)).node }
    {
        match self {
            RewriteRefusal::Plan(refusal) => refusal.node(),
            RewriteRefusal::OverLimits | RewriteRefusal::NoRoom => 0,
        }
    }
}

// An accepted plan.
fn rewrite_accepted(words: &[u32], out: &mut [u32]) -> Result<u32, RewriteRefusal>
    requires { verdict words.now ≡ accepted }
    ensures result_value { rewriting_of result ≡ rewriting words.now (length out.old) }
    ensures out_after { out.new ≡ output_after words.now out.old }
{
    let widths = work_out_widths(words);
    let reaches = work_out_reaches(words);
    let reads = work_out_reads(words);
    let tables = Tables {
        words,
        reaches: &reaches,
        widths: &widths.rows,
        reads: &reads,
    };
    let mut page = Page::new();
    rewrite_nodes(&tables, &mut page)?;
    let total = page.total_words(words);
    if out.len() < total {
        return Err(RewriteRefusal::NoRoom);
    }
    page.write_table(words, out);
    let count = total as u32;
    Ok(count)
}

// Any slice of words and any output get document 01's answer.
pub fn rewrite(words: &[u32], out: &mut [u32]) -> Result<u32, RewriteRefusal>
    ensures result_value { rewriting_of result ≡ rewriting words.now (length out.old) }
    ensures out_after { out.new ≡ output_after words.now out.old }
{
    check(words)?;
    rewrite_accepted(words, out)
}
