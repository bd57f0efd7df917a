// The items of a node that is written next.
ghost use Rattle.std.specs.Prelude.{◌≡◌, true, [], ◌∷◌, map, ℕ, ◌+◌, ◌≤◌, ◌<◌};
ghost use Rattle.algebra.specs.Lists.{upto};
ghost use Rattle.algebra.specs.Domains as algebra;
ghost use Rattle.plan.specs.Words as spec;
ghost use Rattle.plan.specs.Terms.{meant};
ghost use Rattle.plan.specs.Encoding.{term_words, conjunct_words, position_words};
ghost use Rattle.pages.specs.Sets.{members};
ghost use Rattle.pages.specs.Domains.{Means};
ghost use Rattle.pages.specs.Pages.{Added};
ghost use Rattle.pages.specs.Items.{item_words, shifted_words, moved_words, shifted, Near, Movable};

use crate::domain::Domain;
use crate::page::{OverLimits, Page, Three};
use crate::sets::ColumnSet;
use crate::shift::Shift;
use plan::tags::{COPY, COUNT, KEY, SAME};
use plan::terms::{Term, first_term, second_term};
use plan::words::{item_word, position, tag};

// The term whose three words begin at word k of item j, as they stand.
fn three(words: &[u32], j: u32, k: u32) -> Three
    requires { k ≤ 4 }
    ensures { (result.code ≡ spec.item_word words.now j k)
        × (result.level ≡ spec.item_word words.now j (k + 1)) × (result.value ≡ spec.item_word words.now j (k + 2)) }
{
    Three {
        code: item_word(words, j, k),
        level: item_word(words, j, k + 1),
        value: item_word(words, j, k + 2),
    }
}

// A term, moved; a constant or null stays as it stands.
fn moved_term(term: Term, stands: Three, d: &Domain, shift: Shift) -> Three
    requires { Near (meant term) × ((stands.code ∷ stands.level ∷ stands.value ∷ []) ≡ term_words (meant term)) }
    ensures { (D : algebra.Domain) → Means d.now D → (result.code ∷ result.level ∷ result.value ∷ [])
        ≡ term_words (algebra.move_term D (shifted shift) (meant term)) }
{
    match term {
        Term::Local(position) => Three::local(shift.place(position)),
        Term::Outer { level, position } => Three::local(d.place(level, position)),
        Term::Constant(_) | Term::Null => stands,
    }
}

impl Page {
    // A test for the same for each of count columns, the other one behind others.
    pub fn push_matches(&mut self, count: u32, behind: u32) -> Result<(), OverLimits>
        requires { (count ≤ 64) × (behind ≤ 1000) }
        ensures { Added self.old self.new result (map conjunct_words (algebra.match (λ q. q) (λ q. behind + q) (upto count))) }
    {
        for i in 0..count {
            self.push_item(SAME, Three::local(i), Three::local(behind + i))?;
        }
        Ok(())
    }

    // A test for the same for each column of set, the other one at its place behind others.
    pub fn push_set_matches(&mut self, set: ColumnSet, behind: u32) -> Result<(), OverLimits>
        requires { behind ≤ 1000 }
        ensures { Added self.old self.new result (map conjunct_words (algebra.match (λ q. q) (λ q. behind + algebra.below (members set) q) (members set))) }
    {
        for q in 0..ColumnSet::SIZE {
            if set.contains(q) {
                self.push_item(SAME, Three::local(q), Three::local(behind + set.rank(q)))?;
            }
        }
        Ok(())
    }

    // Keys or output columns: count columns from one on.
    pub fn push_columns(&mut self, tag: u32, from: u32, count: u32) -> Result<(), OverLimits>
        requires { from + count ≤ 1000 }
        ensures { Added self.old self.new result (map (position_words tag) (algebra.span from count)) }
    {
        for i in 0..count {
            self.push_item(tag, Three::local(from + i), Three::local(0))?;
        }
        Ok(())
    }

    // The columns of set as keys.
    pub fn push_set_keys(&mut self, set: ColumnSet) -> Result<(), OverLimits>
        ensures { Added self.old self.new result (map (position_words 11) (members set)) }
    {
        for q in 0..ColumnSet::SIZE {
            if set.contains(q) {
                self.push_item(KEY, Three::local(q), Three::local(0))?;
            }
        }
        Ok(())
    }

    // Items as they stand.
    pub fn push_copied(&mut self, words: &[u32], from: u32, count: u32) -> Result<(), OverLimits>
        requires { from + count ≤ 2000 }
        ensures { Added self.old self.new result (map item_words (spec.items_from words.now from count)) }
    {
        for i in 0..count {
            let j = from + i;
            self.push_item(tag(words, j), three(words, j, 1), three(words, j, 4))?;
        }
        Ok(())
    }

    // Keys, output columns and aggregates, each column behind those in front.
    pub fn push_shifted(
        &mut self,
        words: &[u32],
        from: u32,
        count: u32,
        front: u32,
    ) -> Result<(), OverLimits>
        requires { (from + count ≤ 2000) × (front ≤ 64) × ((i : ℕ) → i < count → spec.item_word words.now (from + i) 3 < 1000) }
        ensures { Added self.old self.new result (map (shifted_words front) (spec.items_from words.now from count)) }
    {
        for i in 0..count {
            let j = from + i;
            let t = tag(words, j);
            let p = if t == COUNT {
                0
            } else {
                front + position(words, j)
            };
            self.push_item(t, Three::local(p), Three::local(0))?;
        }
        Ok(())
    }

    // One conjunct or computation, moved.
    fn push_moved_item(
        &mut self,
        words: &[u32],
        j: u32,
        d: &Domain,
        shift: Shift,
    ) -> Result<(), OverLimits>
        requires { Movable (spec.item_at words.now j) }
        ensures { (D : algebra.Domain) → Means d.now D → Added self.old self.new result
            (moved_words D (shifted shift) (spec.item_at words.now j) ∷ []) }
    {
        let t = tag(words, j);
        let stands = three(words, j, 1);
        let first = moved_term(first_term(words, j), stands, d, shift);
        if t == COPY {
            return self.push_item(t, first, Three::local(0));
        }
        let stands = three(words, j, 4);
        let second = moved_term(second_term(words, j), stands, d, shift);
        self.push_item(t, first, second)
    }

    // Conjuncts or a computation, moved.
    pub fn push_moved(
        &mut self,
        words: &[u32],
        from: u32,
        count: u32,
        d: &Domain,
        shift: Shift,
    ) -> Result<(), OverLimits>
        requires { (from + count ≤ 2000) × ((i : ℕ) → i < count → Movable (spec.item_at words.now (from + i))) }
        ensures { (D : algebra.Domain) → Means d.now D → Added self.old self.new result
            (map (moved_words D (shifted shift)) (spec.items_from words.now from count)) }
    {
        for i in 0..count {
            self.push_moved_item(words, from + i, d, shift)?;
        }
        Ok(())
    }
}
