//! The members of an open object, and an index of their names.
ghost use Rattle.std.specs.Prelude.{◌≡◌, ◌<◌, ◌≤◌, ℕ, List, [], ◌++◌, ◌∷◌, drop, length, true, false, IfOk, OnOk, MatchOption, vec_len};
ghost use Rattle.std.specs.Ordering.{nat_cmp};
ghost use Rattle.std.specs.Cmp.Lexicographic.{slice_cmp};
ghost use Rattle.json_text.specs.MemberNames.{has_name, are_distinct, pair_names};
ghost use Rattle.json_text.specs.inner.NumberBlocks.{all_numbers, number_lists};
ghost use Rattle.json_text.specs.inner.MemberIndex.{name_at, names_at, AreMemberNumbers, AreInOrder, ComesAt};

use crate::block::Block;
use crate::blocks::{self, Gap};
use crate::tree::{Chars, Json};
use std::alloc::{AllocError, Global};
use std::cmp::Ordering;

/// So many members are looked through one by one for a name. The comparisons of a text of many members must not be as many as
/// their number squared.
const FEW: usize = 12;

/// The members of an open object, in order, beside an index by name of those after the first few.
#[derive(Drop)]
pub(crate) struct OpenObject {
    pub members: Vec<(Chars, Json)>,
    /// The numbers of the members after the first few, in the order of their names.
    index: Vec<Block>,
    ghost within: { AreMemberNumbers (all_numbers (number_lists index.items)) (length members.items) },
    ghost ordered: { AreInOrder (names_at (pair_names members.items) (all_numbers (number_lists index.items))) },
    ghost known: { (q : List ℕ) → has_name q (names_at (pair_names members.items) (all_numbers (number_lists index.items))) ≡ has_name q (drop 12 (pair_names members.items)) },
    pub ghost distinct: { are_distinct (pair_names members.items) ≡ true },
}

impl OpenObject {
    ghost use Rattle.json_text.specs.inner.MemberOrder.{IsNameBlock, IsGap, IsNameGap};

    /// An object without members, and with room for two.
    pub(crate) fn new(alloc: Global) -> Result<OpenObject, AllocError>
        ensures { IfOk result (λ opened. opened.members.items ≡ []) }
    {
        Ok(OpenObject {
            members: Vec::with_capacity(alloc, 2)?,
            index: Vec::new(alloc),
        })
    }

    /// The members, without the index.
    pub(crate) fn into_members(self) -> Vec<(Chars, Json)>
        ensures { result.items ≡ self.members.items }
    {
        self.members
    }

    /// Where a next member of this name comes in the index; `None` where a member has the name.
    pub(crate) fn gap(&self, name: &[u8]) -> Option<Gap>
        ensures { MatchOption result (has_name name.now (pair_names self.now.members.items) ≡ true) (λ gap. IsGap self.now name.now gap) }
    {
        if is_among(&self.members[..FEW.min(self.members.len())], name) {
            return None;
        }
        self.gap_in_index(name)
    }

    /// Where the name comes in the index; `None` where the index has it.
    fn gap_in_index(&self, name: &[u8]) -> Option<Gap>
        ensures { MatchOption result (has_name name.now (names_at (pair_names self.now.members.items) (all_numbers (number_lists self.now.index.items))) ≡ true)
            (λ gap. IsNameGap (pair_names self.now.members.items) (number_lists self.now.index.items) name.now gap) }
    {
        if self.index.is_empty() {
            return Some(Gap {
                block: 0,
                before: 0,
            });
        }
        let block = self.block_for(name);
        match self.before_in(self.index[block].as_slice(), name) {
            None => None,
            Some(before) => Some(Gap { block, before }),
        }
    }

    /// The block that the name comes into.
    fn block_for(&self, name: &[u8]) -> usize
        requires { 0 < vec_len self.now.index }
        ensures { IsNameBlock (pair_names self.now.members.items) (number_lists self.now.index.items) name.now result }
    {
        let mut block = 0;
        let mut end = self.index.len();
        while end - block > 1 {
            let middle = block + (end - block) / 2;
            let first = self.index[middle].as_slice()[0];
            match self.order_of(first, name) {
                Ordering::Less | Ordering::Equal => block = middle,
                Ordering::Greater => end = middle,
            }
        }
        block
    }

    /// How many of these numbers have a name before this one; `None` where one of them has this name.
    fn before_in(&self, numbers: &[u32], name: &[u8]) -> Option<usize>
        requires within { AreMemberNumbers numbers.now (length self.now.members.items) }
        requires ordered { AreInOrder (names_at (pair_names self.now.members.items) numbers.now) }
        ensures { MatchOption result (has_name name.now (names_at (pair_names self.now.members.items) numbers.now) ≡ true)
            (ComesAt (names_at (pair_names self.now.members.items) numbers.now) name.now) }
    {
        let mut low = 0;
        let mut high = numbers.len();
        while low < high {
            let middle = low + (high - low) / 2;
            match self.order_of(numbers[middle], name) {
                Ordering::Less => low = middle + 1,
                Ordering::Equal => return None,
                Ordering::Greater => high = middle,
            }
        }
        Some(low)
    }

    /// How the name of the member of this number compares with the other.
    fn order_of(&self, number: u32, name: &[u8]) -> Ordering
        requires { number < length self.now.members.items }
        ensures { result ≡ slice_cmp nat_cmp (name_at (pair_names self.now.members.items) number) name.now }
    {
        let (own, _) = &self.members[number as usize];
        own.as_bytes().cmp(name)
    }

    /// One more member, whose name has this gap.
    pub(crate) fn push(
        &mut self,
        alloc: Global,
        gap: Gap,
        name: Chars,
        value: Json,
    ) -> Result<(), AllocError>
        requires { IsGap self.old name gap }
        ensures { OnOk result (self.new.members.items ≡ self.old.members.items ++ (name, value) ∷ []) }
    {
        if self.members.len() < FEW {
            self.push_few(name, value)
        } else {
            self.push_later(alloc, gap, name, value)
        }
    }

    /// One more of the first few members.
    fn push_few(&mut self, name: Chars, value: Json) -> Result<(), AllocError>
        requires few { length self.old.members.items < 12 }
        requires new { has_name name (pair_names self.old.members.items) ≡ false }
        ensures { OnOk result (self.new.members.items ≡ self.old.members.items ++ (name, value) ∷ []) }
    {
        self.members.push((name, value))?;
        Ok(())
    }

    /// One more member after the first few.
    fn push_later(
        &mut self,
        alloc: Global,
        gap: Gap,
        name: Chars,
        value: Json,
    ) -> Result<(), AllocError>
        requires many { 12 ≤ length self.old.members.items }
        requires gap { IsGap self.old name gap }
        ensures { OnOk result (self.new.members.items ≡ self.old.members.items ++ (name, value) ∷ []) }
    {
        // A number takes four bytes: more members than it counts would take some 300 gigabytes.
        let Ok(number) = u32::try_from(self.members.len()) else {
            return Err(AllocError);
        };
        // The room for the member comes first, so that the index never has a number without a member.
        self.members.reserve(1)?;
        blocks::insert(alloc, &mut self.index, gap, number)?;
        self.members.push_reserved((name, value));
        blocks::divide(alloc, &mut self.index, gap.block)
    }
}

/// Whether one of the members has the name.
fn is_among(members: &[(Chars, Json)], name: &[u8]) -> bool
    ensures { result ≡ has_name name.now (pair_names members.now) }
{
    for (own, _) in members {
        if name == own.as_bytes() {
            return true;
        }
    }
    false
}
