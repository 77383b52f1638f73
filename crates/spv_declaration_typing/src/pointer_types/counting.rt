// New numbers, without gaps.

ghost use Rattle.std.specs.Prelude.{◌≡◌, ◌<◌, ◌+◌, ◌^◌, length, nat_eq, slice_index, IfOk};
ghost use Rattle.spv_program.specs.Lists.{item_at};
ghost use Rattle.spv_typing.specs.Merging.{kinds_before, number_or, renumbered};
ghost use Rattle.spv_declaration_typing.specs.pointer_types.Counting.{IsCounted, one_more_if, all_firsts};

use crate::pointer_types::rounds::push;
use spv_logic::TypeId;
use std::alloc::{AllocError, Global};
use std::marker::Model;

/// The new numbers of types: so many keep theirs, and for those behind it is known which type each is the same as.
#[derive(Drop)]
pub struct Renumbering {
    base: usize,
    firsts: Vec<usize>,
    before: Vec<u32>,
}

impl Model for Renumbering {
    ghost use Rattle.spv_declaration_typing.specs.pointer_types.Counting.{IsCounted, Numbering};

    ghost Value = { Numbering };

    ghost view = { λ r. record { base = r.base; firsts = r.firsts.items } };

    ghost invariant = { λ r. IsCounted r.base r.firsts.items r.before.items };
}

fn one_more_if(is: bool, count: u32) -> u32
    requires { count + 1 < 2 ^ 32 }
    ensures { result ≡ one_more_if is count }
{
    if is { count + 1 } else { count }
}

fn counted(alloc: Global, base: usize, firsts: &[usize]) -> Result<Vec<u32>, AllocError>
    requires { base + length firsts.now < 2 ^ 32 }
    ensures { IfOk result (λ v. IsCounted base firsts.now v.items) }
{
    let mut before = Vec::new(alloc);
    let mut count = base as u32;
    push(&mut before, count)?;
    for place in 0..firsts.len() {
        count = one_more_if(firsts[place] == base + place, count);
        push(&mut before, count)?;
    }
    Ok(before)
}

impl Renumbering {
    /// The new numbers where it is known which type each is the same as.
    pub(crate) fn new(
        alloc: Global,
        base: usize,
        firsts: Vec<usize>,
    ) -> Result<Renumbering, AllocError>
        requires { base + length firsts.items < 2 ^ 32 }
        ensures { IfOk result (λ r. r ≡ record { base = base; firsts = firsts.items }) }
    {
        let before = counted(alloc, base, firsts.as_slice())?;
        Ok(Renumbering {
            base,
            firsts,
            before,
        })
    }

    /// Whether a type behind is the first of its kind.
    pub(crate) fn leads(&self, place: usize) -> bool
        requires { place < length self.now.firsts }
        ensures { result ≡ nat_eq (slice_index self.now.firsts place) (self.now.base + place) }
    {
        self.firsts[place] == self.base + place
    }

    #[tactic(auto, using(crate::proofs::pointer_types::Counts::item_kept, crate::proofs::pointer_types::Counts::item_behind, crate::proofs::pointer_types::Counts::item_past))]
    fn first(&self, place: usize) -> usize
        ensures { result ≡ number_or place (item_at (all_firsts self.now) place) }
    {
        let firsts = self.firsts.as_slice();
        if place < self.base {
            return place;
        }
        if place - self.base < firsts.len() {
            return firsts[place - self.base];
        }
        place
    }

    fn kinds(&self, place: usize) -> u32
        ensures { result ≡ kinds_before place 0 (all_firsts self.now) }
    {
        let firsts = self.firsts.as_slice();
        let before = self.before.as_slice();
        if place < self.base {
            return place as u32;
        }
        if place - self.base < firsts.len() {
            return before[place - self.base];
        }
        before[firsts.len()]
    }

    /// The new number of a type.
    pub fn number(&self, t: TypeId) -> TypeId
        ensures { result ≡ renumbered (all_firsts self.now) t }
    {
        let first = self.first(t.0 as usize);
        TypeId(self.kinds(first))
    }
}
