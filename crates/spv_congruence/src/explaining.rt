// Explaining why two terms are the same.

ghost use Rattle.std.specs.Prelude.{◌≡◌, ◌≢◌, ◌<◌, ◌≤◌, ◌++◌, [], ◌∷◌, length, nat_eq, IfOk, OnOk, Some, slice_get, take};
ghost use Rattle.spv_union_find.specs.classes.Classes.{IsLatest};
ghost use Rattle.spv_congruence.specs.Graph.{IsGraph, label_of};
ghost use Rattle.spv_congruence.specs.Keep.{graph, Fits, IsNode};
ghost use Rattle.spv_congruence.specs.Explained.{AreWorks, Done, Explains, IsCauseLink, IsSplit, IsWork, PlaceWithin};
ghost use Rattle.spv_congruence.specs.declared.explaining.Work.TheVariants.{Between, Write};

use crate::facts::{Fact, Link};
use crate::kept::Kept;
use spv_term::TermId;
use spv_union_find::classes::{Cause, Join};
use std::alloc::AllocError;

/// What is still to be done.
#[derive(Clone, Copy, Debug)]
pub(crate) enum Work {
    /// Two terms are to be linked.
    Between(TermId, TermId),
    /// A link is to be written.
    Write(Link),
}

// The join that brought two terms together, as it is met on the way from the one to the other.
#[derive(Clone, Copy, Debug)]
pub(crate) struct Split {
    pub(crate) from: TermId,
    pub(crate) to: TermId,
    pub(crate) link: Link,
}

// The fact at a place.
fn fact_at(facts: &[Fact], place: usize) -> Fact
    requires { place < length facts.now }
    ensures { slice_get facts.now place ≡ Some result }
{
    facts[place]
}

impl Kept {
    // The link of a join, from the one of its sides to the other.
    fn link(&self, join: Join, from: TermId, to: TermId) -> Link
        requires { PlaceWithin join.cause (length self.now.told) }
        ensures { IsCauseLink self.now.told join.cause from to result }
    {
        match join.cause {
            Cause::Told(place) => Link::Told(self.fact_at(place).why),
            Cause::Congruent => Link::Congruent(from, to),
        }
    }

    // The fact at a place.
    fn fact_at(&self, place: usize) -> Fact
        requires { place < length self.now.told }
        ensures { slice_get self.now.told place ≡ Some result }
    {
        fact_at(self.told.as_slice(), place)
    }

    // The place of the join that brought two terms together.
    fn latest(&self, s: TermId, t: TermId) -> usize
        requires first { s.0 < self.now.classes.count }
        requires second { t.0 < self.now.classes.count }
        requires apart { s.0 ≢ t.0 }
        requires same { label_of self.now.classes.joins s ≡ label_of self.now.classes.joins t }
        ensures { IsLatest self.now.classes.joins s.0 t.0 result }
    {
        self.classes.latest(s.0 as usize, t.0 as usize)
    }

    // The join at a place.
    fn join_at(&self, place: usize) -> Join
        requires { place < length self.now.classes.joins }
        ensures { slice_get self.now.classes.joins place ≡ Some result }
    {
        self.classes.join_at(place)
    }

    // Whether two terms were in one class when there were so many joins.
    fn were_same(&self, s: TermId, t: TermId, time: usize) -> bool
        requires first { s.0 < self.now.classes.count }
        requires second { t.0 < self.now.classes.count }
        requires time { time ≤ length self.now.classes.joins }
        ensures { result ≡ nat_eq (label_of (take time self.now.classes.joins) s) (label_of (take time self.now.classes.joins) t) }
    {
        self.classes.label_at(s.0 as usize, time) == self.classes.label_at(t.0 as usize, time)
    }

    // The join that brought two terms together, on the way from the one to the other.
    fn split(&self, s: TermId, t: TermId) -> Split
        requires fits { Fits self.now }
        requires graph { IsGraph (graph self.now) }
        requires first { IsNode self.now.nodes s }
        requires second { IsNode self.now.nodes t }
        requires apart { s.0 ≢ t.0 }
        requires same { label_of self.now.classes.joins s ≡ label_of self.now.classes.joins t }
        ensures { IsSplit (graph self.now) s t result }
    {
        self.law_joins();
        let place = self.latest(s, t);
        let join = self.join_at(place);
        let left = TermId(join.left);
        let right = TermId(join.right);
        if self.were_same(s, left, place) {
            let link = self.link(join, left, right);
            Split {
                from: left,
                to: right,
                link,
            }
        } else {
            let link = self.link(join, right, left);
            Split {
                from: right,
                to: left,
                link,
            }
        }
    }

    // Does one work.
    fn explain_one(
        &self,
        works: &mut Vec<Work>,
        links: &mut Vec<Link>,
        work: Work,
    ) -> Result<(), AllocError>
        requires fits { Fits self.now }
        requires graph { IsGraph (graph self.now) }
        requires work { IsWork (graph self.now) work }
        ensures { OnOk result (Done (graph self.now) work works.old.items links.old.items works.new.items links.new.items) }
    {
        match work {
            Work::Write(link) => {
                links.push(link)?;
            }
            Work::Between(x, y) => {
                if x.0 != y.0 {
                    let split = self.split(x, y);
                    push_split(works, split, x, y)?;
                }
            }
        }
        Ok(())
    }

    // The links from one term to another one.
    pub(crate) fn explain(&self, s: TermId, t: TermId) -> Result<Vec<Link>, AllocError>
        requires fits { Fits self.now }
        requires graph { IsGraph (graph self.now) }
        requires first { IsNode self.now.nodes s }
        requires second { IsNode self.now.nodes t }
        requires same { label_of self.now.classes.joins s ≡ label_of self.now.classes.joins t }
        ensures { IfOk result (λ v. Explains (graph self.now) s t v.items) }
    {
        let alloc = *self.added.allocator();
        let mut works = Vec::new(alloc);
        let mut links = Vec::new(alloc);
        works.push(Work::Between(s, t))?;
        while let Some(work) = works.pop() {
            self.explain_one(&mut works, &mut links, work)?;
        }
        Ok(links)
    }
}

// The works of the two ways and of the link between them, the last one first.
fn push_split(works: &mut Vec<Work>, split: Split, x: TermId, y: TermId) -> Result<(), AllocError>
    ensures { OnOk result (works.new.items ≡ ((works.old.items ++ Between split.to y ∷ []) ++ Write split.link ∷ []) ++ Between x split.from ∷ []) }
{
    works.push(Work::Between(split.to, y))?;
    works.push(Work::Write(split.link))?;
    works.push(Work::Between(x, split.from))?;
    Ok(())
}
