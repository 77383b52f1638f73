// Telling facts, and taking them back.

ghost use Rattle.std.specs.Prelude.{◌≡◌, ◌<◌, ◌≤◌, ◌++◌, [], ◌∷◌, length, slice_index_or, IfOk, OnOk, OnErr};
ghost use Rattle.spv_congruence.specs.Graph.{now_at, nowhere, level_at, IsGraph};
ghost use Rattle.spv_congruence.specs.Keep.{graph, Fits, with_fact, equal_of, IsNode, IsRewound, IsStopped, Tells, Undoes};

use crate::facts::{Equal, Fact, Level};
use crate::kept::Kept;
use spv_union_find::classes::Cause;
use std::alloc::AllocError;

// How far a graph was when it had so many facts.
fn level_of(levels: &[Level], count: usize) -> Level
    requires { count < length levels.now }
    ensures { result ≡ slice_index_or levels.now count nowhere }
{
    levels[count]
}

impl Kept {
    // How many facts stand.
    pub(crate) fn count(&self) -> usize
        ensures { result ≡ length self.now.told }
    {
        self.told.as_slice().len()
    }

    // How far the graph is.
    pub(crate) fn level(&self) -> Level
        ensures { result ≡ now_at (graph self.now) }
    {
        Level {
            added: self.added.as_slice().len(),
            joins: self.classes.joins().len(),
            rows: self.table.len(),
        }
    }

    // Writes a fact, and how far the graph was.
    fn write(&mut self, fact: Fact) -> Result<(), AllocError>
        ensures ok { OnOk result (self.new ≡ with_fact self.old fact) }
        ensures err { OnErr result (self.new ≡ self.old) }
    {
        let level = self.level();
        self.told.reserve(1)?;
        self.levels.reserve(1)?;
        self.told.push(fact).unwrap();
        self.levels.push(level).unwrap();
        Ok(())
    }

    // Takes back what was told but for so many facts. It takes no memory.
    pub(crate) fn rewind(&mut self, count: usize)
        requires { count < length self.old.levels }
        ensures { IsRewound self.old count self.new }
    {
        let level = level_of(self.levels.as_slice(), count);
        self.told.truncate(count);
        self.levels.truncate(count);
        self.classes.cut(level.joins);
        self.table.cut(level.rows);
    }

    // The equality that a fact tells.
    fn equal_of(&self, fact: Fact, place: usize) -> Result<Vec<Equal>, AllocError>
        ensures { IfOk result (λ v. v.items ≡ equal_of fact place) }
    {
        let mut equals = Vec::new(*self.added.allocator());
        if fact.equal {
            equals.push(Equal {
                left: fact.left,
                right: fact.right,
                cause: Cause::Told(place),
            })?;
        }
        Ok(equals)
    }

    // Writes a fact and joins its equality. For want of memory some of it may be done.
    fn tell_or_stop(&mut self, fact: Fact, equals: Vec<Equal>) -> Result<(), AllocError>
        requires fits { Fits self.old }
        requires graph { IsGraph (graph self.old) }
        requires left { IsNode self.old.nodes fact.left }
        requires right { IsNode self.old.nodes fact.right }
        requires equals { equals.items ≡ equal_of fact (length self.old.told) }
        ensures ok { OnOk result (Tells self.old self.new fact) }
        ensures err { OnErr result (IsStopped self.old self.new fact) }
    {
        self.write(fact)?;
        self.settle(equals)
    }

    // Takes back what was told but for so many facts, if there are more.
    fn restore(&mut self, count: usize)
        requires { length self.old.levels ≡ length self.old.told }
        ensures less { length self.old.told ≤ count → self.new ≡ self.old }
        ensures more { count < length self.old.told → IsRewound self.old count self.new }
    {
        if count < self.told.as_slice().len() {
            self.rewind(count);
        }
    }

    // Tells a fact. For want of memory the graph stays as it was.
    pub(crate) fn tell(&mut self, fact: Fact) -> Result<(), AllocError>
        requires fits { Fits self.old }
        requires graph { IsGraph (graph self.old) }
        requires left { IsNode self.old.nodes fact.left }
        requires right { IsNode self.old.nodes fact.right }
        ensures ok { OnOk result (Tells self.old self.new fact) }
        ensures err { OnErr result (graph self.new ≡ graph self.old) }
        ensures fits { Fits self.new }
        ensures graph { IsGraph (graph self.new) }
    {
        let count = self.count();
        let equals = self.equal_of(fact, count)?;
        match self.tell_or_stop(fact, equals) {
            Ok(()) => Ok(()),
            Err(fault) => {
                self.restore(count);
                Err(fault)
            }
        }
    }

    // Takes back what was told but for so many facts, and answers how many terms there were then.
    fn rewound(&mut self, count: usize) -> usize
        requires { count < length self.old.levels }
        ensures back { IsRewound self.old count self.new }
        ensures terms { result ≡ (level_at (graph self.old) count).added }
    {
        let level = level_of(self.levels.as_slice(), count);
        self.rewind(count);
        level.added
    }

    // Takes back what was told but for so many facts. The terms that were added since stay, and are entered anew. It takes no memory.
    pub(crate) fn undo(&mut self, count: usize)
        requires fits { Fits self.old }
        requires graph { IsGraph (graph self.old) }
        requires count { count ≤ length self.old.told }
        ensures fits { Fits self.new }
        ensures same { count ≡ length self.old.told → self.new ≡ self.old }
        ensures back { count < length self.old.told → Undoes self.old count self.new }
    {
        if count >= self.count() {
            return;
        }
        self.law_room();
        let from = self.rewound(count);
        self.enter_rest(from);
    }
}
