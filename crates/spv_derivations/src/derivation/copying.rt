// Steps of a derivation with the numbers of a path outside.

ghost use Rattle.std.specs.Prelude.{◌≡◌, ◌+◌, ◌++◌, [], ◌∷◌, IfOk, OnOk};
ghost use Rattle.spv_derivations.specs.derivation.Copying.{copying};
ghost use Rattle.spv_derivations.specs.derivation.Steps as spec;

use crate::derivation::entries::Entry;
use spv_atoms::Step;
use spv_atoms::copies::{FactNumbers, optional_numbered, renumbered};
use std::alloc::{AllocError, Global};

/// A derivation whose first entries were copied: the number outside of the next derived fact, the numbers outside of the facts so far, and
/// the steps.
#[derive(Drop)]
pub(crate) struct Copied {
    pub(crate) next: u32,
    pub(crate) numbers: Vec<u32>,
    pub(crate) steps: Vec<Step>,
}

// The numbers outside.
impl FactNumbers for Copied {
    ghost number = { λ c. spec.outside c.next c.numbers.items };

    fn number(&self, k: u32) -> u32 {
        if k == 0 {
            return 0;
        }
        let numbers = self.numbers.as_slice();
        numbers.get(k as usize - 1).copied().unwrap_or(self.next)
    }
}

impl Copied {
    // Nothing was copied, and so many facts are there.
    fn new(alloc: Global, facts: u32) -> Result<Copied, AllocError>
        ensures { IfOk result (λ c. copying c ≡ spec.uncopied facts) }
    {
        let Some(next) = facts.checked_add(1) else {
            return Err(AllocError);
        };
        Ok(Copied {
            next,
            numbers: Vec::new(alloc),
            steps: Vec::new(alloc),
        })
    }

    // Copies one entry more.
    fn add(&mut self, alloc: Global, entry: &Entry) -> Result<(), AllocError>
        ensures { OnOk result (copying self.new ≡ spec.with_entry (copying self.old) entry.now) }
    {
        match entry {
            Entry::Told(_, _, why) => {
                self.numbers.push(*why)?;
            }
            Entry::Derived(step) => {
                let step = renumbered(alloc, self, step)?;
                self.add_step(step)?;
            }
        }
        Ok(())
    }

    // One step more, which adds a fact.
    fn add_step(&mut self, step: Step) -> Result<(), AllocError>
        ensures { OnOk result (copying self.new ≡ record {
          next = self.old.next + 1;
          numbers = self.old.numbers.items ++ self.old.next ∷ [];
          steps = self.old.steps.items ++ step ∷ [];
        }) }
    {
        let Some(next) = self.next.checked_add(1) else {
            return Err(AllocError);
        };
        self.steps.push(step)?;
        self.numbers.push(self.next)?;
        self.next = next;
        Ok(())
    }

    /// The steps, and the end of the path by one or two facts.
    pub(crate) fn closed(self, first: u32, second: Option<u32>) -> Result<Vec<Step>, AllocError>
        ensures { IfOk result (λ v. v.items ≡ spec.closed (copying self) first second) }
    {
        let end = Step::Contra(self.number(first), optional_numbered(&self, second));
        let mut steps = self.steps;
        steps.push(end)?;
        Ok(steps)
    }
}

/// The derived entries in order, as steps of a path with so many facts.
pub(crate) fn copy_of(alloc: Global, entries: &[Entry], facts: u32) -> Result<Copied, AllocError>
    ensures { IfOk result (λ c. copying c ≡ spec.copy_of facts entries.now) }
{
    let mut done = Copied::new(alloc, facts)?;
    for entry in entries {
        done.add(alloc, entry)?;
    }
    Ok(done)
}
