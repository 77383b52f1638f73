// Numbers beside other ones.

ghost use Rattle.std.specs.Prelude.{◌≡◌, slice_index_or, IfOk};

use spv_atoms::copies::FactNumbers;
use std::alloc::{AllocError, Global};

/// A number of 32 bits; want of memory where it has more.
pub(crate) fn number_of(place: usize) -> Result<u32, AllocError>
    ensures { IfOk result (λ n. n ≡ place) }
{
    if place > u32::MAX as usize {
        return Err(AllocError);
    }
    Ok(place as u32)
}

/// A number beside each number, 0 where none was set.
#[derive(Drop)]
pub(crate) struct Numbers {
    items: Vec<u32>,
}

impl FactNumbers for Numbers {
    ghost number = { λ n k. slice_index_or n.items.items k 0 };

    fn number(&self, k: u32) -> u32 {
        self.items.get(k as usize).copied().unwrap_or(0)
    }
}

impl Numbers {
    pub(crate) fn new(alloc: Global) -> Numbers {
        Numbers {
            items: Vec::new(alloc),
        }
    }

    /// The number beside this one.
    pub(crate) fn at(&self, place: u32) -> u32 {
        self.number(place)
    }

    /// Sets the number beside this one.
    pub(crate) fn set(&mut self, place: u32, number: u32) -> Result<(), AllocError> {
        for _ in self.items.len()..place as usize + 1 {
            self.items.push(0)?;
        }
        if let Some(item) = self.items.get_mut(place as usize) {
            *item = number;
        }
        Ok(())
    }

    /// How many numbers have one beside them.
    pub(crate) fn len(&self) -> usize {
        self.items.len()
    }

    /// Sets the number beside the first one that has none.
    pub(crate) fn push(&mut self, number: u32) -> Result<(), AllocError> {
        self.items.push(number)?;
        Ok(())
    }

    /// Takes numbers away, so that those beside the first ones are left.
    pub(crate) fn truncate(&mut self, count: usize) {
        self.items.truncate(count);
    }
}

/// Marks on numbers.
#[derive(Drop)]
pub(crate) struct Marks {
    marks: Numbers,
    mark: u32,
}

impl Marks {
    /// No marks.
    pub(crate) fn new(alloc: Global) -> Marks {
        Marks {
            marks: Numbers::new(alloc),
            mark: 1,
        }
    }

    /// Takes all marks away.
    pub(crate) fn clear(&mut self) {
        self.mark = self.mark.saturating_add(1);
    }

    /// Whether a number is marked.
    pub(crate) fn has(&self, number: u32) -> bool {
        self.marks.at(number) == self.mark
    }

    /// Marks a number, and says whether it was not marked.
    pub(crate) fn add(&mut self, number: u32) -> Result<bool, AllocError> {
        if self.has(number) {
            return Ok(false);
        }
        self.marks.set(number, self.mark)?;
        Ok(true)
    }
}

/// Numbers that are gone to, each once.
#[derive(Drop)]
pub(crate) struct Queue {
    marks: Marks,
    list: Vec<u32>,
    next: usize,
}

impl Queue {
    /// None.
    pub(crate) fn new(alloc: Global) -> Queue {
        Queue {
            marks: Marks::new(alloc),
            list: Vec::new(alloc),
            next: 0,
        }
    }

    /// None is to be gone to.
    pub(crate) fn clear(&mut self) {
        self.marks.clear();
        self.list.clear();
        self.next = 0;
    }

    /// A number is to be gone to.
    pub(crate) fn add(&mut self, number: u32) -> Result<(), AllocError> {
        if self.marks.add(number)? {
            self.list.push(number)?;
        }
        Ok(())
    }

    /// The next number.
    pub(crate) fn take(&mut self) -> Option<u32> {
        let number = self.list.get(self.next).copied()?;
        self.next = self.next.saturating_add(1);
        Some(number)
    }

    /// All numbers that were added.
    pub(crate) fn as_slice(&self) -> &[u32] {
        self.list.as_slice()
    }
}
