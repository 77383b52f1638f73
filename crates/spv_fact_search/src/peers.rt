// Applications of one head.

use crate::weighing::is_same;
use spv_frac::Frac;
use spv_term::{Head, TermId, Terms};
use std::alloc::{AllocError, Global};
use std::collections::BTreeMap;

/// Applications by their heads. A look-up goes by the order of heads.
#[derive(Drop)]
pub(crate) struct Peers {
    lists: BTreeMap<Head, Vec<TermId>>,
}

impl Peers {
    /// Those of these terms that are applications of a head to terms.
    pub(crate) fn new(alloc: Global, terms: &Terms, ids: &[TermId]) -> Result<Peers, AllocError> {
        let mut lists: BTreeMap<Head, Vec<TermId>> = BTreeMap::new(alloc);
        for t in ids {
            if t.0 < terms.len() {
                let node = terms.node(*t);
                if !node.args.as_slice().is_empty() {
                    lists.entry(node.head)?.or_default().push(*t)?;
                }
            }
        }
        Ok(Peers { lists })
    }

    /// Those of a head, in the order in which they came.
    pub(crate) fn of(&self, head: Head) -> &[TermId] {
        match self.lists.get(&head) {
            Some(list) => list.as_slice(),
            None => &[],
        }
    }
}

// The first one of terms of one head and of arguments that are worth the same, its number, and the first one of another number.
#[derive(Clone, Copy)]
struct Alike {
    first: TermId,
    number: Frac,
    other: Option<TermId>,
}

/// An application: its term, the number of that, its head, and the numbers of its arguments.
#[derive(Drop)]
pub(crate) struct Application {
    /// The term.
    pub(crate) term: TermId,
    /// What it is worth.
    pub(crate) number: Frac,
    /// Its head.
    pub(crate) head: Head,
    /// What its arguments are worth.
    pub(crate) args: Vec<Frac>,
}

/// What was seen of applications so far: which of them have one head, and arguments that are worth the same.
#[derive(Drop)]
pub(crate) struct Seen {
    heads: BTreeMap<Head, i128>,
    alike: BTreeMap<Vec<i128>, Alike>,
}

impl Seen {
    /// Nothing.
    pub(crate) fn new(alloc: Global) -> Seen {
        Seen {
            heads: BTreeMap::new(alloc),
            alike: BTreeMap::new(alloc),
        }
    }

    // A number for a head, another one for each.
    fn head(&mut self, head: Head) -> Result<i128, AllocError> {
        if let Some(number) = self.heads.get(&head) {
            return Ok(*number);
        }
        let number = self.heads.len() as i128;
        self.heads.insert(head, number)?;
        Ok(number)
    }

    // What an application is found by: its head and the numbers of its arguments.
    fn key(&mut self, alloc: Global, one: &Application) -> Result<Vec<i128>, AllocError> {
        let mut key = Vec::new(alloc);
        key.push(self.head(one.head)?)?;
        for x in one.args.as_slice() {
            key.push(x.num)?;
            key.push(x.den)?;
        }
        Ok(key)
    }

    /// Looks at an application: the first one seen before that has its head, arguments that are worth the same, and another number.
    pub(crate) fn look(
        &mut self,
        alloc: Global,
        one: &Application,
    ) -> Result<Option<TermId>, AllocError> {
        let key = self.key(alloc, one)?;
        let Some(before) = self.alike.get(&key).copied() else {
            let alone = Alike {
                first: one.term,
                number: one.number,
                other: None,
            };
            self.alike.insert(key, alone)?;
            return Ok(None);
        };
        if is_same(before.number, one.number) {
            return Ok(before.other);
        }
        if before.other.is_none() {
            let both = Alike {
                first: before.first,
                number: before.number,
                other: Some(one.term),
            };
            self.alike.insert(key, both)?;
        }
        Ok(Some(before.first))
    }
}
