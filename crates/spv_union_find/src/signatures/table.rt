// The table.

ghost use Rattle.std.specs.Prelude.{◌≡◌, ◌≤◌, ◌+◌, suc, [], ◌∷◌, ◌++◌, IfOk, IsOk, OnOk, OnErr, length, take};
ghost use Rattle.spv_union_find.specs.signatures.Signatures as spec;

use crate::signatures::chains::Chains;
use crate::signatures::rows::{Row, find, hash, row_at};
use spv_logic::{Head, TermId};
use std::alloc::{AllocError, Global};
use std::marker::Model;

/// Signatures with terms; those that were added last are taken away first.
#[derive(Drop)]
pub struct Signatures {
    rows: Vec<Row>,
    cells: Vec<usize>,
    hashes: Chains,
}

impl Model for Signatures {
    ghost use Rattle.std.specs.Prelude.{◌≡◌, ℕ, ◌+◌, ◌≤◌, length, map, min};
    ghost use Rattle.std.specs.Vec.{vec_capacity};
    ghost use Rattle.spv_union_find.specs.signatures.Signatures as spec;

    ghost Value = { spec.Table };

    ghost view = { λ t. record { rows = map (spec.signature t.cells.items) t.rows.items; room = min (min (vec_capacity t.rows) (vec_capacity t.cells)) t.hashes.room } };

    ghost invariant = { λ t. record {
      laid : spec.Laid 0 t.rows.items (length t.cells.items);
      fit : length t.rows.items + length t.cells.items ≤ min (min (vec_capacity t.rows) (vec_capacity t.cells)) t.hashes.room;
      hashes : t.hashes.hashes ≡ map spec.hash (map (spec.signature t.cells.items) t.rows.items);
    } };
}

impl Signatures {
    /// No signatures. It takes no memory.
    pub fn new(alloc: Global) -> Signatures
        ensures { result.rows ≡ [] }
    {
        Signatures {
            rows: Vec::new(alloc),
            cells: Vec::new(alloc),
            hashes: Chains::new(alloc),
        }
    }

    /// How many signatures there are.
    pub fn len(&self) -> usize
        ensures { result ≡ length self.now.rows }
    {
        self.rows.as_slice().len()
    }

    /// There is memory for the cells that there are.
    pub fn law_room(&self)
        ensures { spec.cells_of self.now.rows ≤ self.now.room }
    {
        let _rows = &self.rows;
    }

    /// The term that was last added for a head over these labels.
    pub fn find(&self, head: Head, labels: &[usize]) -> Option<TermId>
        ensures { result ≡ spec.held self.now.rows head labels.now }
    {
        find(
            self.rows.as_slice(),
            self.cells.as_slice(),
            &self.hashes,
            head,
            labels,
        )
    }

    // How many cells there are with those of one more signature.
    fn wanted(&self, labels: usize) -> Result<usize, AllocError>
        ensures cells { IfOk result (λ n. n ≡ spec.cells_of self.now.rows + suc labels) }
        ensures succeeds { spec.cells_of self.now.rows + suc labels ≤ self.now.room → IsOk result }
    {
        let rows = self.rows.as_slice().len();
        let cells = self.cells.as_slice().len();
        let Some(old) = rows.checked_add(cells) else {
            return Err(AllocError);
        };
        let Some(more) = labels.checked_add(1) else {
            return Err(AllocError);
        };
        match old.checked_add(more) {
            Some(all) => Ok(all),
            None => Err(AllocError),
        }
    }

    // Makes memory for so many cells.
    fn reserve(&mut self, cells: usize) -> Result<(), AllocError>
        ensures rows { self.new.rows ≡ self.old.rows }
        ensures room { self.old.room ≤ self.new.room }
        ensures ok { OnOk result (cells ≤ self.new.room) }
        ensures succeeds { cells ≤ self.old.room → IsOk result }
    {
        let rows = cells.saturating_sub(self.rows.as_slice().len());
        self.rows.reserve(rows)?;
        let labels = cells.saturating_sub(self.cells.as_slice().len());
        self.cells.reserve(labels)?;
        self.hashes.reserve(cells)
    }

    /// Makes memory for one more signature with so many labels.
    pub fn make_room(&mut self, labels: usize) -> Result<(), AllocError>
        ensures rows { self.new.rows ≡ self.old.rows }
        ensures room { self.old.room ≤ self.new.room }
        ensures ok { OnOk result (spec.cells_of self.new.rows + suc labels ≤ self.new.room) }
    {
        let wanted = self.wanted(labels)?;
        self.reserve(wanted)
    }

    // Puts a row behind the others, for which there is memory.
    fn put(&mut self, head: Head, labels: &[usize], term: TermId)
        requires { spec.cells_of self.old.rows + suc (length labels.now) ≤ self.old.room }
        ensures rows { self.new.rows ≡ self.old.rows ++ record { head = head; labels = labels.now; term = term } ∷ [] }
        ensures room { self.old.room ≤ self.new.room }
    {
        let start = self.cells.as_slice().len();
        self.cells.extend_from_slice(labels).unwrap();
        self.rows
            .push(Row {
                head,
                start,
                size: labels.len(),
                term,
            })
            .unwrap();
        self.hashes.push(hash(head, labels));
    }

    /// Puts a term for a head over labels behind the others. It takes no memory where there is room for its cells.
    pub fn push(&mut self, head: Head, labels: &[usize], term: TermId) -> Result<(), AllocError>
        ensures ok { OnOk result (self.new.rows ≡ self.old.rows ++ record { head = head; labels = labels.now; term = term } ∷ []) }
        ensures err { OnErr result (self.new.rows ≡ self.old.rows) }
        ensures room { self.old.room ≤ self.new.room }
        ensures succeeds { spec.cells_of self.old.rows + suc (length labels.now) ≤ self.old.room → IsOk result }
    {
        let wanted = self.wanted(labels.len())?;
        self.reserve(wanted)?;
        self.put(head, labels, term);
        Ok(())
    }

    /// Takes away all but so many, the first ones. It takes no memory.
    pub fn cut(&mut self, count: usize)
        ensures rows { self.new.rows ≡ take count self.old.rows }
        ensures room { self.old.room ≤ self.new.room }
    {
        if count >= self.rows.as_slice().len() {
            return;
        }
        let row = row_at(self.rows.as_slice(), count);
        self.cells.truncate(row.start);
        self.rows.truncate(count);
        self.hashes.cut(count);
    }
}
