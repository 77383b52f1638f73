// The rows of relations among terms.

ghost use Rattle.std.specs.Prelude.{◌≡◌, ◌++◌, [], ◌∷◌, List, Some, None, length, map, true, IfOk, IfErr, OnOk, ◌<◌};
ghost use Rattle.std.specs.List.{list_all};
ghost use Rattle.spv_logic.specs.Terms.{Term};
ghost use Rattle.spv_term.specs.Arena.{AllBelow, IsArena, tree};
ghost use Rattle.spv_proof.specs.sums.Readings.{number_in};
ghost use Rattle.spv_tableau_rules.specs.constraints.Relations.{AreRowsOf, fits_each_way, places, relations};
ghost use Rattle.spv_arithmetic_side.specs.slack_rows.Rows.{HaveRoom, IsFittingRow, IsWideAmong, IsWideTerm};
ghost use Rattle.spv_arithmetic_side.specs.slack_rows.Adding.{HasRows};

use crate::bounds::number_sides;
use crate::slack_rows::row::{RowFault, row_of};
use spv_atoms::Linear;
use spv_term::{TermId, Terms};
use std::alloc::{AllocError, Global};

/// The rows of the relations of whole numbers among terms, in order.
#[derive(Drop)]
pub struct RelationRows {
    /// The form of left - right for each relation.
    pub forms: Vec<Linear>,
    /// For each term the place of its row, where it is such a relation.
    pub places: Vec<Option<u32>>,
}

// A place as a number of 32 bits; want of memory where it has more.
fn number_of(place: usize) -> Result<u32, AllocError>
    ensures { IfOk result (λ n. n ≡ place) }
{
    if place > u32::MAX as usize {
        return Err(AllocError);
    }
    Ok(place as u32)
}

impl RelationRows {
    fn none(alloc: Global) -> RelationRows
        ensures forms { result.forms.items ≡ [] }
        ensures places { result.places.items ≡ [] }
    {
        RelationRows {
            forms: Vec::new(alloc),
            places: Vec::new(alloc),
        }
    }

    // One term more that has no row.
    fn add_other(&mut self) -> Result<(), AllocError>
        ensures forms { OnOk result (self.new.forms.items ≡ self.old.forms.items) }
        ensures places { OnOk result (self.new.places.items ≡ self.old.places.items ++ None ∷ []) }
    {
        self.places.push(None)?;
        Ok(())
    }

    // One term more, with its row.
    fn add_row(&mut self, row: Linear) -> Result<(), AllocError>
        ensures forms { OnOk result (self.new.forms.items ≡ self.old.forms.items ++ row ∷ []) }
        ensures places { OnOk result (self.new.places.items ≡ self.old.places.items ++ Some (length self.old.forms.items) ∷ []) }
    {
        let place = number_of(self.forms.as_slice().len())?;
        self.places.push(Some(place))?;
        self.forms.push(row)?;
        Ok(())
    }

    // One term more.
    fn add(&mut self, alloc: Global, terms: &Terms, t: TermId) -> Result<(), RowFault>
        requires { t.0 < length terms.now.nodes }
        ensures rows { OnOk result ((ts : List Term) → HasRows terms.now ts self.old.forms.items self.old.places.items
            → HasRows terms.now (ts ++ tree terms.now t ∷ []) self.new.forms.items self.new.places.items) }
        ensures wide { IfErr result (λ fault. IsWideTerm terms.now t fault) }
    {
        let Some((left, right)) = number_sides(terms, t) else {
            self.add_other()?;
            return Ok(());
        };
        let row = row_of(alloc, terms, t, left, right)?;
        self.add_row(row)?;
        Ok(())
    }
}

/// The rows of the relations of whole numbers among terms. `Wide` comes exactly where the form of left - right, of 1 more, or of
/// these with the sides exchanged does not fit for one of the relations, or the form of a term in a linear position of its sides:
/// it names the first such relation.
pub fn relation_rows(
    alloc: Global,
    terms: &Terms,
    atoms: &[TermId],
) -> Result<RelationRows, RowFault>
    requires { AllBelow (length terms.now.nodes) atoms.now }
    ensures forms { IfOk result (λ r. AreRowsOf terms.now (relations (number_in terms.now) (map (tree terms.now) atoms.now)) r.forms.items) }
    ensures places { IfOk result (λ r. r.places.items ≡ places (number_in terms.now) (map (tree terms.now) atoms.now)) }
    ensures room { IfOk result (λ r. HaveRoom r.forms.items) }
    ensures fits { IfOk result (λ r. list_all fits_each_way (relations (number_in terms.now) (map (tree terms.now) atoms.now)) ≡ true) }
    ensures wide { IfErr result (λ fault. IsWideAmong terms.now atoms.now fault) }
{
    let mut rows = RelationRows::none(alloc);
    for t in atoms {
        rows.add(alloc, terms, *t)?;
    }
    Ok(rows)
}
