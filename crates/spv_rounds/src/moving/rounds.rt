// Rounds over another arena.

ghost use Rattle.std.specs.Prelude.{◌≡◌, ◌++◌, ◌∷◌, [], IfOk, OnOk};
ghost use Rattle.spv_term.specs.Arena.{Arena};
ghost use Rattle.spv_rounds.specs.moving.Moves.{AreMoves, AllMoved, PairsMoved, InstanceMoved, InstancesMoved, RoundMoved, RoundsMoved};

use crate::moving::terms::{moved, moved_all};
use spv_logic::list::List;
use spv_table::Table;
use spv_term::TermId;
use spv_verdicts::answers::{Instance, Round};
use std::alloc::{AllocError, Global};

/// A table over another arena. There is no memory where a term of it is not known there.
pub fn moved_table(
    alloc: Global,
    places: &[Option<TermId>],
    table: &Table,
) -> Result<Table, AllocError>
    ensures { IfOk result (λ m. (a : Arena) (b : Arena) → AreMoves a b places.now → PairsMoved a b table.now.values m.values) }
{
    let mut values = Vec::new(alloc);
    for pair in table.values.as_slice() {
        let (t, x) = *pair;
        let u = moved(places, t)?;
        values.push((u, x))?;
    }
    Ok(Table {
        values: List::from_vec(values),
    })
}

/// An instance over another arena. There is no memory where a term of it is not known there.
pub fn moved_instance(
    alloc: Global,
    places: &[Option<TermId>],
    rule: u32,
    values: &[TermId],
) -> Result<Instance, AllocError>
    ensures rule { IfOk result (λ j. j.rule ≡ rule) }
    ensures values { IfOk result (λ j. (a : Arena) (b : Arena) → AreMoves a b places.now → AllMoved a b values.now j.values) }
{
    let values = moved_all(alloc, places, values)?;
    Ok(Instance { rule, values })
}

/// Instances over another arena. There is no memory where a term of one is not known there.
pub fn moved_instances(
    alloc: Global,
    places: &[Option<TermId>],
    instances: &[Instance],
) -> Result<List<Instance>, AllocError>
    ensures { IfOk result (λ js. (a : Arena) (b : Arena) → AreMoves a b places.now → InstancesMoved a b instances.now js) }
{
    let mut list = Vec::new(alloc);
    for i in instances {
        list.push(moved_instance(alloc, places, i.rule, i.values.as_slice())?)?;
    }
    Ok(List::from_vec(list))
}

// A round over another arena.
fn moved_round(alloc: Global, places: &[Option<TermId>], round: &Round) -> Result<Round, AllocError>
    ensures { IfOk result (λ s. (a : Arena) (b : Arena) → AreMoves a b places.now → RoundMoved a b round.now s) }
{
    let table = moved_table(alloc, places, &round.table)?;
    let members = moved_instances(alloc, places, round.members.as_slice())?;
    Ok(Round { table, members })
}

/// Rounds over another arena. There is no memory where a term of one is not known there.
pub fn moved_rounds(
    alloc: Global,
    places: &[Option<TermId>],
    rounds: &[Round],
) -> Result<List<Round>, AllocError>
    ensures { IfOk result (λ ss. (a : Arena) (b : Arena) → AreMoves a b places.now → RoundsMoved a b rounds.now ss) }
{
    let mut list = Vec::new(alloc);
    for round in rounds {
        list.push(moved_round(alloc, places, round)?)?;
    }
    Ok(List::from_vec(list))
}
