// Parameters of a routine, where one with VAR is found by its name.

ghost use Rattle.std.specs.Prelude.{◌≡◌, ◌||◌, ◌&&◌, [], length, map, OnOk, IfOk};
ghost use Rattle.spv_program.specs.Lists.{same_name};
ghost use Rattle.spv_program.specs.typed.ProgramViews.{formal_of};
ghost use Rattle.spv_environments.specs.PlaceParameters.{by_place_in, has, ArePlaces};

use spv_logic::list::List;
use spv_logic::names::Symbol;
use spv_program::ordered_map::Named;
use spv_program::typed::Formal;
use std::alloc::{AllocError, Global};
use std::marker::Model;

/// The parameters of a routine, in order. Whether one of a name has VAR is found by a hash.
#[derive(Drop)]
pub struct Formals {
    items: List<Formal>,
    places: Named<()>,
}

impl Model for Formals {
    ghost use Rattle.std.specs.Prelude.{List};
    ghost use Rattle.spv_program.specs.declared.typed.programs.Formal as declared;
    ghost use Rattle.spv_environments.specs.PlaceParameters.{ArePlaces};

    ghost Value = { List declared.Formal };

    ghost view = { λ f. f.items };

    ghost invariant = { λ f. ArePlaces f.places f.items };
}

// The names of parameters with VAR, with that of one more where it has VAR.
#[tactic(auto, using(crate::proofs::NotedParameters::noted, crate::proofs::NotedParameters::noted_already, crate::proofs::NotedParameters::not_noted))]
fn note(places: &mut Named<()>, formal: Formal) -> Result<(), AllocError>
    ensures { OnOk result ((x : Symbol) → has places.new x ≡ (has places.old x || (same_name formal.name x && formal.by_place))) }
{
    if !formal.by_place {
        return Ok(());
    }
    if places.has(formal.name) {
        return Ok(());
    }
    places.insert(formal.name, ())?;
    Ok(())
}

// The names of the parameters with VAR.
#[tactic(auto, using(crate::proofs::NotedParameters::noted_first, crate::proofs::NotedParameters::noted_next, crate::proofs::NotedParameters::all_noted))]
fn places_of(alloc: Global, formals: &[Formal]) -> Result<Named<()>, AllocError>
    ensures { IfOk result (λ places. ArePlaces places formals.now) }
{
    let mut places = Named::new(alloc);
    for formal in formals {
        note(&mut places, *formal)?;
    }
    Ok(places)
}

impl Formals {
    /// No parameters.
    #[tactic(auto, using(crate::proofs::NotedParameters::none_are_places))]
    pub fn new(alloc: Global) -> Formals
        ensures { result ≡ [] }
    {
        Formals {
            items: List::new(alloc),
            places: Named::new(alloc),
        }
    }

    /// The parameters of a list.
    pub fn from_list(alloc: Global, items: List<Formal>) -> Result<Formals, AllocError>
        ensures { IfOk result (λ formals. formals ≡ items) }
    {
        let places = places_of(alloc, items.as_slice())?;
        Ok(Formals { items, places })
    }

    /// A copy of these parameters.
    pub fn from_slice(alloc: Global, formals: &[Formal]) -> Result<Formals, AllocError>
        ensures { IfOk result (λ copy. copy ≡ formals.now) }
    {
        let mut items = Vec::new(alloc);
        items.extend_from_slice(formals)?;
        Formals::from_list(alloc, List::from_vec(items))
    }

    /// The parameters, in order.
    pub fn as_slice(&self) -> &[Formal]
        ensures { result.now ≡ self.now }
    {
        self.items.as_slice()
    }

    /// How many there are.
    pub fn len(&self) -> usize
        ensures { result ≡ length self.now }
    {
        self.items.len()
    }

    /// The list of the parameters.
    pub fn into_list(self) -> List<Formal>
        ensures { result ≡ self }
    {
        let Formals { items, .. } = self;
        items
    }

    /// Whether one of the parameters has this name and VAR.
    pub fn is_by_place(&self, x: Symbol) -> bool
        ensures { result ≡ by_place_in (map formal_of self.now) x }
    {
        self.places.has(x)
    }
}
