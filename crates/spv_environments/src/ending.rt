// The end of a program.

ghost use Rattle.std.specs.Prelude.{◌≡◌, IfOk};
ghost use Rattle.spv_program.specs.typed.ProgramViews.{main_of};
ghost use Rattle.spv_environments.specs.Ended.{ended, tabled};
ghost use Rattle.spv_environments.specs.Symbols.{decl_of, symbols_of};
ghost use Rattle.spv_environments.specs.Views.{known_names_of};

use crate::functions::KnownNames;
use crate::known::{Known, Signature};
use crate::routines::copied;
use spv_logic::list::List;
use spv_logic::names::Symbol;
use spv_logic::{Decl, TypeId};
use spv_program::ordered_map::Named;
use spv_program::typed::{Main, Program};
use std::alloc::{AllocError, Global};

// The entries of a table as a list.
#[tactic(auto, using(crate::proofs::Tables::entry_listed))]
fn listed<T: Copy + Drop>(alloc: Global, table: &Named<T>) -> Result<List<(Symbol, T)>, AllocError>
    ensures { IfOk result (λ l. l ≡ table.now) }
{
    let mut all = List::new(alloc);
    for place in 0..table.len() {
        let (name, value) = table.entry(place).unwrap();
        all.push((name, *value))?;
    }
    Ok(all)
}

fn decl(alloc: Global, name: Symbol, signature: &Signature) -> Result<Decl, AllocError>
    ensures { IfOk result (λ d. d ≡ decl_of name signature.now) }
{
    let args = copied(alloc, &signature.args)?;
    Ok(Decl {
        name,
        args,
        result: signature.result,
    })
}

// The declared symbols as a list.
#[tactic(auto, using(crate::proofs::Tables::symbol_listed))]
fn listed_symbols(alloc: Global, table: &Named<Signature>) -> Result<List<Decl>, AllocError>
    ensures { IfOk result (λ l. l ≡ symbols_of table.now) }
{
    let mut all = List::new(alloc);
    for place in 0..table.len() {
        let (name, signature) = table.entry(place).unwrap();
        let symbol = decl(alloc, name, signature)?;
        all.push(symbol)?;
    }
    Ok(all)
}

// The tables of a program as lists.
#[derive(Drop)]
struct Tables {
    types: List<(Symbol, TypeId)>,
    constants: List<(Symbol, i64)>,
    variables: List<(Symbol, TypeId)>,
    symbols: List<Decl>,
}

impl Known {
    /// The names that are known from the start.
    pub fn start(&self) -> &KnownNames
        ensures { known_names_of result.now ≡ self.now.start }
    {
        &self.start
    }

    // The tables as lists.
    fn tables(&self, alloc: Global) -> Result<Tables, AllocError>
        ensures types { IfOk result (λ t. t.types ≡ self.now.program.types) }
        ensures constants { IfOk result (λ t. t.constants ≡ self.now.program.constants) }
        ensures variables { IfOk result (λ t. t.variables ≡ self.now.program.variables) }
        ensures symbols { IfOk result (λ t. t.symbols ≡ self.now.program.symbols) }
    {
        let types = listed(alloc, &self.types)?;
        let constants = listed(alloc, &self.constants)?;
        let variables = listed(alloc, &self.variables)?;
        let symbols = listed_symbols(alloc, &self.symbols)?;
        Ok(Tables {
            types,
            constants,
            variables,
            symbols,
        })
    }

    // The whole program, with these tables.
    fn with_tables(self, tables: Tables, titles: List<Option<Symbol>>, main: Main) -> Program
        ensures { result ≡ ended (tabled self.program tables) titles (main_of main) }
    {
        Program {
            forms: self.forms.into_list(),
            titles,
            types: tables.types,
            constants: tables.constants,
            variables: tables.variables,
            symbols: tables.symbols,
            routines: self.routines,
            main,
        }
    }

    /// The whole program, with the first name of each type that has one, and its main block.
    pub fn into_program(
        self,
        alloc: Global,
        titles: List<Option<Symbol>>,
        main: Main,
    ) -> Result<Program, AllocError>
        ensures { IfOk result (λ p. p ≡ ended self.program titles (main_of main)) }
    {
        let tables = self.tables(alloc)?;
        Ok(self.with_tables(tables, titles, main))
    }
}
