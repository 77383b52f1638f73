// A report: what was found out about a program.

ghost use Rattle.std.specs.Prelude.{◌≡◌};
ghost use Rattle.spv_logic.specs.Conditions.{Meaning};
ghost use Rattle.spv_reports.specs.Reports.{findings, IsReport, ProvedIsCorrectIn};

use crate::mode::Mode;
use spv_listing_values::Listing;
use spv_logic::list::List;
use spv_logic::names::{Names, Symbol};
use spv_rules::Rules;
use spv_term::{Condition, Terms, World};
use spv_verdicts::answers::Decided;
use std::marker::Model;

/// The names that a program gives: the table of all its names, the first name of each type that has one, by its number, and the name of
/// each routine, by its number.
#[derive(Drop)]
pub struct ProgramNames {
    /// All names.
    pub names: Names,
    /// The first names of the types.
    pub titles: List<Option<Symbol>>,
    /// The names of the routines.
    pub routines: List<Symbol>,
}

/// What was found out about a program: its verification conditions, and where verdicts were wanted what was decided of each under its
/// rules, or of the proof that a listing has of it. That there is a program whose conditions these are, and that the verdicts are right,
/// are facts of this type.
#[derive(Drop)]
pub struct Report {
    named: ProgramNames,
    terms: Terms,
    conditions: Vec<Condition>,
    rules: Rules,
    mode: Mode,
    listing: Option<Listing>,
    verdicts: Vec<Decided>,
    proofs: bool,
}

impl Model for Report {
    ghost use Rattle.std.specs.Coded.{codes};
    ghost use Rattle.spv_logic.specs.list.Ways.{coded_by};
    ghost use Rattle.spv_listing_values.specs.Ways.{way_written};
    ghost use Rattle.spv_reports.specs.Reports.{Findings, IsReport};

    ghost Value = { Findings };

    ghost coded = { Prim.hlevel (codes, coded_by way_written) };

    ghost view = { λ r. record {
      named = r.named;
      arena = r.terms;
      conditions = r.conditions.items;
      rules = r.rules;
      mode = r.mode;
      listing = r.listing;
      verdicts = r.verdicts.items;
      proofs = r.proofs;
    } };

    ghost invariant = { λ r. IsReport (record {
      named = r.named;
      arena = r.terms;
      conditions = r.conditions.items;
      rules = r.rules;
      mode = r.mode;
      listing = r.listing;
      verdicts = r.verdicts.items;
      proofs = r.proofs;
    }) };
}

impl Report {
    /// The report with these conditions and verdicts, which are those of a program, under these rules and for this listing, where there is
    /// one. A page of it has no proofs.
    pub fn new(
        named: ProgramNames,
        terms: Terms,
        conditions: Vec<Condition>,
        rules: Rules,
        mode: Mode,
        listing: Option<Listing>,
        verdicts: Vec<Decided>,
    ) -> Report
        requires report { IsReport (findings named terms conditions.items rules mode listing verdicts.items) }
        ensures findings { result ≡ findings named terms conditions.items rules mode listing verdicts.items }
    {
        Report {
            named,
            terms,
            conditions,
            rules,
            mode,
            listing,
            verdicts,
            proofs: false,
        }
    }

    /// The same report, of which a page has proofs, or has none.
    #[tactic(auto, using(crate::proofs::Reports::same_report))]
    pub fn with_proofs(self, proofs: bool) -> Report
        ensures { result ≡ record self { proofs = proofs } }
    {
        let mut report = self;
        report.proofs = proofs;
        report
    }

    /// The names that the program gives.
    pub fn named(&self) -> &ProgramNames
        ensures { result.now ≡ self.now.named }
    {
        &self.named
    }

    /// Whether a page of it has proofs.
    pub fn proofs(&self) -> bool
        ensures { result ≡ self.now.proofs }
    {
        self.proofs
    }

    /// The terms of the conditions.
    pub fn terms(&self) -> &Terms
        ensures { result.now ≡ self.now.arena }
    {
        &self.terms
    }

    /// The conditions, in the order of their numbers.
    pub fn conditions(&self) -> &[Condition]
        ensures { result.now ≡ self.now.conditions }
    {
        &self.conditions
    }

    /// The rules under which the conditions were decided.
    pub fn rules(&self) -> &Rules
        ensures { result.now ≡ self.now.rules }
    {
        &self.rules
    }

    /// What the report is for.
    pub fn mode(&self) -> &Mode
        ensures { result.now ≡ self.now.mode }
    {
        &self.mode
    }

    /// The listing whose proofs were checked, in the mode `Check`.
    pub fn listing(&self) -> &Option<Listing>
        ensures { result.now ≡ self.now.listing }
    {
        &self.listing
    }

    /// What was decided: nothing in the mode `Conditions`, else of each condition, and in that order.
    pub fn verdicts(&self) -> &[Decided]
        ensures { result.now ≡ self.now.verdicts }
    {
        self.verdicts.as_slice()
    }

    /// What is true of every report: there is a program that it is on.
    pub fn law_findings(&self)
        ensures { IsReport self.now }
    {
        let _ = &self.verdicts;
    }
}

/// Where a report has verdicts and each is Proved, the program that it is on is correct in each world in which the rules of the report
/// hold: said of every world at once, and of one that is at hand.
pub fn law_report<W: World>(report: &Report, world: &W)
    ensures every_world { (m : Meaning) → ProvedIsCorrectIn report.now m }
    ensures this_world { ProvedIsCorrectIn report.now (W.apply world.now) }
{
    report.law_findings();
    let _ = world;
}
