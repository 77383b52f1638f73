// Where the bounds of rows come from.

ghost use Rattle.std.specs.Prelude.{◌≡◌, ◌<◌, length};
ghost use Rattle.spv_tableau_rules.specs.constraints.Sources.{with_source};
ghost use Rattle.spv_arithmetic_side.specs.bounds.Sources as spec;

use spv_tableau_rules::constraints::Source;
use spv_tableau_rules::tableaux::Side;

/// Where the bounds on the two sides of a row come from, as far as there are any.
#[derive(Clone, Copy, Debug, PartialEq, Eq)]
pub struct RowSources {
    /// Where the lower bound comes from.
    pub lower: Source,
    /// Where the upper bound comes from.
    pub upper: Source,
}

// Nothing is noted.
const NOWHERE: Source = Source {
    fact: 0,
    is_equal: false,
};

impl RowSources {
    /// Nothing is noted of either side.
    pub fn none() -> RowSources
        ensures { result ≡ spec.none }
    {
        RowSources {
            lower: NOWHERE,
            upper: NOWHERE,
        }
    }

    // Where the bound on a side comes from.
    fn on(self, side: Side) -> Source
        ensures { result ≡ spec.source_on self side }
    {
        match side {
            Side::Lower => self.lower,
            Side::Upper => self.upper,
        }
    }

    // The same with another source for a side.
    fn with(self, side: Side, source: Source) -> RowSources
        ensures { result ≡ spec.with_side self side source }
    {
        match side {
            Side::Lower => RowSources {
                lower: source,
                upper: self.upper,
            },
            Side::Upper => RowSources {
                lower: self.lower,
                upper: source,
            },
        }
    }
}

// Where the bound on a side of one of these rows comes from.
pub(crate) fn source(sources: &[RowSources], row: u32, side: Side) -> Source
    ensures { result ≡ spec.sources_in sources.now row side }
{
    match sources.get(row as usize) {
        Some(of_row) => of_row.on(side),
        None => NOWHERE,
    }
}

/// Notes where the bound on a side of a row comes from.
pub fn note(sources: &mut Vec<RowSources>, row: u32, side: Side, source: Source)
    requires { row < length sources.old.items }
    ensures rows { length sources.new.items ≡ length sources.old.items }
    ensures noted { spec.sources_in sources.new.items ≡ with_source (spec.sources_in sources.old.items) row side source }
{
    let place = row as usize;
    let old = sources[place];
    sources[place] = old.with(side, source);
}
