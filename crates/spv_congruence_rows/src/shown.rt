// What is printed of a graph.

use spv_congruence::Link;
use spv_term::TermId;
use std::alloc::{AllocError, Global};

/// Adds a line.
pub fn add_line(out: &mut Vec<u8>, line: &str) -> Result<(), AllocError> {
    out.extend_from_slice(line.as_bytes())?;
    out.extend_from_slice(b"\n")
}

/// Adds whether the classes are those that were noted.
pub fn add_noted(out: &mut Vec<u8>, same: bool) -> Result<(), AllocError> {
    let line = if same {
        "the classes are as noted"
    } else {
        "the classes are not as noted"
    };
    add_line(out, line)
}

/// Adds whether two terms are the same.
pub fn add_same(
    alloc: Global,
    out: &mut Vec<u8>,
    s: TermId,
    t: TermId,
    same: bool,
) -> Result<(), AllocError> {
    let word = if same { "the same" } else { "not the same" };
    let line = format!(in alloc; "{} and {} are {word}\n", s.0, t.0)?;
    out.extend_from_slice(line.as_str().as_bytes())
}

// Adds a link.
fn add_link(alloc: Global, out: &mut Vec<u8>, link: Link) -> Result<(), AllocError> {
    let text = match link {
        Link::Told(why) => format!(in alloc; " told {why}")?,
        Link::Congruent(s, t) => format!(in alloc; " congruent {} {}", s.0, t.0)?,
    };
    out.extend_from_slice(text.as_str().as_bytes())
}

/// Adds the links from one term to another one.
pub fn add_links(
    alloc: Global,
    out: &mut Vec<u8>,
    s: TermId,
    t: TermId,
    links: &[Link],
) -> Result<(), AllocError> {
    let line = format!(in alloc; "from {} to {}:", s.0, t.0)?;
    out.extend_from_slice(line.as_str().as_bytes())?;
    for link in links {
        add_link(alloc, out, *link)?;
    }
    out.extend_from_slice(b"\n")
}

/// Adds two terms that are the same and cannot be, if there are such, the smaller number first.
pub fn add_clash(
    alloc: Global,
    out: &mut Vec<u8>,
    clash: Option<(TermId, TermId)>,
) -> Result<(), AllocError> {
    let Some((s, t)) = clash else {
        return add_line(out, "no clash");
    };
    let line = format!(in alloc; "{} and {} clash\n", s.0.min(t.0), s.0.max(t.0))?;
    out.extend_from_slice(line.as_str().as_bytes())
}
