//! Terms that belong together, found by a number.

ghost use Rattle.std.specs.Prelude.{◌≡◌, ℕ, List, [], ◌∷◌, ◌++◌, IfOk, OnOk, map, filter, nat_eq, if◌then◌else◌};
ghost use Rattle.std.specs.List.{list_any, flat_map};
ghost use Rattle.indexmap.specs.IndexSet.{insert_key};
ghost use Rattle.spv_proof.specs.schema_facts.Groups.{OnceEach, has_key, has_member, is_linked, same_link, linked};

use indexmap::IndexSet;
use spv_term::TermId;
use std::alloc::{AllocError, Global};
use std::collections::BTreeMap;
use std::marker::Model;

/// That a term belongs to a number: that of a type, or of another term.
#[derive(Clone, Copy, PartialEq, Eq, Hash, Debug)]
pub(crate) struct Link {
    pub(crate) key: u32,
    pub(crate) member: TermId,
}

/// Links, each once. A look-up goes by a hash.
#[derive(Drop)]
pub(crate) struct Links {
    links: IndexSet<Link>,
}

impl Model for Links {
    ghost use Rattle.std.specs.Prelude.{List};
    ghost use Rattle.spv_proof.specs.declared.schema_facts.groups.Link.{Link};

    ghost Value = { List Link };

    ghost view = { λ s. s.links.keys };
}

impl Links {
    // No links.
    pub(crate) fn new(alloc: Global) -> Links
        ensures { result ≡ [] }
    {
        Links {
            links: IndexSet::new(alloc),
        }
    }

    // One link more, if it is new.
    pub(crate) fn put(&mut self, link: Link) -> Result<(), AllocError>
        ensures { OnOk result (self.new ≡ insert_key same_link self.old link) }
    {
        self.links.insert_full(link)?;
        Ok(())
    }

    // Whether a link is among them.
    pub(crate) fn has(&self, link: Link) -> bool
        ensures { result ≡ list_any (same_link link) self.now }
    {
        self.links.contains(&link)
    }

    // The links in the order in which they came.
    fn as_slice(&self) -> &[Link]
        ensures { result.now ≡ self.now }
    {
        self.links.as_slice()
    }
}

/// Links by numbers. A look-up goes by the order of the numbers.
#[derive(Drop)]
pub(crate) struct Groups {
    lists: BTreeMap<u32, Vec<Link>>,
}

impl Groups {
    // The links of a number, in order.
    pub(crate) fn get(&self, number: u32) -> &[Link]
        ensures { result.now ≡ linked self.now number }
    {
        match self.lists.get(&number) {
            Some(list) => list.as_slice(),
            None => &[],
        }
    }
}

// Links by their terms.
fn by_member(alloc: Global, links: &[Link]) -> Result<Groups, AllocError>
    ensures { IfOk result (λ groups. (q : ℕ) → linked groups q ≡ filter (has_member q) links.now) }
{
    let mut lists: BTreeMap<u32, Vec<Link>> = BTreeMap::new(alloc);
    for link in links {
        lists.entry(link.member.0)?.or_default().push(*link)?;
    }
    Ok(Groups { lists })
}

// Links by their numbers.
fn by_key(alloc: Global, links: &[Link]) -> Result<Groups, AllocError>
    ensures { IfOk result (λ groups. (q : ℕ) → linked groups q ≡ filter (has_key q) links.now) }
{
    let mut lists: BTreeMap<u32, Vec<Link>> = BTreeMap::new(alloc);
    for link in links {
        lists.entry(link.key)?.or_default().push(*link)?;
    }
    Ok(Groups { lists })
}

// The links of terms, one term after the other.
fn in_order(alloc: Global, ts: &[TermId], groups: &Groups) -> Result<Vec<Link>, AllocError>
    ensures { IfOk result (λ links. links.items ≡ flat_map (λ t. linked groups.now t.0) ts.now) }
{
    let mut links = Vec::new(alloc);
    for t in ts {
        links.extend_from_slice(groups.get(t.0))?;
    }
    Ok(links)
}

/// Links by their numbers, those of a number in the order of their terms. What has no term among these is left out.
pub(crate) fn grouped(alloc: Global, ts: &[TermId], links: &Links) -> Result<Groups, AllocError>
    requires { OnceEach links.now }
    ensures { IfOk result (λ groups. (q : ℕ)
        → map (λ l. l.member) (linked groups q) ≡ filter (λ t. list_any (is_linked q t) links.now) ts.now) }
{
    let members = by_member(alloc, links.as_slice())?;
    let links = in_order(alloc, ts, &members)?;
    by_key(alloc, links.as_slice())
}
