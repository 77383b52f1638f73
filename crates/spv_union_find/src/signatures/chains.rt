// Hashes in order, and the last place of one.

ghost use Rattle.std.specs.Prelude.{◌≡◌, ◌≤◌, ◌<◌, ◌+◌, ◌%◌, suc, [], ◌∷◌, ◌++◌, map, IfOk, IsOk, OnOk, length, take, slice_index_or, ◌-◌, ℕ, None};
ghost use Rattle.std.specs.Vec.{vec_capacity};
ghost use Rattle.spv_union_find.specs.signatures.Chains as spec;
ghost use Rattle.spv_union_find.specs.signatures.Chains.{AreLinked, has_hash, in_bucket, last_where, link_at};

use std::alloc::{AllocError, Global};
use std::marker::Model;

/// A hash, and the place of the hash before it that falls into the same bucket.
#[derive(Clone, Copy, Debug)]
pub(crate) struct Link {
    pub(crate) hash: u64,
    pub(crate) previous: Option<usize>,
}

/// Hashes in the order in which they were added. Those of one bucket stand on a chain, from the last one back.
#[derive(Drop)]
pub(crate) struct Chains {
    links: Vec<Link>,
    // For each bucket the place of its last link.
    buckets: Vec<Option<usize>>,
}

impl Model for Chains {
    ghost use Rattle.std.specs.Prelude.{◌≤◌, length, map, min};
    ghost use Rattle.std.specs.Vec.{vec_capacity};
    ghost use Rattle.spv_union_find.specs.signatures.Chains as spec;

    ghost Value = { spec.Hashes };

    ghost view = { λ c. record { hashes = map (λ l. l.hash) c.links.items; room = min (vec_capacity c.links) (length c.buckets.items) } };

    ghost invariant = { λ c. record {
      linked : spec.AreLinked c.links.items c.buckets.items (length c.links.items);
      fit : length c.links.items ≤ length c.buckets.items;
    } };
}

// The link at a place.
fn link_at(links: &[Link], place: usize) -> Link
    requires { place < length links.now }
    ensures { result ≡ spec.link_at links.now place }
{
    links[place]
}

// The last link of a bucket.
fn end_of(buckets: &[Option<usize>], bucket: usize) -> Option<usize>
    requires { bucket < length buckets.now }
    ensures { result ≡ slice_index_or buckets.now bucket None }
{
    buckets[bucket]
}

// The bucket of a hash, one of so many.
fn bucket_of(hash: u64, count: usize) -> usize
    requires { 0 < count }
    ensures is { result ≡ hash % count }
    ensures within { result < count }
{
    (hash % count as u64) as usize
}

// The last link below a place in the bucket of a hash. The place is that of such a link, or the end.
fn before(links: &[Link], buckets: &[Option<usize>], below: usize, hash: u64) -> Option<usize>
    requires linked { AreLinked links.now buckets.now (length links.now) }
    requires fit { length links.now ≤ length buckets.now }
    requires some { 0 < below }
    requires within { below ≤ length links.now }
    requires here { below < length links.now → (link_at links.now below).hash ≡ hash }
    ensures { result ≡ last_where (in_bucket links.now (length buckets.now) (hash % length buckets.now)) below }
{
    if below < links.len() {
        link_at(links, below).previous
    } else {
        end_of(buckets, bucket_of(hash, buckets.len()))
    }
}

// The last link below a place with a hash. The place is that of a link with this hash, or the end.
fn last_below(links: &[Link], buckets: &[Option<usize>], below: usize, hash: u64) -> Option<usize>
    requires linked { AreLinked links.now buckets.now (length links.now) }
    requires fit { length links.now ≤ length buckets.now }
    requires within { below ≤ length links.now }
    requires here { below < length links.now → (link_at links.now below).hash ≡ hash }
    ensures { result ≡ last_where (has_hash links.now hash) below }
{
    if below == 0 {
        return None;
    }
    let mut at = before(links, buckets, below, hash);
    while let Some(place) = at {
        let link = link_at(links, place);
        if link.hash == hash {
            return Some(place);
        }
        at = link.previous;
    }
    None
}

// Puts the link at a place behind those of its bucket.
fn chain_one(links: &mut Vec<Link>, buckets: &mut Vec<Option<usize>>, place: usize)
    requires within { place < length links.old.items }
    requires some { 0 < length buckets.old.items }
    requires linked { AreLinked links.old.items buckets.old.items place }
    ensures linked { AreLinked links.new.items buckets.new.items (suc place) }
    ensures hashes { map (λ l. l.hash) links.new.items ≡ map (λ l. l.hash) links.old.items }
    ensures count { length buckets.new.items ≡ length buckets.old.items }
    ensures room { vec_capacity links.old ≤ vec_capacity links.new }
{
    let hash = link_at(links.as_slice(), place).hash;
    let bucket = bucket_of(hash, buckets.as_slice().len());
    let previous = end_of(buckets.as_slice(), bucket);
    links[place] = Link { hash, previous };
    buckets[bucket] = Some(place);
}

// Puts all links into buckets, which are empty.
fn chain_all(links: &mut Vec<Link>, buckets: &mut Vec<Option<usize>>)
    requires fit { length links.old.items ≤ length buckets.old.items }
    requires empty { (b : ℕ) → slice_index_or buckets.old.items b None ≡ None }
    ensures linked { AreLinked links.new.items buckets.new.items (length links.new.items) }
    ensures hashes { map (λ l. l.hash) links.new.items ≡ map (λ l. l.hash) links.old.items }
    ensures count { length buckets.new.items ≡ length buckets.old.items }
    ensures room { vec_capacity links.old ≤ vec_capacity links.new }
{
    for place in 0..links.as_slice().len() {
        chain_one(links, buckets, place);
    }
}

// So many buckets, which are empty.
fn empty_buckets(alloc: Global, count: usize) -> Result<Vec<Option<usize>>, AllocError>
    ensures count { IfOk result (λ v. length v.items ≡ count) }
    ensures empty { IfOk result (λ v. (b : ℕ) → slice_index_or v.items b None ≡ None) }
{
    vec![in alloc; None; count]
}

// Makes so many buckets at least.
fn widen(
    links: &mut Vec<Link>,
    buckets: &mut Vec<Option<usize>>,
    count: usize,
) -> Result<(), AllocError>
    requires linked { AreLinked links.old.items buckets.old.items (length links.old.items) }
    requires fit { length links.old.items ≤ length buckets.old.items }
    ensures linked { AreLinked links.new.items buckets.new.items (length links.new.items) }
    ensures hashes { map (λ l. l.hash) links.new.items ≡ map (λ l. l.hash) links.old.items }
    ensures more { length buckets.old.items ≤ length buckets.new.items }
    ensures room { vec_capacity links.old ≤ vec_capacity links.new }
    ensures ok { OnOk result (count ≤ length buckets.new.items) }
    ensures succeeds { count ≤ length buckets.old.items → IsOk result }
{
    let old = buckets.as_slice().len();
    if count <= old {
        return Ok(());
    }
    let mut wider = empty_buckets(*buckets.allocator(), count.saturating_mul(2))?;
    chain_all(links, &mut wider);
    *buckets = wider;
    Ok(())
}

impl Chains {
    // No hashes. It takes no memory.
    pub(crate) fn new(alloc: Global) -> Chains
        ensures { result.hashes ≡ [] }
    {
        Chains {
            links: Vec::new(alloc),
            buckets: Vec::new(alloc),
        }
    }

    // How many hashes there are.
    pub(crate) fn len(&self) -> usize
        ensures { result ≡ length self.now.hashes }
    {
        self.links.as_slice().len()
    }

    // The last place below a place with a hash. The place is that of this hash, or the end.
    pub(crate) fn last_below(&self, below: usize, hash: u64) -> Option<usize>
        requires within { below ≤ length self.now.hashes }
        requires here { below < length self.now.hashes → slice_index_or self.now.hashes below 0 ≡ hash }
        ensures { result ≡ spec.last_below self.now.hashes hash below }
    {
        last_below(self.links.as_slice(), self.buckets.as_slice(), below, hash)
    }

    // Makes memory for so many hashes in all.
    pub(crate) fn reserve(&mut self, count: usize) -> Result<(), AllocError>
        ensures hashes { self.new.hashes ≡ self.old.hashes }
        ensures room { self.old.room ≤ self.new.room }
        ensures ok { OnOk result (count ≤ self.new.room) }
        ensures succeeds { count ≤ self.old.room → IsOk result }
    {
        let more = count.saturating_sub(self.links.as_slice().len());
        self.links.reserve(more)?;
        widen(&mut self.links, &mut self.buckets, count)
    }

    // Puts a hash behind the others, for which there is memory.
    pub(crate) fn push(&mut self, hash: u64)
        requires { suc (length self.old.hashes) ≤ self.old.room }
        ensures hashes { self.new.hashes ≡ self.old.hashes ++ hash ∷ [] }
        ensures room { self.old.room ≤ self.new.room }
    {
        let place = self.links.as_slice().len();
        let previous = None;
        self.links.push(Link { hash, previous }).unwrap();
        chain_one(&mut self.links, &mut self.buckets, place);
    }

    // Takes the last hash away.
    fn pop(&mut self)
        requires { 0 < length self.old.hashes }
        ensures hashes { self.new.hashes ≡ take (length self.old.hashes - 1) self.old.hashes }
        ensures room { self.old.room ≤ self.new.room }
    {
        let link = self.links.pop().unwrap();
        let bucket = bucket_of(link.hash, self.buckets.as_slice().len());
        self.buckets[bucket] = link.previous;
    }

    // Takes away all but so many, the first ones. It takes no memory.
    pub(crate) fn cut(&mut self, count: usize)
        ensures hashes { self.new.hashes ≡ take count self.old.hashes }
        ensures room { self.old.room ≤ self.new.room }
    {
        while self.len() > count {
            self.pop();
        }
    }
}
