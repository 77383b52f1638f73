// What terms become.

use spv_logic::list::List;
use spv_term::TermId;
use std::alloc::{AllocError, Global};

/// What terms become, each at the place of its number.
#[derive(Drop)]
pub(crate) struct Images {
    terms: Vec<TermId>,
}

impl Images {
    /// These terms, in the place of those whose numbers are their places.
    pub(crate) fn new(terms: Vec<TermId>) -> Images {
        Images { terms }
    }

    /// So many terms, each of which stays what it is.
    pub(crate) fn same(alloc: Global, count: u32) -> Result<Images, AllocError> {
        let mut terms = Vec::new(alloc);
        for number in 0..count {
            terms.push(TermId(number))?;
        }
        Ok(Images { terms })
    }

    /// What a term becomes; itself where nothing is known of it.
    pub(crate) fn at(&self, t: TermId) -> TermId {
        match self.terms.as_slice().get(t.0 as usize) {
            Some(image) => *image,
            None => t,
        }
    }

    /// A term becomes another one, if there is a place for it.
    pub(crate) fn put(&mut self, t: TermId, image: TermId) {
        if let Some(place) = self.terms.get_mut(t.0 as usize) {
            *place = image;
        }
    }

    /// What terms become, one by one.
    pub(crate) fn all(&self, alloc: Global, ts: &[TermId]) -> Result<Vec<TermId>, AllocError> {
        let mut images = Vec::new(alloc);
        for t in ts {
            images.push(self.at(*t))?;
        }
        Ok(images)
    }

    /// The same as a list.
    pub(crate) fn list(&self, alloc: Global, ts: &[TermId]) -> Result<List<TermId>, AllocError> {
        let images = self.all(alloc, ts)?;
        Ok(List::from_vec(images))
    }
}
