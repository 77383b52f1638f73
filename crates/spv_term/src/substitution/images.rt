// What terms have become.

ghost use Rattle.std.specs.Prelude.{◌≡◌, ◌∷◌, [], map, OnOk, IfOk};
ghost use Rattle.spv_term.specs.substitution.Images.{image_of, image_or, Puts, SameImages};

use indexmap::IndexMap;
use spv_logic::TermId;
use std::alloc::{AllocError, Global};
use std::marker::Model;

/// The term that each of some terms has become. A look-up goes by a hash.
#[derive(Drop)]
pub(crate) struct Images {
    made: IndexMap<TermId, TermId>,
}

impl Model for Images {
    ghost use Rattle.std.specs.Prelude.{List};
    ghost use Rattle.spv_logic.specs.declared.conditions.TermId.{TermId};

    ghost Value = { List (TermId × TermId) };

    ghost view = { λ m. m.made.entries };
}

impl Images {
    // No terms.
    fn new(alloc: Global) -> Images
        ensures { result ≡ [] }
    {
        Images {
            made: IndexMap::new(alloc),
        }
    }

    // What each first term of pairs becomes; the first pair counts.
    pub(crate) fn from_pairs(
        alloc: Global,
        pairs: &[(TermId, TermId)],
    ) -> Result<Images, AllocError>
        ensures { IfOk result (λ images. SameImages images pairs.now) }
    {
        let mut images = Images::new(alloc);
        let mut left = pairs.len();
        while left > 0 {
            left -= 1;
            let (from, to) = pairs[left];
            images.put(from, to)?;
        }
        Ok(images)
    }

    // What a term has become.
    pub(crate) fn get(&self, t: TermId) -> Option<TermId>
        ensures { result ≡ image_of self.now t }
    {
        self.made.get(&t).copied()
    }

    // What a term has become; itself, if nothing is known of it.
    fn get_or(&self, t: TermId) -> TermId
        ensures { result ≡ image_or self.now t }
    {
        self.get(t).unwrap_or(t)
    }

    // Keeps what a term has become.
    pub(crate) fn put(&mut self, t: TermId, image: TermId) -> Result<(), AllocError>
        ensures { OnOk result (Puts t image self.old self.new) }
    {
        self.made.insert(t, image)?;
        Ok(())
    }

    // What terms have become, one by one.
    pub(crate) fn all(&self, alloc: Global, list: &[TermId]) -> Result<Vec<TermId>, AllocError>
        ensures { IfOk result (λ us. us.items ≡ map (image_or self.now) list.now) }
    {
        let mut images = Vec::new(alloc);
        for t in list {
            images.push(self.get_or(*t))?;
        }
        Ok(images)
    }
}
