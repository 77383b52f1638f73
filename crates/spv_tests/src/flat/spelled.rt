// Parts of trees, which have tokens.

ghost use Rattle.std.specs.Prelude.{List, OnOk};
ghost use Rattle.spv_tree.specs.declared.tokens.token.TokenKind.{TokenKind};
ghost use Rattle.spv_tests.specs.flat.Flat.{Adds};

use spv_tree::tokens::TokenKind;
use std::alloc::AllocError;

// A part of a tree, which has tokens.
pub trait Spelled {
    // What it spells, in front of other tokens.
    ghost spelled: { Self → List TokenKind → List TokenKind };

    // Adds its tokens. Where there is no memory, some of them may have been added.
    fn append(&self, out: &mut Vec<TokenKind>) -> Result<(), AllocError>
        ensures { OnOk result (Adds (spelled self.now) out.old.items out.new.items) };
}
