//! What follows from the definition of the tokens of a text.
ghost use Rattle.std.specs.Prelude.{◌≡◌, ◌≤◌, ◌++◌, ℕ, List, All, Contains, IsTrue, length, nat_eq, take};
ghost use Rattle.std.specs.List.{starts_with};
ghost use Rattle.spv_tree.specs.declared.tokens.token.Sign.{Sign};
ghost use Rattle.spv_lexer.specs.Spelling.{long_signs, short_signs, sign};
ghost use Rattle.spv_lexer.specs.Front.{front, token};
ghost use Rattle.spv_lexer.specs.Reading.{by_front, kinds, reading_from, IsGap, HasTokens};

/// A text is read by its front: what stands there, and then what is read of the rest.
pub fn law_front()
    ensures { (line : ℕ) (text : List ℕ)
        → reading_from line text ≡ by_front reading_from line text (front text) }
{}

/// A blank or a comment parts tokens: what stands on its two sides is read as if each side stood alone. So where two tokens do not
/// join, one more blank or comment between them changes the kind of no token.
pub fn law_gap()
    ensures apart { (before between after : List ℕ) → HasTokens before → IsGap between
        → kinds (before ++ between ++ after) ≡ kinds before ++ kinds after }
    ensures one_more { (before between after : List ℕ) → HasTokens before → IsGap between
        → kinds (before ++ after) ≡ kinds before ++ kinds after
        → kinds (before ++ between ++ after) ≡ kinds (before ++ after) }
{}

/// A sign that is read stands at the front of the text, and no longer sign of the language stands there.
pub fn law_longest_sign()
    ensures stands { (text : List ℕ) (s : Sign) (k : ℕ) → front text ≡ token (sign s) k
        → Contains (long_signs ++ short_signs) (take k text, s) }
    ensures longest { (text : List ℕ) (s : Sign) (k : ℕ) → front text ≡ token (sign s) k
        → All (λ e. IsTrue (starts_with nat_eq text e.0) → length e.0 ≤ k)
        (long_signs ++ short_signs) }
{}
