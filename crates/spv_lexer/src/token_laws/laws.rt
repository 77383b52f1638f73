//! What follows from the definition of what stands at the front of a text.
ghost use Rattle.std.specs.Prelude.{◌≡◌, ◌≤◌, ◌∷◌, [], ◌++◌, ℕ, List, codes, false, length, take, drop};
ghost use Rattle.std.specs.Char.{is_ascii_alphanumeric, is_ascii_digit};
ghost use Rattle.std.specs.Fmt.{decimal};
ghost use Rattle.spv_tree.specs.declared.tokens.token.Word.{Word};
ghost use Rattle.spv_lexer.specs.Spelling.{name, number, word};
ghost use Rattle.spv_lexer.specs.Front.{front, gap, token};
ghost use Rattle.spv_lexer.specs.Reading.{kinds};
ghost use Rattle.spv_lexer.specs.token_laws.Fronts.{goes_on, IsBetween, IsComment};

/// Between tokens there are blanks and whole comments, and a comment has its closing sign only at its end. Each comment is read
/// as one, whatever follows.
pub fn law_comment()
    ensures between { (text : List ℕ) (k : ℕ) → front text ≡ gap k → IsBetween (take k text) }
    ensures braces { (text rest : List ℕ) → IsComment (codes "{") (codes "}") text → front (text ++ rest) ≡ gap (length text) }
    ensures stars { (text rest : List ℕ) → IsComment (codes "(*") (codes "*)") text → front (text ++ rest) ≡ gap (length text) }
{}

/// No letter and no digit follows a name or a word, and no digit follows a number.
pub fn law_followed()
    ensures names { (text n : List ℕ) (k : ℕ) → front text ≡ token (name n) k → goes_on is_ascii_alphanumeric (drop k text) ≡ false }
    ensures words { (text : List ℕ) (w : Word) (k : ℕ) → front text ≡ token (word w) k → goes_on is_ascii_alphanumeric (drop k text) ≡ false }
    ensures numbers { (text : List ℕ) (n k : ℕ) → front text ≡ token (number n) k → goes_on is_ascii_digit (drop k text) ≡ false }
{}

/// The decimal text of a number is read as this number: alone, and wherever no digit follows.
pub fn law_decimal()
    ensures front { (n : ℕ) (rest : List ℕ) → n ≤ 9223372036854775807 → goes_on is_ascii_digit rest ≡ false → front (decimal n ++ rest) ≡ token (number n) (length (decimal n)) }
    ensures alone { (n : ℕ) → n ≤ 9223372036854775807 → kinds (decimal n) ≡ number n ∷ [] }
{}
