//! The laws. Each is a function with an empty body, whose contract is the law.

ghost use Rattle.std.specs.Prelude.{◌≡◌, ◌↔◌, ℕ, Bool, List, drop, Some, None, Ok};
ghost use Rattle.plus_tokens.specs.declared.token.Token.{Token as FoundToken};
ghost use Rattle.plus_tokens.specs.First.{first_token};
ghost use Rattle.plus_tokens.specs.Spelling.{IsFirst, IsGapToEnd, IsNumber};
ghost use Rattle.plus_tokens.specs.declared.numeral.Numeral.{Numeral};
ghost use Rattle.plus_tokens.specs.Numeral.{numeral, numeral_of};

/// What stands first is found: a spelled token behind a gap is the first token.
pub fn spelled_is_found()
    ensures { (text : List ℕ) (from : ℕ) (t : FoundToken) → IsFirst text from t →
        first_token text from ≡ Ok (Some t) }
{}

/// What is found stands first: the first token is spelled, behind a gap.
pub fn found_is_spelled()
    ensures { (text : List ℕ) (from : ℕ) (t : FoundToken) → first_token text from ≡ Ok (Some t) →
        IsFirst text from t }
{}

/// So no two tokens stand first.
pub fn one_first_token()
    ensures { (text : List ℕ) (from : ℕ) (t u : FoundToken) →
        IsFirst text from t → IsFirst text from u → t ≡ u }
{}

/// No token is found exactly where blanks and comments alone are left.
pub fn none_is_a_gap()
    ensures { (text : List ℕ) (from : ℕ) →
        (first_token text from ≡ Ok None) ↔ IsGapToEnd (drop from text) }
{}

/// A number that is spelled is the one that is read.
pub fn spelled_is_numeral()
    ensures { (negative : Bool) (digits : ℕ) (places : ℕ) (bytes : List ℕ) → IsNumber negative digits places bytes →
        numeral_of bytes ≡ Some (numeral negative digits places) }
{}

/// A number that is read is spelled.
pub fn numeral_is_spelled()
    ensures { (bytes : List ℕ) (n : Numeral) → numeral_of bytes ≡ Some n →
        IsNumber n.negative n.digits n.places bytes }
{}
