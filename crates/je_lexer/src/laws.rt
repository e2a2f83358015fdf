//! Laws of the definitions.

ghost use Rattle.std.specs.Prelude.{◌≡◌, ◌≤◌, ◌⊎◌, ℕ, List, Some, All, length};
ghost use Rattle.je_decode.specs.declared.character.Character.{Character};
ghost use Rattle.je_lexer.specs.Elements.{Element, IsNext, BeginsNone};
ghost use Rattle.je_lexer.specs.Lexing.{HasTokens, HasFault, IsInside, AreWhole};
ghost use Rattle.je_lexer.specs.Words.{keyword_of};
ghost use Rattle.je_lexer.specs.declared.fault.FaultKind.{FaultKind as Kind};
ghost use Rattle.je_token.specs.Texts.{keyword_text};
ghost use Rattle.je_token.specs.declared.keyword.Keyword.{Keyword as AKeyword};
ghost use Rattle.je_token.specs.declared.token.Token.{Token as AToken};

/// At each place of a text one input element is next, with its characters, or none begins.
pub fn one_element()
    ensures one { (text : List Character) (e f : Element)
        (front behind front1 behind1 : List Character) →
        IsNext text e front behind → IsNext text f front1 behind1 →
        (e ≡ f) × (front ≡ front1) × (behind ≡ behind1) }
    ensures some { (text : List Character) →
        ((e : Element) × (front : List Character) × (behind : List Character) ×
        IsNext text e front behind) ⊎ BeginsNone text }
{}

/// Bytes have tokens or a fault, and not both.
pub fn tokens_or_fault()
    ensures one { (file : ℕ) (bytes : List ℕ) →
        ((list : List AToken) × (names : List (List ℕ)) × (texts : List (List ℕ)) ×
        HasTokens file bytes list names texts) ⊎
        ((kind : Kind) × (start : ℕ) × (end : ℕ) × HasFault bytes kind start end) }
    ensures not_both { (file : ℕ) (bytes : List ℕ)
        (list : List AToken) (names texts : List (List ℕ)) (kind : Kind) (start end : ℕ) →
        HasTokens file bytes list names texts → ¬ HasFault bytes kind start end }
{}

/// Bytes have one list of tokens at most, with one list of names and one of texts, and one fault at most.
pub fn answer_is_one()
    ensures tokens { (file : ℕ) (bytes : List ℕ)
        (list list1 : List AToken) (names texts names1 texts1 : List (List ℕ)) →
        HasTokens file bytes list names texts → HasTokens file bytes list1 names1 texts1 →
        (list ≡ list1) × (names ≡ names1) × (texts ≡ texts1) }
    ensures fault { (bytes : List ℕ) (kind kind1 : Kind) (start end start1 end1 : ℕ) →
        HasFault bytes kind start end → HasFault bytes kind1 start1 end1 →
        (kind ≡ kind1) × (start ≡ start1) × (end ≡ end1) }
{}

/// Each token's bytes are in the file.
pub fn tokens_inside()
    ensures { (file : ℕ) (bytes : List ℕ) (list : List AToken) (names texts : List (List ℕ)) →
        HasTokens file bytes list names texts → All (IsInside file (length bytes)) list }
{}

/// The last token is of kind End and no other is; each token's name number is a place in the names, and each string literal's
/// value a place in the texts.
pub fn tokens_are_whole()
    ensures { (file : ℕ) (bytes : List ℕ) (list : List AToken) (names texts : List (List ℕ)) →
        HasTokens file bytes list names texts → AreWhole list names texts }
{}

/// A fault's bytes are in the file.
pub fn fault_inside()
    ensures { (bytes : List ℕ) (kind : Kind) (start end : ℕ) →
        HasFault bytes kind start end → (start ≤ end) × (end ≤ length bytes) }
{}

/// A word is read as a keyword just where it is that keyword's text.
pub fn keyword_spelled()
    ensures spelled { (text : List ℕ) (k : AKeyword) →
        keyword_of text ≡ Some k → text ≡ keyword_text k }
    ensures found { (k : AKeyword) → keyword_of (keyword_text k) ≡ Some k }
{}
