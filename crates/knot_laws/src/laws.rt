// Laws of what is read, and of the grammar, each on a function without a body.

ghost use Rattle.std.specs.Prelude.{ℕ, List};
ghost use Rattle.je_ast.specs.Height.{height, statement_height, member_height, declaration_height};
ghost use Rattle.je_grammar.specs.Grammar.{Spells, SpellsBlockStatement, SpellsMember, SpellsDeclaration};
ghost use Rattle.knot_laws.specs.Laws.{AllIsRead, LongestExpressionsAreRead, LongestStatementsAreRead, LongestMembersAreRead, LongestDeclarationsAreRead, SpellsOnce, BeginsOnce, IsLongestOnce};

/// All that reads trees of at most some height reads right: what is read is spelled, and what is spelled is read, or
/// something longer.
pub fn all_is_read()
    ensures { AllIsRead }
{}

/// What is read is the longest tree of at most the height that begins there, and nothing exactly where none does.
pub fn longest_are_read()
    ensures expressions { LongestExpressionsAreRead }
    ensures statements { LongestStatementsAreRead }
    ensures members { LongestMembersAreRead }
    ensures declarations { LongestDeclarationsAreRead }
{}

/// Two trees that spell the same tokens are equal, spans included, whatever follows each.
pub fn spells_once()
    ensures expressions { (names texts : List (List ℕ)) → SpellsOnce (Spells names texts) }
    ensures statements { (names texts : List (List ℕ)) →
        SpellsOnce (SpellsBlockStatement names texts) }
    ensures members { (names texts : List (List ℕ)) → SpellsOnce (SpellsMember names texts) }
    ensures declarations { (names texts : List (List ℕ)) →
        SpellsOnce (SpellsDeclaration names texts) }
{}

/// Members and declarations that begin at one place are equal and end at one place, whatever follows.
pub fn begins_once()
    ensures members { (names texts : List (List ℕ)) → BeginsOnce (SpellsMember names texts) }
    ensures declarations { (names texts : List (List ℕ)) →
        BeginsOnce (SpellsDeclaration names texts) }
{}

/// The longest tree at a place is one, of at most any height.
pub fn longest_once()
    ensures expressions { (names texts : List (List ℕ)) →
        IsLongestOnce (Spells names texts) height }
    ensures statements { (names texts : List (List ℕ)) →
        IsLongestOnce (SpellsBlockStatement names texts) statement_height }
    ensures members { (names texts : List (List ℕ)) →
        IsLongestOnce (SpellsMember names texts) member_height }
    ensures declarations { (names texts : List (List ℕ)) →
        IsLongestOnce (SpellsDeclaration names texts) declaration_height }
{}
