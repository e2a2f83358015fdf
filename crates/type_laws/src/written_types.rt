// Laws of names and types, each on a function without a body.

ghost use Rattle.std.specs.Prelude.{◌≡◌, ℕ, ◌≤◌, true, false, List, ◌↔◌};
ghost use Rattle.je_base.specs.declared.span.Span.{Span};
ghost use Rattle.je_token.specs.declared.token.Token.{Token};
ghost use Rattle.je_ast.specs.Types.{TypeName, type_height};
ghost use Rattle.je_grammar.specs.Types.{SpellsName, SpellsDims, SpellsTypeName};
ghost use Rattle.je_grammar.specs.Grammar.{SpellsElement};
ghost use Rattle.parse_laws.specs.way.Types.{name_at, past_name_at, dims_at, type_at, past_type_at, reference_at, plain_type_at, element_at, is_cast_at, begins_local_at};
ghost use Rattle.parse_laws.specs.way.Readers.{Reads};
ghost use Rattle.type_laws.specs.Laws.{Within, Sound, Exact, Complete, Longest, Unique, PassesSpelled, PassesEach, IsExactDims, SpellsPlainType, names_on, dims_on, references_on, types_on, plain_types_on};
ghost use Rattle.parse_laws.specs.way.Readers.{SpellsReference};
ghost use Rattle.type_laws.specs.Ahead.{BeginsCast, BeginsLocal};

/// A name is read to its last part.
pub fn names_are_read()
    ensures sound { Sound SpellsName name_at }
    ensures exact { Exact SpellsName names_on name_at }
    ensures unique { Unique SpellsName names_on }

    // Where a name is passed over, it is the same one.
    ensures passed { PassesSpelled SpellsName past_name_at }
    ensures passes { PassesEach SpellsName names_on past_name_at }
{}

/// Bracket pairs are read to the last one.
pub fn dims_are_read()
    ensures sound { (s : Span) (ts : List Token) →
        SpellsDims (dims_at s ts).0 s (dims_at s ts).1 ts (dims_at s ts).2 }
    ensures exact { (n : ℕ) (s e : Span) (ts rest : List Token) → SpellsDims n s e ts rest →
        IsExactDims (dims_on rest) n e rest (dims_at s ts) }
{}

/// A type of at most a height is read to its last bracket pair, except before a `<`, or a point and an identifier, where it
/// may be none.
pub fn types_are_read()
    ensures sound { (most : ℕ) → Sound (Within SpellsTypeName type_height most) (type_at most) }
    ensures exact { (most : ℕ) (t : TypeName) (ts rest : List Token) →
        Within SpellsTypeName type_height most t ts rest → references_on rest ≡ false →
        Reads (type_at most ts) t rest (dims_on rest ≡ true) }
    ensures complete { (most : ℕ) →
        Complete (Within SpellsTypeName type_height most) types_on (type_at most) }
    ensures longest { (most : ℕ) →
        Longest (Within SpellsTypeName type_height most) (type_at most) }
    ensures unique { Unique SpellsTypeName types_on }

    // Where a type is passed over, it is the same one.
    ensures passed { (most : ℕ) →
        PassesSpelled (Within SpellsTypeName type_height most) (past_type_at most) }
    ensures passes { (most : ℕ) →
        PassesEach (Within SpellsTypeName type_height most) types_on (past_type_at most) }
{}

/// The same of a name with its type arguments.
pub fn references_are_read()
    ensures sound { (most : ℕ) →
        Sound (Within SpellsReference type_height most) (reference_at most) }
    ensures complete { (most : ℕ) →
        Complete (Within SpellsReference type_height most) references_on (reference_at most) }
    ensures longest { (most : ℕ) →
        Longest (Within SpellsReference type_height most) (reference_at most) }
{}

/// A type without type arguments is read to the last part of its name and to its last bracket pair, whatever follows.
pub fn plain_types_are_read()
    ensures sound { Sound SpellsPlainType plain_type_at }
    ensures exact { Exact SpellsPlainType plain_types_on plain_type_at }
{}

/// The same of the type of an array's elements.
pub fn elements_are_read()
    ensures sound { Sound SpellsElement element_at }
    ensures exact { Exact SpellsElement names_on element_at }
{}

/// What is decided by looking ahead is decided right: where a cast begins, and where a type and the name of a variable stand.
pub fn looks_ahead()
    ensures casts { (ts : List Token) → is_cast_at ts ≡ true ↔ BeginsCast ts }
    ensures locals { (most : ℕ) (ts : List Token) →
        begins_local_at most ts ≡ true ↔ BeginsLocal most ts }
{}
