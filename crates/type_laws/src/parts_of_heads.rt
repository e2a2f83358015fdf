// Laws of modifiers, parameters and heads, each on a function without a body.

ghost use Rattle.std.specs.Prelude.{◌≡◌, ℕ, true, false, Bool, List};
ghost use Rattle.je_token.specs.declared.token.Token.{Token};
ghost use Rattle.je_token.specs.declared.keyword.Keyword.TheVariants as word;
ghost use Rattle.je_ast.specs.declared.decl.Modifier.{Modifier};
ghost use Rattle.je_ast.specs.Types.{types_height};
ghost use Rattle.je_ast.specs.Height.{type_height_if, parameters_height, formals_height};
ghost use Rattle.je_grammar.specs.Types.{SpellsModifier, SpellsModifiers, SpellsFinal, SpellsFormal, SpellsFormals, SpellsThrows, SpellsTypeParameters, SpellsResult};
ghost use Rattle.je_grammar.specs.Grammar.{SpellsExtends, SpellsImplements, SpellsExtendsAll};
ghost use Rattle.parse_laws.specs.way.Types.{modifier_at, modifiers_at, final_at, formal_at, formals_at, throws_at, parameters_at, superclass_at, references_at};
ghost use Rattle.parse_laws.specs.way.Members.{class_head_at, interface_head_at, result_type_at, method_head_at, constructor_head_at};
ghost use Rattle.type_laws.specs.Laws.{Within, Sound, Complete, IsExact, declared_height, dims_on, types_on, throws_on, extends_on, extends_all_on, implements_on, parameters_on, final_on, modifiers_on, never};
ghost use Rattle.type_laws.specs.Heads.{SpellsClassHead, class_height, SpellsInterfaceHead, interface_height, SpellsMethodHead, method_height, SpellsConstructorHead, constructor_height};

/// Modifiers are read to the last one.
pub fn modifiers_are_read()
    ensures one_sound { (names : List (List ℕ)) →
        Sound (SpellsModifier names) (modifier_at names) }
    ensures one_complete { (names : List (List ℕ)) →
        Complete (SpellsModifier names) never (modifier_at names) }
    ensures sound { (names : List (List ℕ)) (ts : List Token) →
        SpellsModifiers names (modifiers_at names ts).0 ts (modifiers_at names ts).1 }
    ensures exact { (names : List (List ℕ)) (ms : List Modifier) (ts rest : List Token) →
        SpellsModifiers names ms ts rest →
        IsExact (modifiers_on names rest) ms rest (modifiers_at names ts) }
    ensures final_sound { (ts : List Token) → SpellsFinal (final_at ts).0 ts (final_at ts).1 }
    ensures final_complete { (is : Bool) (ts rest : List Token) →
        SpellsFinal is ts rest → final_on rest ≡ false → final_at ts ≡ (is, rest) }
{}

/// Formal parameters of types of at most a height are read up to their closing bracket.
pub fn formals_are_read()
    ensures one_sound { (most : ℕ) →
        Sound (Within SpellsFormal declared_height most) (formal_at most) }
    ensures one_complete { (most : ℕ) →
        Complete (Within SpellsFormal declared_height most) dims_on (formal_at most) }
    ensures sound { (most : ℕ) →
        Sound (Within SpellsFormals formals_height most) (formals_at most) }
    ensures complete { (most : ℕ) →
        Complete (Within SpellsFormals formals_height most) never (formals_at most) }
{}

/// What a method throws is read to the last name.
pub fn throws_are_read()
    ensures sound { Sound SpellsThrows throws_at }
    ensures complete { Complete SpellsThrows throws_on throws_at }
{}

/// Type parameters are read up to the `>` that closes them.
pub fn type_parameters_are_read()
    ensures sound { (most : ℕ) →
        Sound (Within SpellsTypeParameters parameters_height most) (parameters_at most) }
    ensures complete { (most : ℕ) → Complete
        (Within SpellsTypeParameters parameters_height most) parameters_on (parameters_at most) }
{}

/// The types that a class or an interface extends and implements are read to the last one.
pub fn supertypes_are_read()
    ensures class_sound { (most : ℕ) →
        Sound (Within SpellsExtends type_height_if most) (superclass_at most) }
    ensures class_complete { (most : ℕ) →
        Complete (Within SpellsExtends type_height_if most) extends_on (superclass_at most) }
    ensures implemented_sound { (most : ℕ) →
        Sound (Within SpellsImplements types_height most) (references_at word.Implements most) }
    ensures implemented_complete { (most : ℕ) → Complete
        (Within SpellsImplements types_height most) implements_on
        (references_at word.Implements most) }
    ensures extended_sound { (most : ℕ) →
        Sound (Within SpellsExtendsAll types_height most) (references_at word.Extends most) }
    ensures extended_complete { (most : ℕ) → Complete
        (Within SpellsExtendsAll types_height most) extends_all_on
        (references_at word.Extends most) }
{}

/// The head of a class or of an interface is read up to its `{`.
pub fn type_heads_are_read()
    ensures class_sound { (most : ℕ) →
        Sound (Within SpellsClassHead class_height most) (class_head_at most) }
    ensures class_complete { (most : ℕ) →
        Complete (Within SpellsClassHead class_height most) never (class_head_at most) }
    ensures interface_sound { (most : ℕ) →
        Sound (Within SpellsInterfaceHead interface_height most) (interface_head_at most) }
    ensures interface_complete { (most : ℕ) →
        Complete (Within SpellsInterfaceHead interface_height most) never (interface_head_at most) }
{}

/// The head of a method is read up to its last name, and that of a constructor up to its `{`.
pub fn method_heads_are_read()
    ensures result_sound { (most : ℕ) →
        Sound (Within SpellsResult type_height_if most) (result_type_at most) }
    ensures result_complete { (most : ℕ) →
        Complete (Within SpellsResult type_height_if most) types_on (result_type_at most) }
    ensures sound { (most : ℕ) →
        Sound (Within SpellsMethodHead method_height most) (method_head_at most) }
    ensures complete { (most : ℕ) →
        Complete (Within SpellsMethodHead method_height most) throws_on (method_head_at most) }
    ensures constructor_sound { (most : ℕ) →
        Sound (Within SpellsConstructorHead constructor_height most) (constructor_head_at most) }
    ensures constructor_complete { (most : ℕ) → Complete
        (Within SpellsConstructorHead constructor_height most) never (constructor_head_at most) }
{}
