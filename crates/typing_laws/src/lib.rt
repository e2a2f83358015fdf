//! What steps of typing give fits where their parts do (`specs/Laws.antt`): `Fits` of `je_fitting`, of nodes with their
//! source types.
#![tactic(auto)]

ghost use Rattle.std.specs.Prelude.{List};
ghost use Rattle.typing_laws.specs.Correspondence.{SubtypesAreErased};
ghost use Rattle.typing_laws.specs.Passing.{AssignedValuesPass};
ghost use Rattle.je_core.specs.Core.{CoreProgram};
ghost use Rattle.je_fitting.specs.Expressions.{Body};
ghost use Rattle.source_types.specs.Heads.{ClassHead};
ghost use Rattle.typing_laws.specs.Laws.{AssignmentsFit, ChoicesFit, ConcatenationsFit, ElementsFit, LengthsFit, LiteralsFit};
ghost use Rattle.typing_laws.specs.Laws.{LogicalOperationsFit, PlusFits, PrimitiveCastsFit, PrimitiveOperationsFit};
ghost use Rattle.typing_laws.specs.Laws.{ReferenceCastsFit};
ghost use Rattle.typing_laws.specs.Laws.{ReferenceEqualitiesFit, StepsFit, TypeTestsFit, UnaryOperationsFit, UpdatesFit};

/// A literal fits.
pub fn literals_fit()
    ensures { (p : CoreProgram) (body : Body) (heads : List ClassHead) → LiteralsFit p body heads }
{}

/// A binary operator on numbers or booleans fits where its operands do.
pub fn primitive_operations_fit()
    ensures { (p : CoreProgram) (body : Body) (heads : List ClassHead) →
        PrimitiveOperationsFit p body heads }
{}

/// Unary minus, `~` and `!` fit where their operand does.
pub fn unary_operations_fit()
    ensures { (p : CoreProgram) (body : Body) (heads : List ClassHead) →
        UnaryOperationsFit p body heads }
{}

/// Unary plus fits where its operand does.
pub fn plus_fits()
    ensures { (p : CoreProgram) (body : Body) (heads : List ClassHead) → PlusFits p body heads }
{}

/// `&&` and `||` fit where their operands do.
pub fn logical_operations_fit()
    ensures { (p : CoreProgram) (body : Body) (heads : List ClassHead) →
        LogicalOperationsFit p body heads }
{}

/// A cast to a primitive type fits where its operand does.
pub fn primitive_casts_fit()
    ensures { (p : CoreProgram) (body : Body) (heads : List ClassHead) →
        PrimitiveCastsFit p body heads }
{}

/// String concatenation fits where its operands do.
pub fn concatenations_fit()
    ensures { (p : CoreProgram) (body : Body) (heads : List ClassHead) →
        ConcatenationsFit p body heads }
{}

/// A subtype in a source is erased to a subtype in the core program that has the classes of its headers.
pub fn subtypes_are_erased()
    ensures { SubtypesAreErased }
{}

/// A value that is assigned to a variable fits where it stands, and is of the variable's type or of a subtype.
pub fn assigned_values_pass()
    ensures { AssignedValuesPass }
{}

/// An assignment fits where its sides do, and the variable may be assigned where it stands.
pub fn assignments_fit()
    ensures { (p : CoreProgram) (body : Body) (heads : List ClassHead) →
        AssignmentsFit p body heads }
{}

/// A compound assignment does so too.
pub fn updates_fit()
    ensures { (p : CoreProgram) (body : Body) (heads : List ClassHead) → UpdatesFit p body heads }
{}

/// `++` and `--` do so too.
pub fn steps_fit()
    ensures { (p : CoreProgram) (body : Body) (heads : List ClassHead) → StepsFit p body heads }
{}

/// Equality of references fits where its operands do.
pub fn reference_equalities_fit()
    ensures { (p : CoreProgram) (body : Body) (heads : List ClassHead) →
        ReferenceEqualitiesFit p body heads }
{}

/// A cast to a reference type fits where its operand does, and the class is there.
pub fn reference_casts_fit()
    ensures { (p : CoreProgram) (body : Body) (heads : List ClassHead) →
        ReferenceCastsFit p body heads }
{}

/// `instanceof` does so too.
pub fn type_tests_fit()
    ensures { (p : CoreProgram) (body : Body) (heads : List ClassHead) → TypeTestsFit p body heads }
{}

/// An element of an array fits where the array and the index do.
pub fn elements_fit()
    ensures { (p : CoreProgram) (body : Body) (heads : List ClassHead) → ElementsFit p body heads }
{}

/// The length of an array fits where the array does.
pub fn lengths_fit()
    ensures { (p : CoreProgram) (body : Body) (heads : List ClassHead) → LengthsFit p body heads }
{}

/// The conditional operator fits where its operands do.
pub fn choices_fit()
    ensures { (p : CoreProgram) (body : Body) (heads : List ClassHead) → ChoicesFit p body heads }
{}
