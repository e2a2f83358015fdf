// Laws of reading files.

ghost use Rattle.std.specs.Prelude.{◌≡◌, ℕ, List};
ghost use Rattle.je_ast.specs.Trees.{CompilationUnit};
ghost use Rattle.host_text.specs.declared.finding.Finding.{Finding};
ghost use Rattle.source_units.specs.Faults.{IsFirstFault};
ghost use Rattle.source_units.specs.Units.{AreUnitsOf};

/// The same files, after the same names, have one list of units at most, and one list of names.
pub fn units_are_one()
    ensures { (files before : List (List ℕ)) (units units1 : List CompilationUnit)
        (names names1 : List (List ℕ)) →
        AreUnitsOf files before units names → AreUnitsOf files before units1 names1 →
        (units ≡ units1) × (names ≡ names1) }
{}

/// Files that have units have no fault.
pub fn units_or_fault()
    ensures { (files before : List (List ℕ)) (units : List CompilationUnit)
        (names : List (List ℕ)) (fault : Finding) →
        AreUnitsOf files before units names → ¬ IsFirstFault files fault }
{}

/// Files have one first fault at most.
pub fn fault_is_one()
    ensures { (files : List (List ℕ)) (fault fault1 : Finding) →
        IsFirstFault files fault → IsFirstFault files fault1 → fault ≡ fault1 }
{}
