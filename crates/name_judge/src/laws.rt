// When signatures are the same.

ghost use Rattle.name_judge.specs.Laws.{SameLists};

/// Two methods of a class have the same signature exactly where the lists of numbers for them are equal.
pub fn same_lists()
    ensures { SameLists }
{}
