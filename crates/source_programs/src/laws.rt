// Laws of programs that are read.

ghost use Rattle.source_programs.specs.Laws.{OneFinding, OneProgram, ProgramOrFinding};

/// Files come to one program at most.
pub fn one_program()
    ensures { OneProgram }
{}

/// Files that come to a program have no finding.
pub fn program_or_finding()
    ensures { ProgramOrFinding }
{}

/// Files have one first finding at most.
pub fn one_finding()
    ensures { OneFinding }
{}
