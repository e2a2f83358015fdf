// Laws of reading statements, each on a function without a body.

ghost use Rattle.statement_laws.specs.Laws.{VariablesAreSpelled, VariablesAreRead, BlocksAreRead};
ghost use Rattle.statement_laws.specs.Laws.{StatementsAreRead, LocalVariablesAreSpelled};
ghost use Rattle.statement_laws.specs.Laws.{LocalVariablesAreRead, ConditionsAreRead, StepsAreRead};
ghost use Rattle.statement_laws.specs.Laws.{GroupsAreRead, NoStepBeginsLocal};
ghost use Rattle.statement_laws.specs.Laws.{NoStatementBeginsLocal, LocalVariablesBegin};
ghost use Rattle.je_token.specs.declared.symbol.Symbol.TheVariants as symbol;

/// Variables are read up to a semicolon: what is read is spelled and no higher than below, and what is spelled so is read.
pub fn variables_are_read()
    ensures spelled { VariablesAreSpelled }
    ensures read { VariablesAreRead }
{}

/// A block is read exactly where one no higher than was asked is spelled.
pub fn blocks_are_read()
    ensures { BlocksAreRead }
{}

/// A statement is read where one no higher than was asked is spelled, or something longer where the next token goes on with
/// it; and else nothing is.
pub fn statements_are_read()
    ensures { StatementsAreRead }
{}

/// A declaration of local variables is read exactly where one no higher than was asked is spelled.
pub fn local_variables_are_read()
    ensures spelled { LocalVariablesAreSpelled }
    ensures read { LocalVariablesAreRead }
{}

/// What stands in statements beside others: conditions, the steps of a `for` up to their end, and the groups of a `switch`,
/// are read where they are spelled and no higher than below.
pub fn parts_are_read()
    ensures conditions { ConditionsAreRead }
    ensures first_steps { StepsAreRead symbol.Semicolon }
    ensures last_steps { StepsAreRead symbol.CloseParen }
    ensures groups { GroupsAreRead }
{}

/// Declarations of local variables begin as no other statement does: with `final`, or with a type before an identifier.
pub fn local_variables_are_told()
    ensures steps { NoStepBeginsLocal }
    ensures statements { NoStatementBeginsLocal }
    ensures locals { LocalVariablesBegin }
{}
