// Laws of reading expressions, each on a function without a body.

ghost use Rattle.expression_laws.specs.Laws.{ExpressionsAreRead, ArrayInitializersAreSpelled, ArrayInitializersAreRead, InitializersAreRead, ArgumentsAreSpelled, ArgumentsAreRead};

/// Each level of expressions is read right, over what reads the height below: what is read spells the tokens before what is
/// left, is no higher than was asked and binds as tightly; and what spells them so is read, or something longer where the next
/// token can go on with it.
pub fn expressions_are_read()
    ensures { ExpressionsAreRead }
{}

/// An array initializer is read exactly where one no higher than was asked is spelled.
pub fn array_initializers_are_read()
    ensures spelled { ArrayInitializersAreSpelled }
    ensures read { ArrayInitializersAreRead }
{}

/// Initializers are read right, over what reads the height below.
pub fn initializers_are_read()
    ensures { InitializersAreRead }
{}

/// Arguments are read exactly where some no higher than was asked are spelled.
pub fn arguments_are_read()
    ensures spelled { ArgumentsAreSpelled }
    ensures read { ArgumentsAreRead }
{}
