// Laws of reading units, each on a function without a body.

ghost use Rattle.unit_laws.specs.Laws.{UnitsAreSpelled, UnitsAreRead, UnitIsOne};

/// A unit is read exactly where one with declarations of at most the height spells all tokens.
pub fn units_are_read()
    ensures spelled { UnitsAreSpelled }
    ensures read { UnitsAreRead }
{}

/// Two units that spell the same tokens are equal, spans included, of whatever height.
pub fn unit_is_one()
    ensures { UnitIsOne }
{}
