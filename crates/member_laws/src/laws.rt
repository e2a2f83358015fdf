// Laws of reading members and declarations, each on a function without a body.

ghost use Rattle.member_laws.specs.Laws.{BodiesAreRead, DeclarationsAreRead, LocalClassesAreRead, LocalClassesAreSeen, LocalClassesAreAlone, MembersAreRead};

/// The body of a class is read exactly where one with members no higher than below is spelled.
pub fn bodies_are_read()
    ensures { BodiesAreRead }
{}

/// Declarations are read right, over what reads the height below.
pub fn declarations_are_read()
    ensures { DeclarationsAreRead }
{}

/// Classes in blocks are read right, over what reads the height below, where the words before them say that one begins; they
/// say so where one is spelled, and where they do, no other statement of a block is spelled.
pub fn local_classes_are_read()
    ensures read { LocalClassesAreRead }
    ensures seen { LocalClassesAreSeen }
    ensures alone { LocalClassesAreAlone }
{}

/// Members are read right, over what reads the height below.
pub fn members_are_read()
    ensures { MembersAreRead }
{}
