//! What the classes of a program come to: its core program, or the first fault (JLS 8, 9). Definitions alone.
//!
//! `specs/Elaboration.antt` is the whole: headers and signatures first, then bodies. `specs/Members.antt` is the walk over
//! the members of a class, `specs/Constructors.antt` what is asked of constructors. What stands beside the walk has a file
//! for each subject: `specs/Programs.antt` what bodies know of all classes, `specs/Enums.antt` enums, `specs/Places.antt`
//! in which bodies classes stand, `specs/ConstantFields.antt` which fields are constant variables, `specs/Captures.antt`
//! captured locals and enclosing instances, `specs/Bridges.antt` methods that are reached through others,
//! `specs/Texts.antt` constant strings, and `specs/Classes.antt` classes of the core program.
#![tactic(auto)]
