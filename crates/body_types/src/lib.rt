//! What types mean that are written in bodies (JLS 6.5.5), as definitions alone: `specs/BodyTypes.antt`. The typing of
//! expressions and statements is to go by them.
#![tactic(auto)]
