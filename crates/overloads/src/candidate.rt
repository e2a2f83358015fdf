// What a call may choose.

use je_core::{ClassId, Flags};
use name_types::SrcTy;

/// A method, or a constructor, that a call may choose.
#[derive(Drop)]
pub struct Candidate {
    /// The class that declares it, and its place there.
    pub class: ClassId,
    pub place: usize,
    pub flags: Flags,
    /// Its types with type arguments put in.
    pub parameters: Vec<SrcTy>,
    pub result: SrcTy,
    /// Its result without them.
    pub declared: SrcTy,
    /// Whether it has no body where it is called.
    pub is_abstract: bool,
}
