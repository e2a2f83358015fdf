// Types of a source, before erasure.

use je_core::{Base, ClassId};

/// What a type of a source is apart from its dimensions (JLS 4.2 to 4.5).
#[cycle(types)]
pub enum SrcBase {
    /// A primitive type, `void`, a class that isn't generic, or the null type, which stands for a name that means nothing.
    Plain(Base),
    /// A generic class with its type arguments.
    Made(ClassId, Vec<SrcTy>),
    /// A type variable, by its class and its place among the class's type parameters.
    Var(ClassId, usize),
}

// Written out, so that what drops one calls this, and doesn't match on it again.
impl Drop for SrcBase {
    #[cycle(types)]
    fn drop(self) {
        match self {
            Self::Plain(_) | Self::Made(_, _) | Self::Var(_, _) => {}
        }
    }
}

/// A type of a source: an array of `dims` dimensions over the base, or the base itself where `dims` is 0. Where more than 255
/// dimensions are written, which no array type of the machine has (JVMS 4.3.2), `dims` is 255.
#[cycle(types)]
#[derive(Drop)]
pub struct SrcTy {
    pub base: SrcBase,
    pub dims: u8,
}
