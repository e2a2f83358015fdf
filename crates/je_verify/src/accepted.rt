// A program that keeps the rules of Joe-E.

ghost use Rattle.je_types.specs.Views.{program_of};
ghost use Rattle.taming_db.specs.View.{rows};
ghost use Rattle.je_verify.specs.Broken.{IsUnbroken};

use je_types::Typed;
use taming_db::Taming;

/// A program that breaks no rule of Joe-E under a taming text, and that text.
#[derive(Drop)]
pub struct Accepted {
    pub(crate) typed: Typed,
    pub(crate) taming: Taming,
    pub ghost unbroken: { IsUnbroken (program_of typed) (rows taming) },
}

impl Accepted {
    ghost use Rattle.std.specs.Prelude.{◌≡◌};
    ghost use Rattle.plain_programs.specs.Plain.{IsPlain};
    ghost use Rattle.je_verify.specs.Views.{typed_of, taming_of};

    /// The program, which is plain.
    pub fn typed(&self) -> &Typed
        ensures program { result.now ≡ typed_of self.now }
        ensures unbroken { IsUnbroken (program_of (typed_of self.now)) (rows (taming_of self.now)) }
        ensures plain { IsPlain (program_of (typed_of self.now)) }
    {
        &self.typed
    }

    /// The taming text.
    pub fn taming(&self) -> &Taming
        ensures { result.now ≡ taming_of self.now }
    {
        &self.taming
    }
}
