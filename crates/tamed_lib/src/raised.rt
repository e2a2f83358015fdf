// The classes of the exceptions that members throw.

ghost use Rattle.std.specs.Prelude.{◌≡◌};
ghost use Rattle.je_java.specs.Raised.{null_pointer, array_index, string_index, number_format, illegal_state};

use je_core::ClassId;
use je_table::LibraryClass;

/// NullPointerException.
#[tactic(auto, unfolding(je_classes::specs::Hierarchy::library_class, je_java::specs::Raised::null_pointer))]
pub fn null_pointer_class() -> ClassId
    ensures { result ≡ null_pointer }
{
    ClassId(LibraryClass::NullPointerException.number())
}

/// ArrayIndexOutOfBoundsException.
#[tactic(auto, unfolding(je_classes::specs::Hierarchy::library_class, je_java::specs::Raised::array_index))]
pub fn array_index_class() -> ClassId
    ensures { result ≡ array_index }
{
    ClassId(LibraryClass::ArrayIndexOutOfBoundsException.number())
}

/// StringIndexOutOfBoundsException.
#[tactic(auto, unfolding(je_classes::specs::Hierarchy::library_class, je_java::specs::Raised::string_index))]
pub fn string_index_class() -> ClassId
    ensures { result ≡ string_index }
{
    ClassId(LibraryClass::StringIndexOutOfBoundsException.number())
}

/// NumberFormatException.
#[tactic(auto, unfolding(je_classes::specs::Hierarchy::library_class, je_java::specs::Raised::number_format))]
pub fn number_format_class() -> ClassId
    ensures { result ≡ number_format }
{
    ClassId(LibraryClass::NumberFormatException.number())
}

/// IllegalStateException.
#[tactic(auto, unfolding(je_classes::specs::Hierarchy::library_class, je_java::specs::Raised::illegal_state))]
pub fn illegal_state_class() -> ClassId
    ensures { result ≡ illegal_state }
{
    ClassId(LibraryClass::IllegalStateException.number())
}
