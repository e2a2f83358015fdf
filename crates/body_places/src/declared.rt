// The fields that classes declare (JLS 8.3, 9.3).

ghost use Rattle.std.specs.Prelude.{◌≡◌, map, option_map};
ghost use Rattle.class_heads.specs.View.{classes_of};
ghost use Rattle.declarations.specs.View.{field_shown};
ghost use Rattle.je_classes.specs.Members.{is_private_access};
ghost use Rattle.name_types.specs.View.{shown};
ghost use Rattle.name_typing.specs.Fields.{can_inherit as the_can_inherit, field_at as the_field_at, field_from, fields_of as the_fields_of, member, own_field as the_own_field};
ghost use Rattle.je_core.specs.declared.types.ClassId.{ClassId};
ghost use Rattle.body_places.specs.way.Walk.{member_in, object_class_in};

use class_heads::AllClasses;
use declarations::FieldDecl;
use header_steps::class_of;
use je_base::NameId;
use je_core::{Access, ClassId};
use name_types::SrcTy;

/// The fields that a class declares.
pub fn fields_of<'a>(classes: AllClasses<'a>, class: ClassId) -> &'a [FieldDecl]
    ensures { map field_shown result.now ≡ the_fields_of (classes_of classes.entry) class.0 }
{
    match classes.class(class) {
        Some(declared) => &declared.fields,
        None => &[],
    }
}

/// The field at a place of a class.
pub fn field_at<'a>(classes: AllClasses<'a>, class: ClassId, at: usize) -> Option<&'a FieldDecl>
    ensures { option_map (λ f. field_shown f.now) result ≡
        the_field_at (classes_of classes.entry) (record { class = class; at = at }) }
{
    fields_of(classes, class).get(at)
}

fn is_private(access: Access) -> bool
    ensures { result ≡ is_private_access access }
{
    matches!(access, Access::Private)
}

/// Whether a field is inherited by what is below its class: no private one is (JLS 8.2).
pub(crate) fn can_inherit(classes: AllClasses, class: ClassId, at: usize) -> bool
    ensures { result ≡
        the_can_inherit (classes_of classes.entry) (record { class = class; at = at }) }
{
    match field_at(classes, class, at) {
        Some(field) => !is_private(field.access),
        None => false,
    }
}

// The place of the first field of a name among those of a class.
fn place_among(class: ClassId, fields: &[FieldDecl], name: NameId) -> Option<usize>
    ensures { option_map (member class.0) result ≡
        field_from class.0 0 (map field_shown fields.now) name }
{
    for (at, field) in fields.iter().enumerate() {
        if field.name.name.0 == name.0 {
            return Some(at);
        }
    }
    None
}

/// The class of a type that is a class, whatever its type arguments; an array and a type variable have none.
#[tactic(auto, using(crate::proofs::Objects::objects))]
pub fn class_of_object(ty: &SrcTy) -> Option<ClassId>
    ensures { option_map (λ (c : ClassId). c.0) result ≡ object_class_in (shown ty.now) }
{
    if ty.dims != 0 {
        return None;
    }
    class_of(ty)
}

/// The field that the class of a type declares under a name, by its class and its place there.
#[tactic(auto, using(crate::proofs::Objects::own_by_class))]
pub(crate) fn own_field(classes: AllClasses, ty: &SrcTy, name: NameId) -> Option<(ClassId, usize)>
    ensures { option_map member_in result ≡
        the_own_field (classes_of classes.entry) name (shown ty.now) }
{
    let class = class_of_object(ty)?;
    let at = place_among(class, fields_of(classes, class), name)?;
    Some((class, at))
}
