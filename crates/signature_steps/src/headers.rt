// The headers of classes.

ghost use Rattle.std.specs.Prelude.{◌≡◌, ◌∷◌, ◌++◌, [], IfErr, IfOk, OnOk, Some, map};
ghost use Rattle.je_ast.specs.Types.{parameter_view, type_view, type_view_of_option, type_views_of};
ghost use Rattle.je_ast.specs.View.{declaration_node_view, declaration_view};
ghost use Rattle.je_scopes.specs.Scope.{header};
ghost use Rattle.je_typing.specs.Answers.{IsFault};
ghost use Rattle.je_typing.specs.Judged.{gives};
ghost use Rattle.name_types.specs.View.{shown};
ghost use Rattle.signature_steps.specs.View.{setting_of};
ghost use Rattle.signature_typing.specs.Signatures as words;

use crate::setting::{Setting, refused};
use header_steps::{anonymous_super, superclass, superinterface};
use je_ast::{Decl, Modifier, TyName, TypeParam};
use je_core::{ClassId, Sort};
use je_typing::{Refusal, TypeRule};
use member_rules::{Declared, Surrounding, bad_modifier};
use name_lookup::{Part, Place};
use name_sites::is_local;
use name_types::SrcTy;
use written_types::{judge_optional_type, judge_type, meaning};

// Whether the class of a number is an interface.
pub fn is_interface(setting: Setting, class: ClassId) -> bool
    ensures { result ≡ words.in_interface (setting_of setting.entry) class.0 }
{
    matches!(setting.around.program.sites.sort(class), Sort::Interface)
}

// The body of the class of a number, as what members stand in.
fn own_body(setting: Setting, class: ClassId) -> Surrounding
    ensures { result ≡ words.own_body (setting_of setting.entry) class.0 }
{
    if is_interface(setting, class) {
        Surrounding::InterfaceBody
    } else {
        Surrounding::ClassBody
    }
}

// What a class stands in.
fn surrounding(setting: Setting, class: ClassId) -> Surrounding
    ensures { result ≡ words.surrounding (setting_of setting.entry) class.0 }
{
    let sites = setting.around.program.sites;
    if is_local(sites.sort(class)) {
        return Surrounding::Block;
    }
    match sites.outside(class).within {
        None => Surrounding::Unit,
        Some(within) => own_body(setting, within),
    }
}

fn judge_modifiers(
    setting: Setting,
    class: ClassId,
    declared: Declared,
    modifiers: &[Modifier],
) -> Result<(), Refusal>
    ensures ok { IfOk result (λ done. words.class_modifiers (setting_of setting.entry) class.0
        declared modifiers.now ≡ gives done) }
    ensures err { IfErr result (IsFault (words.class_modifiers (setting_of setting.entry) class.0
        declared modifiers.now)) }
{
    let place = surrounding(setting, class);
    refused(
        TypeRule::BadModifier,
        bad_modifier(declared, place, modifiers),
    )
}

/// The modifiers of a member.
pub fn judge_member_modifiers(
    setting: Setting,
    class: ClassId,
    declared: Declared,
    modifiers: &[Modifier],
) -> Result<(), Refusal>
    ensures ok { IfOk result (λ done. words.member_modifiers (setting_of setting.entry) class.0
        declared modifiers.now ≡ gives done) }
    ensures err { IfErr result (IsFault (words.member_modifiers (setting_of setting.entry) class.0
        declared modifiers.now)) }
{
    let body = own_body(setting, class);
    refused(
        TypeRule::BadModifier,
        bad_modifier(declared, body, modifiers),
    )
}

// The bounds of type parameters.
#[tactic(auto, using(je_typing::proofs::Walks::walks))]
fn judge_bounds(setting: Setting, class: ClassId, parameters: &[TypeParam]) -> Result<(), Refusal>
    ensures ok { IfOk result (λ done. words.bounds (setting_of setting.entry) class.0
        (map parameter_view parameters.now) ≡ gives done) }
    ensures err { IfErr result (IsFault (words.bounds (setting_of setting.entry) class.0
        (map parameter_view parameters.now))) }
{
    for at in 0..parameters.len() {
        let place = Place {
            class,
            part: Part::Header,
        };
        judge_optional_type(setting.around, place, &parameters[at].bound)?;
    }
    Ok(())
}

// A type behind `extends`.
#[tactic(auto, using(je_typing::proofs::Walks::walks))]
fn judge_extends(setting: Setting, class: ClassId, extends: &Option<TyName>) -> Result<(), Refusal>
    ensures ok { IfOk result (λ done. words.extends_if (setting_of setting.entry) class.0
        (type_view_of_option extends.now) ≡ gives done) }
    ensures err { IfErr result (IsFault (words.extends_if (setting_of setting.entry) class.0
        (type_view_of_option extends.now))) }
{
    match extends {
        None => Ok(()),
        Some(ty) => judge_superclass(setting, class, ty),
    }
}

#[tactic(auto, using(je_typing::proofs::Walks::walks))]
fn judge_superclass(setting: Setting, class: ClassId, ty: &TyName) -> Result<(), Refusal>
    ensures ok { IfOk result (λ done. words.extends_if (setting_of setting.entry) class.0
        (Some (type_view ty.now)) ≡ gives done) }
    ensures err { IfErr result (IsFault (words.extends_if (setting_of setting.entry) class.0
        (Some (type_view ty.now)))) }
{
    let place = Place {
        class,
        part: Part::Header,
    };
    judge_type(setting.around, place, ty)?;
    let meant = meaning(setting.around, place, ty)?;
    superclass(setting.around.heads, &meant, ty)
}

// An interface behind earlier ones, which it then is among.
#[tactic(auto, using(je_typing::proofs::Walks::walks))]
fn judge_interface(
    setting: Setting,
    class: ClassId,
    earlier: &mut Vec<SrcTy>,
    ty: &TyName,
) -> Result<(), Refusal>
    ensures ok { IfOk result (λ done. words.interface (setting_of setting.entry) class.0
        (map shown earlier.old.items) (type_view ty.now) ≡ gives done) }
    ensures err { IfErr result (IsFault (words.interface (setting_of setting.entry) class.0
        (map shown earlier.old.items) (type_view ty.now))) }
    ensures earlier { OnOk result (map shown earlier.new.items ≡ map shown earlier.old.items
        ++ (setting_of setting.entry).means class.0 header (type_view ty.now) ∷ []) }
{
    let place = Place {
        class,
        part: Part::Header,
    };
    judge_type(setting.around, place, ty)?;
    let meant = meaning(setting.around, place, ty)?;
    superinterface(setting.around.heads, earlier, &meant, ty)?;
    earlier.push(meant)?;
    Ok(())
}

// The interfaces behind `implements`, or of an interface behind `extends`.
#[tactic(auto, using(je_typing::proofs::Walks::walks))]
fn judge_interfaces(setting: Setting, class: ClassId, interfaces: &[TyName]) -> Result<(), Refusal>
    ensures ok { IfOk result (λ done. words.interfaces_from (setting_of setting.entry) class.0
        [] (type_views_of interfaces.now) ≡ gives done) }
    ensures err { IfErr result (IsFault (words.interfaces_from (setting_of setting.entry) class.0
        [] (type_views_of interfaces.now))) }
{
    let mut earlier = Vec::new(setting.around.program.alloc);
    for at in 0..interfaces.len() {
        judge_interface(setting, class, &mut earlier, &interfaces[at])?;
    }
    Ok(())
}

#[tactic(auto, using(je_typing::proofs::Walks::walks))]
fn judge_class_header(
    setting: Setting,
    class: ClassId,
    modifiers: &[Modifier],
    parameters: &[TypeParam],
    extends: &Option<TyName>,
    implements: &[TyName],
) -> Result<(), Refusal>
    ensures ok { IfOk result (λ done. words.class_header (setting_of setting.entry) class.0
        modifiers.now (map parameter_view parameters.now) (type_view_of_option extends.now)
        (type_views_of implements.now) ≡ gives done) }
    ensures err { IfErr result (IsFault (words.class_header (setting_of setting.entry) class.0
        modifiers.now (map parameter_view parameters.now) (type_view_of_option extends.now)
        (type_views_of implements.now))) }
{
    judge_modifiers(setting, class, Declared::Class, modifiers)?;
    judge_bounds(setting, class, parameters)?;
    judge_extends(setting, class, extends)?;
    judge_interfaces(setting, class, implements)
}

#[tactic(auto, using(je_typing::proofs::Walks::walks))]
fn judge_interface_header(
    setting: Setting,
    class: ClassId,
    modifiers: &[Modifier],
    parameters: &[TypeParam],
    extends: &[TyName],
) -> Result<(), Refusal>
    ensures ok { IfOk result (λ done. words.interface_header (setting_of setting.entry) class.0
        modifiers.now (map parameter_view parameters.now) (type_views_of extends.now)
        ≡ gives done) }
    ensures err { IfErr result (IsFault (words.interface_header (setting_of setting.entry) class.0
        modifiers.now (map parameter_view parameters.now) (type_views_of extends.now))) }
{
    judge_modifiers(setting, class, Declared::Interface, modifiers)?;
    judge_bounds(setting, class, parameters)?;
    judge_interfaces(setting, class, extends)
}

/// The header of a class that is declared.
#[tactic(auto, using(je_ast::proofs::Views::declaration_is))]
pub fn judge_header(setting: Setting, class: ClassId, decl: &Decl) -> Result<(), Refusal>
    ensures ok { IfOk result (λ done. words.declared_header (setting_of setting.entry) class.0
        (declaration_view decl.now) ≡ gives done) }
    ensures err { IfErr result (IsFault (words.declared_header (setting_of setting.entry) class.0
        (declaration_view decl.now))) }
{
    judge_header_here(setting, class, decl)
}

fn judge_header_here(setting: Setting, class: ClassId, decl: &Decl) -> Result<(), Refusal>
    ensures ok { IfOk result (λ done. words.declared_header (setting_of setting.entry) class.0
        (declaration_node_view decl.now) ≡ gives done) }
    ensures err { IfErr result (IsFault (words.declared_header (setting_of setting.entry) class.0
        (declaration_node_view decl.now))) }
{
    match decl {
        Decl::Class {
            modifiers,
            params,
            extends,
            implements,
            ..
        } => judge_class_header(setting, class, modifiers, params, extends, implements),
        Decl::Interface {
            modifiers,
            params,
            extends,
            ..
        } => judge_interface_header(setting, class, modifiers, params, extends),
        Decl::Enum { modifiers, .. } => {
            judge_modifiers(setting, class, Declared::Enum, modifiers)
        }
    }
}

/// The type of an anonymous class.
#[tactic(auto, using(je_typing::proofs::Walks::walks))]
pub fn judge_anonymous(setting: Setting, class: ClassId, ty: &TyName) -> Result<(), Refusal>
    ensures ok { IfOk result (λ done. words.anonymous_header (setting_of setting.entry) class.0
        (type_view ty.now) ≡ gives done) }
    ensures err { IfErr result (IsFault (words.anonymous_header (setting_of setting.entry) class.0
        (type_view ty.now))) }
{
    let place = Place {
        class,
        part: Part::Header,
    };
    judge_type(setting.around, place, ty)?;
    let meant = meaning(setting.around, place, ty)?;
    anonymous_super(setting.around.heads, &meant, ty)
}
