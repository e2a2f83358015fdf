// Methods and constructors.

ghost use Rattle.std.specs.Prelude.{◌≡◌, ◌+◌, IfErr, IfOk, OnOk, map, slice_get, take};
ghost use Rattle.class_methods.specs.View.{method_seen};
ghost use Rattle.declarations.specs.View.{method_shown};
ghost use Rattle.je_ast.specs.Types.{formal_view, name_view, type_view_of_option};
ghost use Rattle.je_typing.specs.Answers.{IsFault};
ghost use Rattle.je_typing.specs.declared.fault.Refusal.TheVariants.{Memory};
ghost use Rattle.je_typing.specs.Judged.{gives};
ghost use Rattle.name_lookup.specs.View.{part_view};
ghost use Rattle.name_types.specs.View.{shown};
ghost use Rattle.overriding.specs.Methods.{own_from};
ghost use Rattle.overriding.specs.Overrides.{own_before};
ghost use Rattle.signature_steps.specs.Signed.{override_of, signature_of};
ghost use Rattle.signature_steps.specs.View.{setting_of};
ghost use Rattle.signature_typing.specs.Signatures as words;

use crate::headers::judge_member_modifiers;
use crate::setting::Setting;
use class_methods::{Method, own_method, push_own};
use declarations::MethodDecl;
use header_steps::thrown;
use je_ast::{Formal, Modifier, Name, TyName};
use je_core::ClassId;
use je_typing::Refusal;
use member_rules::Declared;
use name_lookup::{Part, Place};
use name_types::SrcTy;
use override_steps::{good_method, no_constructor_clash};
use written_types::{judge_formal, judge_optional_type};

/// A method or a constructor as it is written before its body, and its place among those of its class.
#[derive(Clone, Copy)]
pub struct Signature<'a> {
    pub declared: Declared,
    pub at: usize,
    pub part: Part,
    pub modifiers: &'a [Modifier],
    pub result: &'a Option<TyName>,
    pub formals: &'a [Formal],
    pub throws: &'a [Name],
}

/// The methods and constructors that a class declares.
pub fn own_methods<'a>(setting: Setting<'a>, class: ClassId) -> &'a [MethodDecl]
    ensures { map method_shown result.now ≡ words.own_methods (setting_of setting.entry) class.0 }
{
    match setting.classes.class(class) {
        Some(declared) => &declared.methods,
        None => &[],
    }
}

#[tactic(auto, using(je_typing::proofs::Walks::walks))]
fn judge_formals(setting: Setting, place: Place, formals: &[Formal]) -> Result<(), Refusal>
    ensures ok { IfOk result (λ done. words.formals (setting_of setting.entry) place.class.0
        (part_view place.part) (map formal_view formals.now) ≡ gives done) }
    ensures err { IfErr result (IsFault (words.formals (setting_of setting.entry) place.class.0
        (part_view place.part) (map formal_view formals.now))) }
{
    for at in 0..formals.len() {
        judge_formal(setting.around, place, &formals[at])?;
    }
    Ok(())
}

// The types behind `throws`, and the names that are written for them.
#[tactic(auto, using(je_typing::proofs::Walks::walks))]
fn judge_throws(setting: Setting, types: &[SrcTy], names: &[Name]) -> Result<(), Refusal>
    ensures ok { IfOk result (λ done. words.all_thrown (setting_of setting.entry).heads
        (map shown types.now) (map name_view names.now) ≡ gives done) }
    ensures err { IfErr result (IsFault (words.all_thrown (setting_of setting.entry).heads
        (map shown types.now) (map name_view names.now))) }
{
    let mut left = names;
    for ty in types {
        let Some((name, rest)) = left.split_first() else {
            return Ok(());
        };
        let around = setting.around;
        thrown(around.program.alloc, around.heads, ty, name)?;
        left = rest;
    }
    Ok(())
}

fn throws_at<'a>(setting: Setting<'a>, class: ClassId, at: usize) -> &'a [SrcTy]
    ensures { map shown result.now ≡ words.throws_in
        (slice_get (words.own_methods (setting_of setting.entry) class.0) at) }
{
    match own_methods(setting, class).get(at) {
        Some(method) => &method.throws,
        None => &[],
    }
}

fn judge_throws_at(
    setting: Setting,
    class: ClassId,
    at: usize,
    names: &[Name],
) -> Result<(), Refusal>
    ensures ok { IfOk result (λ done. words.all_thrown (setting_of setting.entry).heads
        (words.throws_in (slice_get (words.own_methods (setting_of setting.entry) class.0) at))
        (map name_view names.now) ≡ gives done) }
    ensures err { IfErr result (IsFault (words.all_thrown (setting_of setting.entry).heads
        (words.throws_in (slice_get (words.own_methods (setting_of setting.entry) class.0) at))
        (map name_view names.now))) }
{
    judge_throws(setting, throws_at(setting, class, at), names)
}

/// What is written of a method or a constructor before its body.
#[tactic(auto, using(je_typing::proofs::Walks::walks))]
pub fn judge_signature(
    setting: Setting,
    class: ClassId,
    signature: Signature,
) -> Result<(), Refusal>
    ensures ok { IfOk result (λ done. signature_of (setting_of setting.entry) class.0
        signature.entry ≡ gives done) }
    ensures err { IfErr result (IsFault (signature_of (setting_of setting.entry) class.0
        signature.entry)) }
{
    let place = Place {
        class,
        part: signature.part,
    };
    judge_member_modifiers(setting, class, signature.declared, signature.modifiers)?;
    judge_optional_type(setting.around, place, signature.result)?;
    judge_formals(setting, place, signature.formals)?;
    judge_throws_at(setting, class, signature.at, signature.throws)
}

// What is asked of a method that a class declares behind `earlier`.
#[tactic(auto, unfolding(overriding::specs::Overrides::no_clash), using(je_typing::proofs::Walks::walks))]
fn judge_override(setting: Setting, earlier: &[Method], method: &Method) -> Result<(), Refusal>
    requires { map method_seen earlier.now ≡
        own_before (setting_of setting).classes (method_seen method.now) }
    ensures ok { IfOk result (λ done. override_of (setting_of setting.entry)
        (method_seen method.now) ≡ gives done) }
    ensures err { IfErr result (IsFault (override_of (setting_of setting.entry)
        (method_seen method.now))) }
{
    let around = setting.around;
    good_method(
        around.program.alloc,
        around.heads,
        setting.classes,
        earlier,
        method,
    )
}

/// What is asked of a method at a place among those of its class, of which `earlier` stand before it.
#[tactic(auto, using(je_typing::proofs::Walks::walks))]
pub fn judge_overrides(
    setting: Setting,
    class: ClassId,
    earlier: &[Method],
    at: usize,
) -> Result<(), Refusal>
    requires { map method_seen earlier.now ≡
        own_from class.0 0 (take at (words.own_methods (setting_of setting) class.0)) }
    ensures ok { IfOk result (λ done. words.method_at (setting_of setting.entry) class.0 at
        (slice_get (words.own_methods (setting_of setting.entry) class.0) at) ≡ gives done) }
    ensures err { IfErr result (IsFault (words.method_at (setting_of setting.entry) class.0 at
        (slice_get (words.own_methods (setting_of setting.entry) class.0) at))) }
{
    match own_methods(setting, class).get(at) {
        None => Ok(()),
        Some(declared) => {
            let method = own_method(setting.around.program.alloc, class, at, declared)?;
            judge_override(setting, earlier, &method)
        }
    }
}

/// What is asked of a constructor at a place among the methods and constructors of its class.
pub fn judge_constructor(setting: Setting, class: ClassId, at: usize) -> Result<(), Refusal>
    ensures ok { IfOk result (λ done. words.constructor_at (setting_of setting.entry) class.0 at
        (slice_get (words.own_methods (setting_of setting.entry) class.0) at) ≡ gives done) }
    ensures err { IfErr result (IsFault (words.constructor_at (setting_of setting.entry) class.0 at
        (slice_get (words.own_methods (setting_of setting.entry) class.0) at))) }
{
    let methods = own_methods(setting, class);
    match methods.get(at) {
        None => Ok(()),
        Some(constructor) => {
            no_constructor_clash(setting.around.heads, &methods[..at], constructor)
        }
    }
}

/// The methods before the next place.
pub fn with_next<'a>(
    setting: Setting<'a>,
    class: ClassId,
    at: usize,
    earlier: &mut Vec<Method<'a>>,
) -> Result<(), Refusal>
    requires { map method_seen earlier.old.items ≡
        own_from class.0 0 (take at (words.own_methods (setting_of setting) class.0)) }
    ensures earlier { OnOk result (map method_seen earlier.new.items ≡
        own_from class.0 0 (take (at + 1) (words.own_methods (setting_of setting.entry) class.0))) }
    ensures memory { IfErr result (λ r. r ≡ Memory) }
{
    match own_methods(setting, class).get(at) {
        None => Ok(()),
        Some(declared) => {
            push_own(setting.around.program.alloc, class, at, declared, earlier)?;
            Ok(())
        }
    }
}
