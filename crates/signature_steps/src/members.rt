// The members of classes.

ghost use Rattle.std.specs.Prelude.{◌≡◌, ◌+◌, ◌<◌, ◌^◌, IfErr, IfOk, map, take};
ghost use Rattle.class_methods.specs.View.{method_seen};
ghost use Rattle.je_ast.specs.Types.{type_view};
ghost use Rattle.je_ast.specs.View.{member_node_view, member_view, member_views_of, variable_views_of};
ghost use Rattle.header_typing.specs.Statics.{is_inner as is_inner_class};
ghost use Rattle.je_scopes.specs.Members.{part_of as the_part_of};
ghost use Rattle.je_typing.specs.Answers.{IsFault};
ghost use Rattle.je_typing.specs.declared.fault.Refusal.TheVariants.{Memory};
ghost use Rattle.je_typing.specs.Judged.{gives};
ghost use Rattle.name_lookup.specs.View.{part_view};
ghost use Rattle.overriding.specs.Methods.{own_from};
ghost use Rattle.signature_steps.specs.Signed.{constructor_of, initializer_of, method_of};
ghost use Rattle.signature_steps.specs.View.{is_among, setting_of};
ghost use Rattle.signature_typing.specs.Signatures as words;

use crate::headers::{is_interface, judge_member_modifiers};
use crate::methods::{Signature, judge_constructor, judge_overrides, judge_signature, with_next};
use crate::setting::{ConstantField, Setting, refused};
use class_methods::Method;
use header_steps::{is_inner, static_field, static_initializer, static_method};
use je_ast::{Identifier, Member, Modifier, TyName, Var};
use je_base::{NameId, Span};
use je_core::ClassId;
use je_typing::{Refusal, TypeRule};
use member_rules::{Declared, bad_body};
use name_lookup::{Part, Place};
use name_walk::has_static;
use written_types::{judge_declared, judge_type};

fn is_constant(constants: &[ConstantField], class: ClassId, name: NameId) -> bool
    ensures { result ≡ is_among constants.now class.0 name }
{
    for at in 0..constants.len() {
        let constant = constants[at];
        if constant.class.0 == class.0 && constant.name.0 == name.0 {
            return true;
        }
    }
    false
}

fn is_in_inner(setting: Setting, class: ClassId) -> bool
    ensures { result ≡ is_inner_class (setting_of setting.entry).sites
        (setting_of setting.entry).heads class.0 }
{
    is_inner(setting.around.program.sites, setting.around.heads, class)
}

fn part_of(is_static: bool) -> Part
    ensures { part_view result ≡ the_part_of is_static }
{
    if is_static {
        Part::StaticMember
    } else {
        Part::Member
    }
}

#[tactic(auto, using(je_typing::proofs::Walks::walks))]
fn judge_variable(
    setting: Setting,
    class: ClassId,
    modifiers: &[Modifier],
    ty: &TyName,
    name: Identifier,
    dims: usize,
) -> Result<(), Refusal>
    ensures ok { IfOk result (λ done. words.variable (setting_of setting.entry) class.0
        modifiers.now (type_view ty.now) name dims ≡ gives done) }
    ensures err { IfErr result (IsFault (words.variable (setting_of setting.entry) class.0
        modifiers.now (type_view ty.now) name dims)) }
{
    judge_declared(ty, dims, name)?;
    let constant = is_constant(setting.constants, class, name.name);
    static_field(is_in_inner(setting, class), modifiers, constant, name)
}

#[tactic(auto, using(je_typing::proofs::Walks::walks))]
fn judge_variables(
    setting: Setting,
    class: ClassId,
    modifiers: &[Modifier],
    ty: &TyName,
    vars: &[Var],
) -> Result<(), Refusal>
    ensures ok { IfOk result (λ done. words.variables (setting_of setting.entry) class.0
        modifiers.now (type_view ty.now) (variable_views_of vars.now) ≡ gives done) }
    ensures err { IfErr result (IsFault (words.variables (setting_of setting.entry) class.0
        modifiers.now (type_view ty.now) (variable_views_of vars.now))) }
{
    for var in vars {
        judge_variable(setting, class, modifiers, ty, var.name, var.dims)?;
    }
    Ok(())
}

#[tactic(auto, using(je_typing::proofs::Walks::walks))]
fn judge_field(
    setting: Setting,
    class: ClassId,
    modifiers: &[Modifier],
    ty: &TyName,
    vars: &[Var],
) -> Result<(), Refusal>
    ensures ok { IfOk result (λ done. words.field (setting_of setting.entry) class.0
        modifiers.now (type_view ty.now) (variable_views_of vars.now) ≡ gives done) }
    ensures err { IfErr result (IsFault (words.field (setting_of setting.entry) class.0
        modifiers.now (type_view ty.now) (variable_views_of vars.now))) }
{
    judge_member_modifiers(setting, class, Declared::Field, modifiers)?;
    let is_static = is_interface(setting, class) || has_static(modifiers);
    let place = Place {
        class,
        part: part_of(is_static),
    };
    judge_type(setting.around, place, ty)?;
    judge_variables(setting, class, modifiers, ty, vars)
}

// A body that stands where none may, or is missing.
fn judge_body(setting: Setting, class: ClassId, member: &Member) -> Result<(), Refusal>
    ensures ok { IfOk result (λ done. words.body (setting_of setting.entry) class.0
        (member_node_view member.now) ≡ gives done) }
    ensures err { IfErr result (IsFault (words.body (setting_of setting.entry) class.0
        (member_node_view member.now))) }
{
    let name = setting.around.program.sites.name(class);
    let in_interface = is_interface(setting, class);
    refused(TypeRule::BadBody, bad_body(name, in_interface, member))
}

// A method, whose place its signature has.
#[tactic(auto, using(je_typing::proofs::Walks::walks))]
fn judge_method(
    setting: Setting,
    class: ClassId,
    earlier: &[Method],
    signature: Signature,
    name: Identifier,
    member: &Member,
) -> Result<(), Refusal>
    requires { map method_seen earlier.now ≡ own_from class.0 0
        (take signature.at (words.own_methods (setting_of setting) class.0)) }
    ensures ok { IfOk result (λ done. method_of (setting_of setting.entry) class.0
        signature.entry name (member_node_view member.now) ≡ gives done) }
    ensures err { IfErr result (IsFault (method_of (setting_of setting.entry) class.0
        signature.entry name (member_node_view member.now))) }
{
    judge_signature(setting, class, signature)?;
    judge_body(setting, class, member)?;
    judge_overrides(setting, class, earlier, signature.at)?;
    static_method(is_in_inner(setting, class), signature.modifiers, name)
}

#[tactic(auto, using(je_typing::proofs::Walks::walks))]
fn judge_constructor_member(
    setting: Setting,
    class: ClassId,
    signature: Signature,
    member: &Member,
) -> Result<(), Refusal>
    ensures ok { IfOk result (λ done. constructor_of (setting_of setting.entry) class.0
        signature.entry (member_node_view member.now) ≡ gives done) }
    ensures err { IfErr result (IsFault (constructor_of (setting_of setting.entry) class.0
        signature.entry (member_node_view member.now))) }
{
    judge_signature(setting, class, signature)?;
    judge_body(setting, class, member)?;
    judge_constructor(setting, class, signature.at)
}

#[tactic(auto, using(je_typing::proofs::Walks::walks))]
fn judge_initializer(
    setting: Setting,
    class: ClassId,
    word: Option<Span>,
    member: &Member,
) -> Result<(), Refusal>
    ensures ok { IfOk result (λ done. initializer_of (setting_of setting.entry) class.0 word
        (member_node_view member.now) ≡ gives done) }
    ensures err { IfErr result (IsFault (initializer_of (setting_of setting.entry) class.0 word
        (member_node_view member.now))) }
{
    judge_body(setting, class, member)?;
    static_initializer(is_in_inner(setting, class), word)
}

/// A member of a class: the next method or constructor has a place, before which the class declares `earlier`.
#[tactic(auto, using(je_ast::proofs::Views::member_is))]
fn judge_member(
    setting: Setting,
    class: ClassId,
    earlier: &[Method],
    at: usize,
    member: &Member,
) -> Result<(), Refusal>
    requires { map method_seen earlier.now ≡
        own_from class.0 0 (take at (words.own_methods (setting_of setting) class.0)) }
    ensures ok { IfOk result (λ done. words.judged_member (setting_of setting.entry) class.0 at
        (member_view member.now) ≡ gives done) }
    ensures err { IfErr result (IsFault (words.judged_member (setting_of setting.entry) class.0 at
        (member_view member.now))) }
{
    judge_member_here(setting, class, earlier, at, member)
}

fn judge_member_here(
    setting: Setting,
    class: ClassId,
    earlier: &[Method],
    at: usize,
    member: &Member,
) -> Result<(), Refusal>
    requires { map method_seen earlier.now ≡
        own_from class.0 0 (take at (words.own_methods (setting_of setting) class.0)) }
    ensures ok { IfOk result (λ done. words.judged_member (setting_of setting.entry) class.0 at
        (member_node_view member.now) ≡ gives done) }
    ensures err { IfErr result (IsFault (words.judged_member (setting_of setting.entry) class.0 at
        (member_node_view member.now))) }
{
    match member {
        Member::Type { .. } => Ok(()),
        Member::Field {
            modifiers,
            ty,
            vars,
            ..
        } => judge_field(setting, class, modifiers, ty, vars),
        Member::Method {
            modifiers,
            result,
            name,
            formals,
            throws,
            ..
        } => {
            let signature = Signature {
                declared: Declared::Method,
                at,
                part: part_of(has_static(modifiers)),
                modifiers,
                result,
                formals,
                throws,
            };
            judge_method(setting, class, earlier, signature, *name, member)
        }
        Member::Constructor {
            modifiers,
            formals,
            throws,
            ..
        } => {
            let signature = Signature {
                declared: Declared::Constructor,
                at,
                part: Part::Member,
                modifiers,
                result: &None,
                formals,
                throws,
            };
            judge_constructor_member(setting, class, signature, member)
        }
        Member::Initializer { word, .. } => judge_initializer(setting, class, *word, member),
    }
}

#[tactic(auto, using(je_ast::proofs::Views::member_is))]
fn is_callable(member: &Member) -> bool
    ensures { result ≡ words.is_callable (member_view member.now) }
{
    is_callable_here(member)
}

fn is_callable_here(member: &Member) -> bool
    ensures { result ≡ words.is_callable (member_node_view member.now) }
{
    matches!(member, Member::Method { .. } | Member::Constructor { .. })
}

// The place of the next method or constructor behind a member, and the methods before it.
fn next_place<'a>(
    setting: Setting<'a>,
    class: ClassId,
    member: &Member,
    at: usize,
    earlier: &mut Vec<Method<'a>>,
) -> Result<usize, Refusal>
    requires room { at + 1 < 2 ^ 64 }
    requires earlier { map method_seen earlier.old.items ≡
        own_from class.0 0 (take at (words.own_methods (setting_of setting) class.0)) }
    ensures place { IfOk result (λ next. next ≡ words.place_behind at (member_view member.now)) }
    ensures earlier { IfOk result (λ next. map method_seen earlier.new.items ≡ own_from class.0 0
        (take next (words.own_methods (setting_of setting.entry) class.0))) }
    ensures memory { IfErr result (λ r. r ≡ Memory) }
{
    if !is_callable(member) {
        return Ok(at);
    }
    with_next(setting, class, at, earlier)?;
    Ok(at + 1)
}

/// The members of a class.
#[tactic(auto, using(je_typing::proofs::Walks::walks))]
pub fn judge_members(setting: Setting, class: ClassId, members: &[Member]) -> Result<(), Refusal>
    ensures ok { IfOk result (λ done. words.members_from (setting_of setting.entry) class.0 0
        (member_views_of members.now) ≡ gives done) }
    ensures err { IfErr result (IsFault (words.members_from (setting_of setting.entry) class.0 0
        (member_views_of members.now))) }
{
    let mut at = 0;
    let mut earlier = Vec::new(setting.around.program.alloc);
    for member in members {
        judge_member(setting, class, &earlier, at, member)?;
        at = next_place(setting, class, member, at, &mut earlier)?;
    }
    Ok(())
}
