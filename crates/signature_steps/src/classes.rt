// Whole classes.

ghost use Rattle.std.specs.Prelude.{◌≡◌, IfErr, IfOk, map, slice_get};
ghost use Rattle.class_methods.specs.HierarchyView.{HasAll};
ghost use Rattle.class_methods.specs.View.{method_seen};
ghost use Rattle.je_ast.specs.View.{declaration_node_view, declaration_view, member_views_of};
ghost use Rattle.je_ast.specs.Types.{type_view};
ghost use Rattle.je_scopes.specs.Headers.{declared_members, declared_name};
ghost use Rattle.je_scopes.specs.Sites.{behind_new, declared};
ghost use Rattle.je_typing.specs.Answers.{IsFault};
ghost use Rattle.je_typing.specs.Judged.{gives};
ghost use Rattle.overriding.specs.Methods.{inherited as the_inherited};
ghost use Rattle.overriding.specs.Overrides.{all_implemented as the_all_implemented, good_implementations as the_good_implementations, is_abstract_class, no_inherited_clash as the_no_inherited_clash};
ghost use Rattle.signature_steps.specs.View.{setting_of};
ghost use Rattle.signature_typing.specs.Signatures as words;

use crate::headers::{judge_anonymous, judge_header};
use crate::members::judge_members;
use crate::setting::Setting;
use class_methods::{Hierarchy, Method, own};
use header_steps::{static_class, well_placed};
use je_ast::{Decl, Member, TyName};
use je_base::Span;
use je_core::ClassId;
use je_typing::Refusal;
use member_faults::members_of;
use name_walk::Written;
use override_steps::{all_implemented, good_implementations, no_inherited_clash};

fn is_abstract(setting: Setting, class: ClassId) -> bool
    ensures { result ≡ is_abstract_class
        (slice_get (setting_of setting.entry).classes class.0) }
{
    match setting.classes.class(class) {
        Some(declared) => declared.kind.is_abstract,
        None => false,
    }
}

// Whether a class that isn't abstract has a body for each of its methods.
#[tactic(auto, unfolding(overriding::specs::Overrides::all_implemented), using(je_typing::proofs::Walks::walks))]
fn judge_implemented(
    setting: Setting,
    class: ClassId,
    inherited: &[Method],
    span: Span,
) -> Result<(), Refusal>
    requires { map method_seen inherited.now ≡ the_inherited
        (setting_of setting).heads (setting_of setting).classes class.0 }
    ensures ok { IfOk result (λ done. the_all_implemented (setting_of setting.entry).heads
        (setting_of setting.entry).classes class.0 span ≡ gives done) }
    ensures err { IfErr result (IsFault (the_all_implemented (setting_of setting.entry).heads
        (setting_of setting.entry).classes class.0 span)) }
{
    let own = own(setting.around.program.alloc, setting.classes, class)?;
    all_implemented(is_abstract(setting, class), &own, inherited, span)
}

// Whether the methods that a class inherits may stand for the abstract ones among them.
#[tactic(auto, unfolding(overriding::specs::Overrides::good_implementations))]
fn judge_implementations(
    setting: Setting,
    class: ClassId,
    inherited: &[Method],
    span: Span,
) -> Result<(), Refusal>
    requires { map method_seen inherited.now ≡ the_inherited
        (setting_of setting).heads (setting_of setting).classes class.0 }
    ensures ok { IfOk result (λ done. the_good_implementations (setting_of setting.entry).heads
        (setting_of setting.entry).classes class.0 span ≡ gives done) }
    ensures err { IfErr result (IsFault (the_good_implementations (setting_of setting.entry).heads
        (setting_of setting.entry).classes class.0 span)) }
{
    let around = setting.around;
    good_implementations(around.program.alloc, around.heads, inherited, span)
}

// Whether two methods that a class inherits clash.
#[tactic(auto, unfolding(overriding::specs::Overrides::no_inherited_clash))]
fn judge_inherited(
    setting: Setting,
    class: ClassId,
    inherited: &[Method],
    span: Span,
) -> Result<(), Refusal>
    requires { map method_seen inherited.now ≡ the_inherited
        (setting_of setting).heads (setting_of setting).classes class.0 }
    ensures ok { IfOk result (λ done. the_no_inherited_clash (setting_of setting.entry).heads
        (setting_of setting.entry).classes class.0 span ≡ gives done) }
    ensures err { IfErr result (IsFault (the_no_inherited_clash (setting_of setting.entry).heads
        (setting_of setting.entry).classes class.0 span)) }
{
    let around = setting.around;
    no_inherited_clash(
        around.program.alloc,
        around.heads,
        setting.classes,
        class,
        inherited,
        span,
    )
}

// A class as a whole, which inherits these methods; a fault stands at its name.
#[tactic(auto, using(je_typing::proofs::Walks::walks))]
fn judge_whole(
    setting: Setting,
    class: ClassId,
    inherited: &[Method],
    span: Span,
) -> Result<(), Refusal>
    requires { map method_seen inherited.now ≡ the_inherited
        (setting_of setting).heads (setting_of setting).classes class.0 }
    ensures ok { IfOk result (λ done. words.whole (setting_of setting.entry) class.0 span
        ≡ gives done) }
    ensures err { IfErr result (IsFault
        (words.whole (setting_of setting.entry) class.0 span)) }
{
    let program = setting.around.program;
    let heads = setting.around.heads;
    well_placed(program.alloc, heads, class, span)?;
    judge_implemented(setting, class, inherited, span)?;
    judge_implementations(setting, class, inherited, span)?;
    judge_inherited(setting, class, inherited, span)?;
    static_class(program.sites, heads, class, span)
}

// What is written of a class behind its header, and the class as a whole.
#[tactic(auto, using(je_typing::proofs::Walks::walks))]
fn judge_body(
    setting: Setting,
    hierarchy: &Hierarchy,
    class: ClassId,
    members: &[Member],
    span: Span,
) -> Result<(), Refusal>
    requires { HasAll (setting_of setting).heads (setting_of setting).classes
        hierarchy.now }
    ensures ok { IfOk result (λ done. words.class_body (setting_of setting.entry) class.0
        (member_views_of members.now) span ≡ gives done) }
    ensures err { IfErr result (IsFault (words.class_body (setting_of setting.entry) class.0
        (member_views_of members.now) span)) }
{
    let alloc = setting.around.program.alloc;
    let heads = setting.around.heads;
    let inherited = hierarchy.inherited(alloc, heads, setting.classes, class)?;
    judge_members(setting, class, members)?;
    judge_whole(setting, class, &inherited, span)
}

#[tactic(auto, using(je_ast::proofs::Views::declaration_is))]
fn name_span(decl: &Decl) -> Span
    ensures { result ≡ (declared_name (declaration_view decl.now)).span }
{
    name_span_here(decl)
}

fn name_span_here(decl: &Decl) -> Span
    ensures { result ≡ (declared_name (declaration_node_view decl.now)).span }
{
    match decl {
        Decl::Class { name, .. } | Decl::Interface { name, .. } | Decl::Enum { name, .. } => {
            name.span
        }
    }
}

fn judge_declared_body(
    setting: Setting,
    hierarchy: &Hierarchy,
    class: ClassId,
    decl: &Decl,
) -> Result<(), Refusal>
    requires { HasAll (setting_of setting).heads (setting_of setting).classes
        hierarchy.now }
    ensures ok { IfOk result (λ done. words.class_body (setting_of setting.entry) class.0
        (declared_members (declaration_view decl.now))
        (declared_name (declaration_view decl.now)).span ≡ gives done) }
    ensures err { IfErr result (IsFault (words.class_body (setting_of setting.entry) class.0
        (declared_members (declaration_view decl.now))
        (declared_name (declaration_view decl.now)).span)) }
{
    let members = members_of(Written::Declared { decl });
    judge_body(setting, hierarchy, class, members, name_span(decl))
}

#[tactic(auto, using(je_typing::proofs::Walks::walks))]
fn judge_declared(
    setting: Setting,
    hierarchy: &Hierarchy,
    class: ClassId,
    decl: &Decl,
) -> Result<(), Refusal>
    requires { HasAll (setting_of setting).heads (setting_of setting).classes
        hierarchy.now }
    ensures ok { IfOk result (λ done. words.written_class (setting_of setting.entry) class.0
        (declared (declaration_view decl.now)) ≡ gives done) }
    ensures err { IfErr result (IsFault (words.written_class (setting_of setting.entry) class.0
        (declared (declaration_view decl.now)))) }
{
    judge_header(setting, class, decl)?;
    judge_declared_body(setting, hierarchy, class, decl)
}

// An anonymous class: the word `new`, a type and a body.
#[tactic(auto, using(je_typing::proofs::Walks::walks))]
fn judge_anonymous_class(
    setting: Setting,
    hierarchy: &Hierarchy,
    class: ClassId,
    word: Span,
    ty: &TyName,
    body: &[Member],
) -> Result<(), Refusal>
    requires { HasAll (setting_of setting).heads (setting_of setting).classes
        hierarchy.now }
    ensures ok { IfOk result (λ done. words.written_class (setting_of setting.entry) class.0
        (behind_new word (type_view ty.now) (member_views_of body.now)) ≡ gives done) }
    ensures err { IfErr result (IsFault (words.written_class (setting_of setting.entry) class.0
        (behind_new word (type_view ty.now) (member_views_of body.now)))) }
{
    judge_anonymous(setting, class, ty)?;
    judge_body(setting, hierarchy, class, body, word)
}

#[tactic(auto, unfolding(signature_typing::specs::Signatures::class_signatures))]
fn judge_class(setting: Setting, hierarchy: &Hierarchy, class: ClassId) -> Result<(), Refusal>
    requires { HasAll (setting_of setting).heads (setting_of setting).classes
        hierarchy.now }
    ensures ok { IfOk result (λ done. words.class_signatures (setting_of setting.entry) class.0
        ≡ gives done) }
    ensures err { IfErr result (IsFault
        (words.class_signatures (setting_of setting.entry) class.0)) }
{
    match setting.around.program.sites.written(class) {
        Written::Library => Ok(()),
        Written::Declared { decl } => judge_declared(setting, hierarchy, class, decl),
        Written::Anonymous {
            word,
            class: ty,
            body,
        } => judge_anonymous_class(setting, hierarchy, class, word, ty, body),
    }
}

/// The headers and signatures of all classes, in reading order: nothing, or the first fault.
#[tactic(auto, unfolding(signature_typing::specs::Signatures::signatures), using(je_typing::proofs::Walks::walks))]
pub fn judge_signatures(setting: Setting, hierarchy: &Hierarchy) -> Result<(), Refusal>
    requires { HasAll (setting_of setting).heads (setting_of setting).classes
        hierarchy.now }
    ensures ok { IfOk result (λ done. words.signatures (setting_of setting.entry) ≡ gives done) }
    ensures err { IfErr result (IsFault (words.signatures (setting_of setting.entry))) }
{
    for at in 0..setting.around.program.sites.len() {
        judge_class(setting, hierarchy, ClassId(at as u32))?;
    }
    Ok(())
}
