// Methods (JLS 8.4).

ghost use Rattle.std.specs.Prelude.{◌≡◌, ◌++◌, IfOk, OnOk, map, option_map};
ghost use Rattle.je_core.specs.View.{method_view, stmt_view, stmt_view_if};
ghost use Rattle.declarations.specs.View.{method_shown};
ghost use Rattle.source_types.specs.Erasure.{erased as the_erased};
ghost use Rattle.source_subtypes.specs.View.{heads_of};
ghost use Rattle.name_types.specs.View.{shown};
ghost use Rattle.class_typing.specs.Members.{class_of_base};
ghost use Rattle.statement_forms.specs.Seen.{progress_seen};
ghost use Rattle.member_forms.specs.Seen.{members_seen};
ghost use Rattle.member_forms.specs.Walks.{body_done, code_of as the_code_of, method_code as the_method_code, thrown_classes as the_thrown_classes};

use crate::done::{MembersDone, of_method};
use crate::walk::{ClassWalk, alloc};
use declarations::MethodDecl;
use je_ast::Identifier;
use je_base::{Memory, NameId, Span};
use je_core::{Base, ClassId, Local, Method, Stmt, Ty};
use name_types::SrcTy;
use source_subtypes::{ClassHeads, erased};
use statement_forms::Progress;
use std::alloc::Global;
use std::rc::Rc;

/// Types without their type arguments.
pub fn all_erased(alloc: Global, heads: &ClassHeads, types: &[SrcTy]) -> Result<Vec<Ty>, Memory>
    ensures { IfOk result (λ ts. ts.items ≡
        map (the_erased (heads_of heads.now)) (map shown types.now)) }
{
    let mut all = Vec::new(alloc);
    for ty in types {
        all.push(erased(heads, ty))?;
    }
    Ok(all)
}

fn add_class(classes: &mut Vec<ClassId>, base: Base) -> Result<(), Memory>
    ensures { OnOk result (classes.new.items ≡ classes.old.items ++ class_of_base base) }
{
    if let Base::Class(class) = base {
        classes.push(class)?;
    }
    Ok(())
}

// The classes that a method declares to throw.
fn thrown_classes(walk: ClassWalk, types: &[SrcTy]) -> Result<Vec<ClassId>, Memory>
    ensures { IfOk result (λ cs. cs.items ≡ the_thrown_classes walk.entry (map shown types.now)) }
{
    let mut classes = Vec::new(alloc(walk));
    for ty in types {
        let bodies = walk.bodies;
        let thrown = erased(bodies.calls.program.heads, ty);
        add_class(&mut classes, thrown.base)?;
    }
    Ok(classes)
}

/// A body in memory, if there is one.
pub fn kept(alloc: Global, body: Option<Stmt>) -> Result<Option<Rc<Stmt>>, Memory>
    ensures { IfOk result (λ b. stmt_view_if b ≡ option_map stmt_view body) }
{
    match body {
        Some(body) => Ok(Some(Rc::new(alloc, body)?)),
        None => Ok(None),
    }
}

/// A method, or a constructor, of its locals and its body.
pub fn code_of(
    walk: ClassWalk,
    name: NameId,
    span: Span,
    declared: &MethodDecl,
    locals: Vec<Local>,
    body: Option<Stmt>,
) -> Result<Method, Memory>
    ensures { IfOk result (λ m. method_view m ≡ the_code_of walk.entry name span
        (method_shown declared.now) locals.items (option_map stmt_view body)) }
{
    let bodies = walk.bodies;
    let heads = bodies.calls.program.heads;
    let params = all_erased(alloc(walk), heads, &declared.parameters)?;
    let throws = thrown_classes(walk, &declared.throws)?;
    let body = kept(alloc(walk), body)?;
    Ok(Method {
        name,
        span,
        params,
        returns: erased(heads, &declared.result),
        flags: declared.flags,
        throws,
        locals,
        body,
    })
}

/// A method, of what its body came to.
pub fn method_code<'a>(
    walk: ClassWalk,
    name: Identifier,
    declared: &MethodDecl,
    progress: Progress<'a>,
    body: Option<Stmt>,
) -> Result<MembersDone<'a>, Memory>
    ensures { IfOk result (λ d. members_seen d ≡ the_method_code walk.entry name
        (method_shown declared.now) (body_done (option_map stmt_view body)
        (progress_seen progress.entry))) }
{
    let Progress { locals, met } = progress;
    let code = code_of(walk, name.name, name.span, declared, locals, body)?;
    of_method(alloc(walk), code, Vec::new(alloc(walk)), met)
}
