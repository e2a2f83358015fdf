// What a class inherits, by what the classes directly above it have.

ghost use Rattle.std.specs.Prelude.{◌≡◌, ◌∷◌, ◌++◌, [], IfOk, List, OnOk, filter, map, not, if◌then◌else◌};
ghost use Rattle.class_heads.specs.View.{classes_of};
ghost use Rattle.je_typing.specs.Castable.{is_interface as the_is_interface};
ghost use Rattle.name_types.specs.View.{shown};
ghost use Rattle.overriding.specs.Methods as words;
ghost use Rattle.class_methods.specs.View.{arguments_seen, method_seen, table_seen};
ghost use Rattle.class_methods.specs.way.Parts.{in_table, put_arguments, seen_by};
ghost use Rattle.class_methods.specs.way.Rounds.{next_methods as the_next_methods};
ghost use Rattle.source_subtypes.specs.View.{heads_of};

use crate::declaring::own;
use crate::method::{Method, has_method, is_inheritable};
use crate::seen::{parts_of, put_in};
use crate::signatures::is_overridden;
use class_heads::AllClasses;
use je_base::Memory;
use je_core::{ClassId, Sort};
use name_types::SrcTy;
use source_subtypes::{Arguments, ClassHeads, all_copied, object};
use std::alloc::Global;

// One method more, unless it is there.
fn join<'a>(methods: &mut Vec<Method<'a>>, method: Method<'a>) -> Result<(), Memory>
    ensures { OnOk result (map method_seen methods.new.items ≡
        words.joined (map method_seen methods.old.items) (method_seen method.entry ∷ [])) }
{
    if !has_method(methods, &method) {
        methods.push(method)?;
    }
    Ok(())
}

// A method more as classes below see it, if they do.
fn join_one<'a>(
    alloc: Global,
    methods: &mut Vec<Method<'a>>,
    arguments: Arguments,
    method: &Method<'a>,
) -> Result<(), Memory>
    ensures { OnOk result ((rest : List words.Method) →
        words.joined (map method_seen methods.new.items)
        (map (put_arguments (arguments_seen arguments.entry)) rest) ≡
        words.joined (map method_seen methods.old.items)
        (map (put_arguments (arguments_seen arguments.entry))
        (if words.is_inheritable (method_seen method.now) then method_seen method.now ∷ rest
        else rest))) }
{
    if is_inheritable(method) {
        join(methods, put_in(alloc, arguments, method)?)?;
    }
    Ok(())
}

fn join_seen<'a>(
    alloc: Global,
    methods: &mut Vec<Method<'a>>,
    arguments: Arguments,
    of: &[Method<'a>],
) -> Result<(), Memory>
    ensures { OnOk result (map method_seen methods.new.items ≡
        words.joined (map method_seen methods.old.items)
        (seen_by (arguments_seen arguments.entry) (map method_seen of.now))) }
{
    for at in 0..of.len() {
        join_one(alloc, methods, arguments, &of[at])?;
    }
    Ok(())
}

fn join_class<'a>(
    alloc: Global,
    table: &[Vec<Method<'a>>],
    methods: &mut Vec<Method<'a>>,
    arguments: Arguments,
) -> Result<(), Memory>
    ensures { OnOk result (map method_seen methods.new.items ≡
        words.joined (map method_seen methods.old.items)
        (seen_by (arguments_seen arguments.entry)
        (in_table (table_seen table.now) arguments.entry.class.0))) }
{
    match table.get(arguments.class.0 as usize) {
        Some(of) => join_seen(alloc, methods, arguments, of),
        None => Ok(()),
    }
}

#[tactic(auto, using(crate::proofs::Types::seen_by_parts))]
fn join_type<'a>(
    alloc: Global,
    table: &[Vec<Method<'a>>],
    methods: &mut Vec<Method<'a>>,
    ty: &SrcTy,
) -> Result<(), Memory>
    ensures { OnOk result (map method_seen methods.new.items ≡
        words.joined (map method_seen methods.old.items)
        (words.seen_in (in_table (table_seen table.now)) (shown ty.now))) }
{
    match parts_of(ty) {
        Some(arguments) => join_class(alloc, table, methods, arguments),
        None => Ok(()),
    }
}

// The methods of all these types, each once.
fn joined<'a>(
    alloc: Global,
    table: &[Vec<Method<'a>>],
    types: &[SrcTy],
) -> Result<Vec<Method<'a>>, Memory>
    ensures { IfOk result (λ ms. map method_seen ms.items ≡ words.joined_over
        (words.seen_in (in_table (table_seen table.now))) [] (map shown types.now)) }
{
    let mut methods = Vec::new(alloc);
    for at in 0..types.len() {
        join_type(alloc, table, &mut methods, &types[at])?;
    }
    Ok(methods)
}

/// Whether a class is an interface.
pub fn is_interface(heads: &ClassHeads, class: ClassId) -> bool
    ensures { result ≡ the_is_interface (heads_of heads.now) class.0 }
{
    match heads.class(class) {
        Some(head) => matches!(head.kind.sort, Sort::Interface),
        None => false,
    }
}

fn is_empty(types: &[SrcTy]) -> bool
    ensures { result ≡ words.is_empty (map shown types.now) }
{
    match types {
        [] => true,
        [_, ..] => false,
    }
}

/// The types directly above a class, of an interface that names none Object.
pub fn inherited_from(
    alloc: Global,
    heads: &ClassHeads,
    class: ClassId,
) -> Result<Vec<SrcTy>, Memory>
    ensures { IfOk result (λ ts. map shown ts.items ≡
        words.inherited_from (heads_of heads.now) class.0) }
{
    let supers = heads.supers(class);
    let mut types = all_copied(alloc, supers)?;
    if is_interface(heads, class) && is_empty(supers) {
        types.push(object())?;
    }
    Ok(types)
}

// A method as a class or an interface inherits it.
fn abstract_in(is_interface: bool, method: Method<'_>) -> Method<'_>
    ensures { method_seen result ≡ words.abstract_in is_interface (method_seen method.entry) }
{
    let is_abstract = method.is_abstract || is_interface;
    Method {
        is_abstract,
        ..method
    }
}

// Those that the class doesn't override itself.
#[tactic(auto, using(crate::proofs::Lists::one_kept, crate::proofs::Lists::one_left))]
fn kept<'a>(
    alloc: Global,
    heads: &ClassHeads,
    own: &[Method],
    is_interface: bool,
    methods: Vec<Method<'a>>,
) -> Result<Vec<Method<'a>>, Memory>
    ensures { IfOk result (λ ms. map method_seen ms.items ≡ map (words.abstract_in is_interface)
        (filter (λ m. not (words.is_overridden (heads_of heads.now) (map method_seen own.now) m))
        (map method_seen methods.entry.items))) }
{
    let mut kept = Vec::new(alloc);
    for method in methods {
        if !is_overridden(heads, own, &method) {
            kept.push(abstract_in(is_interface, method))?;
        }
    }
    Ok(kept)
}

/// What a class inherits, where the table lists what the classes directly above it have.
pub fn inherited_by<'a>(
    alloc: Global,
    heads: &ClassHeads,
    classes: AllClasses<'a>,
    table: &[Vec<Method<'a>>],
    class: ClassId,
) -> Result<Vec<Method<'a>>, Memory>
    ensures { IfOk result (λ ms. map method_seen ms.items ≡
        words.inherited_by (heads_of heads.now) (classes_of classes.entry)
        (in_table (table_seen table.now)) class.0) }
{
    let own = own(alloc, classes, class)?;
    let types = inherited_from(alloc, heads, class)?;
    let methods = joined(alloc, table, &types)?;
    kept(alloc, heads, &own, is_interface(heads, class), methods)
}

/// What a class has, its own methods first.
pub fn next_methods<'a>(
    alloc: Global,
    heads: &ClassHeads,
    classes: AllClasses<'a>,
    table: &[Vec<Method<'a>>],
    class: ClassId,
) -> Result<Vec<Method<'a>>, Memory>
    ensures { IfOk result (λ ms. map method_seen ms.items ≡
        the_next_methods (heads_of heads.now) (classes_of classes.entry)
        (table_seen table.now) class.0) }
{
    let mut methods = own(alloc, classes, class)?;
    let mut more = inherited_by(alloc, heads, classes, table, class)?;
    methods.append(&mut more)?;
    Ok(methods)
}
