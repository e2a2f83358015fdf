// Classes of the core program.

ghost use Rattle.std.specs.Prelude.{◌≡◌, ℕ, [], IfOk, List, map, option_map, slice_get, unwrap_or};
ghost use Rattle.je_core.specs.View.{class_view, initializer_view, method_view, view};
ghost use Rattle.je_scopes.specs.Headers.{name_in, site_at};
ghost use Rattle.class_typing.specs.Classes.{core_class as the_core_class};
ghost use Rattle.class_typing.specs.Members.{MembersDone};
ghost use Rattle.class_typing.specs.Programs as words;
ghost use Rattle.class_typing.specs.Programs.{number as the_number};
ghost use Rattle.body_places.specs.View.{program_seen};
ghost use Rattle.declarations.specs.View.{field_shown};
ghost use Rattle.core_making.specs.Known.{captured_local_seen};
ghost use Rattle.core_making.specs.Parts.{IsMadeOf};
ghost use Rattle.core_making.specs.way.Made.{kind_of as the_kind_of, made as the_made};

use crate::above::{classes_of_types, interfaces_of, named_above, superclass_of};
use crate::fields::{add_declared, hidden_fields};
use crate::making::{Making, Parts};
use crate::written::{enclosing, is_interface_sort, written_span};
use body_places::Program;
use je_base::{Memory, NameId};
use je_core::{Class, ClassId, Kind, Sort};
use word_numbers::number;

fn name_of(making: Making, class: ClassId) -> NameId
    ensures { result ≡ unwrap_or
        (name_in (site_at (program_seen making.entry.program).source.sites class.0).written)
        (the_number (program_seen making.entry.program).source []) }
{
    match making.program.source.sites.name(class) {
        Some(name) => name,
        None => number(making.names, ""),
    }
}

fn kind_of(program: &Program, class: ClassId) -> Kind
    ensures { result ≡ the_kind_of (program_seen program.now)
        (slice_get (program_seen program.now).classes class.0) }
{
    match program.classes.class(class) {
        Some(declared) => declared.kind,
        None => Kind {
            sort: Sort::Class,
            is_abstract: false,
            is_final: false,
            is_static: false,
        },
    }
}

/// A count of what stands in memory, which holds no more than a number can name.
pub fn counted(length: usize) -> Result<u32, Memory>
    ensures { IfOk result (λ n. n ≡ length) }
{
    match u32::try_from(length) {
        Ok(count) => Ok(count),
        Err(_) => Err(Memory),
    }
}

// A class, of what its parts come to.
fn made(making: Making, class: ClassId, parts: Parts) -> Result<Class, Memory>
    ensures { IfOk result (λ k. class_view k ≡ the_made (program_seen making.entry.program) class.0
        (map captured_local_seen parts.entry.captured.now)
        (map field_shown parts.entry.declared.now)
        (map (option_map view) parts.entry.constants.items)
        (map initializer_view parts.entry.initializers.items)
        (map method_view parts.entry.methods.items) parts.entry.nth parts.entry.bridges.items) }
{
    let program = &making.program;
    let sites = program.source.sites;
    let alloc = program.source.alloc;
    let is_interface = is_interface_sort(sites.sort(class));
    let above = classes_of_types(alloc, program.heads.supers(class))?;
    let interfaces = interfaces_of(alloc, is_interface, &above)?;
    let heads = named_above(program, class)?;
    let captured = counted(parts.captured.len())?;
    let mut fields = hidden_fields(making, parts.captured, class)?;
    add_declared(program, parts.declared, parts.constants, &mut fields)?;
    Ok(Class {
        name: name_of(making, class),
        span: written_span(sites.written(class)),
        kind: kind_of(program, class),
        superclass: superclass_of(is_interface, &above),
        interfaces,
        heads,
        fields,
        initializers: parts.initializers,
        methods: parts.methods,
        enclosing: enclosing(sites, class),
        captured,
        within: sites.outside(class).within,
        nth: parts.nth,
        top: sites.top_of(class),
        bridges: parts.bridges,
    })
}

/// A class of the core program, of what is declared of it and what its members come to.
pub fn core_class(making: Making, class: ClassId, parts: Parts) -> Result<Class, Memory>
    ensures { IfOk result (λ k. (captured : ℕ → List words.CapturedLocal) (d : MembersDone) →
        IsMadeOf (program_seen making.entry.program) captured class.0 d parts.entry →
        class_view k ≡
        the_core_class (program_seen making.entry.program) captured class.0 d) }
{
    let whole = made(making, class, parts)?;
    Ok(whole)
}
