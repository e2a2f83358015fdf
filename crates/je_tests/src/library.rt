// The library's classes as classes of a core program.

use class_names::library_words;
use je_core::{Access, Base, Class, ClassId, Field, Form, Memory, Names, Sort, Ty, Value};
use library_classes::library_classes;
use std::alloc::Global;

const INT: Ty = Ty {
    base: Base::Int,
    dims: 0,
};

fn object(class: u32) -> Ty {
    Ty {
        base: Base::Class(ClassId(class)),
        dims: 0,
    }
}

fn names_of_library(alloc: Global) -> Result<Names, Memory> {
    let mut names = Names::new(alloc);
    if names.len() < 1_000 {
        library_words(&mut names)?;
    }
    Ok(names)
}

// The class of a full name.
fn named<'a>(classes: &'a [Class], names: &Names, name: &str) -> Option<&'a Class> {
    let id = names.find(name)?;
    classes.iter().find(|class| class.name == id)
}

// The names of members, with a blank behind each.
fn joined(names: &Names, alloc: Global, class: &Class) -> Result<String, Memory> {
    let mut text = String::new(alloc);
    for method in &class.methods {
        text.push_str(names.text(method.name).unwrap_or("?"))?;
        text.push_str(" ")?;
    }
    Ok(text)
}

// The constant of a field that has one.
fn constant_of(field: &Field) -> Option<Value> {
    match &field.constant {
        Some(e) => match &e.form {
            Form::Const { value, .. } => Some(*value),
            _ => None,
        },
        None => None,
    }
}

// The classes of the library, with the names by their numbers.
#[derive(Drop)]
struct Library {
    names: Names,
    classes: Vec<Class>,
}

fn made_library(alloc: Global) -> Result<Library, Memory> {
    let names = names_of_library(alloc)?;
    let classes = library_classes(alloc, &names)?;
    Ok(Library { names, classes })
}

fn is_string_so(string: &Class) -> bool {
    string.top == ClassId(1)
        && string.superclass == Some(ClassId(0))
        && string.kind.is_final
        && string.interfaces.first().copied() == Some(ClassId(7))
}

// Whether the bridge of String is that of `compareTo(Object)`.
fn has_bridge_so(string: &Class) -> bool {
    match string.bridges.first() {
        Some(bridge) => bridge.method == (ClassId(7), 0) && bridge.by == (ClassId(1), 1),
        None => false,
    }
}

fn is_runnable_so(runnable: &Class) -> bool {
    let is_abstract = match runnable.methods.first() {
        Some(method) => method.flags.is_abstract,
        None => false,
    };
    runnable.kind.sort == Sort::Interface && runnable.superclass.is_none() && is_abstract
}

fn are_core_classes(library: &Library) -> bool {
    let string = named(&library.classes, &library.names, "java.lang.String");
    let runnable = named(&library.classes, &library.names, "java.lang.Runnable");
    match (string, runnable) {
        (Some(string), Some(runnable)) => {
            is_string_so(string) && has_bridge_so(string) && is_runnable_so(runnable)
        }
        _ => false,
    }
}

#[test]
fn library_classes_are_core_classes(rt: HostRuntime) -> Result<(), Memory> {
    let library = made_library(rt.alloc())?;
    assert!(rt; library.classes.len() == 39 && are_core_classes(&library));
    Ok(())
}

// Whether the methods of a class have these names, with a blank behind each.
fn has_methods(
    alloc: Global,
    library: &Library,
    name: &str,
    methods: &str,
) -> Result<bool, Memory> {
    match named(&library.classes, &library.names, name) {
        Some(class) => Ok(joined(&library.names, alloc, class)?.as_str() == methods),
        None => Ok(false),
    }
}

#[test]
fn members_stand_in_the_order_of_their_rows(rt: HostRuntime) -> Result<(), Memory> {
    let alloc = rt.alloc();
    let library = made_library(alloc)?;
    assert!(rt;
        has_methods(
            alloc,
            &library,
            "java.lang.Object",
            "equals hashCode new toString "
        )?
    );
    let holds = has_methods(alloc, &library, "host.Cell", "get set ")?
        && has_methods(
            alloc,
            &library,
            "java.lang.Throwable",
            "getMessage new new ",
        )?
        && has_methods(alloc, &library, "org.joe_e.Selfless", "")?;
    assert!(rt; holds);
    Ok(())
}

// Whether `get` of ConstRow gives its Immutable.
fn is_erased(library: &Library) -> bool {
    let names = &library.names;
    let immutable = named(&library.classes, names, "org.joe_e.Immutable");
    let row = named(&library.classes, names, "joee.lib.ConstRow");
    let (Some(immutable), Some(row)) = (immutable, row) else {
        return false;
    };
    for method in &row.methods {
        if names.text(method.name) == Some("get") {
            return method.returns == object(immutable.top.0);
        }
    }
    false
}

// Whether `Integer.MIN_VALUE` is a constant of its value.
fn has_least_int(library: &Library) -> bool {
    let names = &library.names;
    let Some(integer) = named(&library.classes, names, "java.lang.Integer") else {
        return false;
    };
    for field in &integer.fields {
        if names.text(field.name) == Some("MIN_VALUE") {
            return field.ty == INT
                && field.is_static
                && field.is_final
                && constant_of(field) == Some(Value::Int(-2_147_483_648));
        }
    }
    false
}

// Whether the first field of Refused is hidden.
fn has_hidden_code(library: &Library) -> bool {
    let Some(refused) = named(&library.classes, &library.names, "host.Refused") else {
        return false;
    };
    match refused.fields.first() {
        Some(code) => code.ty == INT && code.access == Access::Hidden,
        None => false,
    }
}

#[test]
fn types_are_erased_and_fields_have_constants(rt: HostRuntime) -> Result<(), Memory> {
    let library = made_library(rt.alloc())?;
    let holds = is_erased(&library) && has_least_int(&library) && has_hidden_code(&library);
    assert!(rt; holds);
    Ok(())
}
