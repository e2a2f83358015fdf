// Which class stands in which.

ghost use Rattle.std.specs.Prelude.{◌≡◌, ◌<◌, ◌^◌, IfOk, OnOk, length};
ghost use Rattle.je_core.specs.View.{class_view, program_view};
ghost use Rattle.je_classes.specs.Hierarchy.{class_at};
ghost use Rattle.captured_reads.specs.Nesting.{IsNested, is_local as the_is_local, is_anonymous as the_is_anonymous, local_class_in, is_member_in};
ghost use Rattle.captured_reads.specs.way.Filling.{AreEmpty, HasOneMore};

use je_core::{Class, ClassId, Memory, Program, Sort, Span};
use std::alloc::Global;

/// A class that a block declares (JLS 14.3), and its span.
#[derive(Clone, Copy, PartialEq, Eq)]
pub struct LocalClass {
    pub class: ClassId,
    pub span: Span,
}

pub(crate) fn is_local(sort: Sort) -> bool
    ensures { result ≡ the_is_local sort }
{
    sort == Sort::Local
}

pub(crate) fn is_anonymous(sort: Sort) -> bool
    ensures { result ≡ the_is_anonymous sort }
{
    sort == Sort::Anonymous
}

fn local_class(program: &Program, class: ClassId) -> Option<LocalClass>
    ensures { result ≡ local_class_in class (class_at (program_view program.now) class) }
{
    let found = program.class(class)?;
    if is_local(found.kind.sort) {
        Some(LocalClass {
            class,
            span: found.span,
        })
    } else {
        None
    }
}

fn is_member(program: &Program, class: ClassId) -> bool
    ensures { result ≡ is_member_in (class_at (program_view program.now) class) }
{
    match program.class(class) {
        None => false,
        Some(found) => !(is_local(found.kind.sort) || is_anonymous(found.kind.sort)),
    }
}

#[tactic(auto, using(crate::proofs::Filling::one_empty_more))]
fn empty_lists(alloc: Global, count: usize) -> Result<Vec<Vec<ClassId>>, Memory>
    ensures count { IfOk result (λ v. length v.items ≡ count) }
    ensures empty { IfOk result (λ v. AreEmpty v.items) }
{
    let mut lists = Vec::new(alloc);
    for _ in 0..count {
        lists.push(Vec::new(alloc))?;
    }
    Ok(lists)
}

// Adds a class to the list of the class directly round it.
#[tactic(auto, using(crate::proofs::Filling::one_class_more))]
fn add_inside(
    lists: &mut Vec<Vec<ClassId>>,
    within: Option<ClassId>,
    id: ClassId,
) -> Result<(), Memory>
    ensures count { OnOk result (length lists.new.items ≡ length lists.old.items) }
    ensures more { OnOk result (HasOneMore within id lists.old.items lists.new.items) }
{
    let Some(within) = within else {
        return Ok(());
    };
    let at = within.0 as usize;
    if at < lists.len() {
        lists[at].push(id)?;
    }
    Ok(())
}

// Of each class those directly inside it.
#[tactic(auto, unfolding(je_core::specs::View::program_view))]
fn lists_of(alloc: Global, program: &Program) -> Result<Vec<Vec<ClassId>>, Memory>
    requires { length (program_view program.now).classes < 2 ^ 31 }
    ensures { IfOk result (λ v. IsNested (program_view program.now) v.items) }
{
    let mut lists = empty_lists(alloc, program.classes.len())?;
    for (number, class) in program.classes.iter().enumerate() {
        add_inside(&mut lists, class.within, ClassId(number as u32))?;
    }
    Ok(lists)
}

/// The classes of a program, each with those directly inside it (JLS 8.1.3), so that no walk looks through all of them.
#[derive(Drop)]
pub struct Nesting<'a> {
    program: &'a Program,
    inside: Vec<Vec<ClassId>>,
    pub ghost listed: { IsNested (program_view program.now) inside.items },
}

impl<'a> Nesting<'a> {
    ghost use Rattle.std.specs.Prelude.{◌≡◌, ◌<◌, ◌^◌, IfOk, length};
    ghost use Rattle.je_core.specs.View.{program_view};
    ghost use Rattle.captured_reads.specs.Nesting.{classes_inside, local_classes, member_classes};
    ghost use Rattle.captured_reads.specs.NestingView.{program_of};

    /// The nesting of a program's classes.
    pub fn of(alloc: Global, program: &'a Program) -> Result<Nesting<'a>, Memory>
        requires { length (program_view program.now).classes < 2 ^ 31 }
        ensures { IfOk result (λ nesting. program_of nesting ≡ program_view program.now) }
    {
        let inside = lists_of(alloc, program)?;
        Ok(Nesting { program, inside })
    }

    /// The program.
    pub fn program(&self) -> &'a Program
        ensures { program_view result.now ≡ program_of self.now }
    {
        self.program
    }

    // The classes directly inside a class.
    fn inside(&self, class: ClassId) -> &[ClassId]
        ensures { result.now ≡ classes_inside (program_of self.now) class }
    {
        match self.inside.get(class.0 as usize) {
            None => &[],
            Some(list) => list,
        }
    }

    // The classes that blocks of a class declare.
    pub(crate) fn local_classes(
        &self,
        alloc: Global,
        class: ClassId,
    ) -> Result<Vec<LocalClass>, Memory>
        ensures { IfOk result (λ v. v.items ≡ local_classes (program_of self.now) class) }
    {
        let inside = self.inside(class);
        Ok(
            inside
                .iter()
                .filter_map(|d| local_class(self.program, *d))
                .collect(alloc)?,
        )
    }

    // The member classes of a class.
    pub(crate) fn member_classes(
        &self,
        alloc: Global,
        class: ClassId,
    ) -> Result<Vec<ClassId>, Memory>
        ensures { IfOk result (λ v. v.items ≡ member_classes (program_of self.now) class) }
    {
        let inside = self.inside(class);
        Ok(
            inside
                .iter()
                .filter(|d| is_member(self.program, **d))
                .copied()
                .collect(alloc)?,
        )
    }
}
