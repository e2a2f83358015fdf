// What a class declares.

use je_ast::Identifier;
use je_core::{Access, Flags, Kind};
use name_types::SrcTy;

/// A type parameter (JLS 8.1.2).
#[derive(Drop)]
pub struct ParameterDecl {
    pub name: Identifier,
    /// None where no bound is written, which is then Object.
    pub bound: Option<SrcTy>,
}

/// A field, or a constant of an enum (JLS 8.3, 8.9, 9.3).
#[derive(Drop)]
pub struct FieldDecl {
    pub name: Identifier,
    pub ty: SrcTy,
    pub is_static: bool,
    pub is_final: bool,
    pub access: Access,
}

/// A method, or a constructor under the name that is written (JLS 8.4, 8.8, 9.4).
#[derive(Drop)]
pub struct MethodDecl {
    pub name: Identifier,
    pub is_constructor: bool,
    pub parameters: Vec<SrcTy>,
    /// `void` for a constructor.
    pub result: SrcTy,
    /// The types behind `throws`.
    pub throws: Vec<SrcTy>,
    pub flags: Flags,
}

/// What a class declares, its members in the order in which they are written (JLS 8.1, 8.9, 9.1, 15.9.5).
#[derive(Drop)]
pub struct ClassDecl {
    pub kind: Kind,
    pub access: Access,
    pub parameters: Vec<ParameterDecl>,
    /// The types behind `extends` and `implements`, or behind the `new` of an anonymous class.
    pub heads: Vec<SrcTy>,
    pub fields: Vec<FieldDecl>,
    /// Constructors among them.
    pub methods: Vec<MethodDecl>,
}
