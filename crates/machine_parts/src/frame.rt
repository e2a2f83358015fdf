// What waits for a part of a node, and what comes next.

ghost use Rattle.std.specs.Prelude.{◌≤◌, ◌<◌, ◌+◌};

use crate::stack::Stack;
use crate::starts::Path;
use je_base::{NameId, Units};
use je_core::{BinOp, ClassId, Expr, ObjId, Slots, Stmt, Ty, UnOp, Value};
use je_java::Receiver;
use std::alloc::Global;
use std::rc::Rc;

/// What a machine does next.
#[derive(Drop)]
pub enum Control {
    /// Begin a call from outside.
    Start(Call),
    /// Begin a load, with those classes to start.
    Load(ClassesLeft),
    /// Begin an expression.
    Eval(Rc<Expr>),
    /// Begin a statement.
    Exec(Rc<Stmt>),
    /// Begin the body of a constructor of that class.
    Build { class: ClassId, body: Rc<Stmt> },
    /// Hand a value to the newest frame.
    Give(Value),
    /// Go on after a statement.
    Next,
    /// Leave the method with a value.
    Leave(Value),
    /// Unwind with an exception.
    Throw(ObjId),
    /// Leave statements by a `continue` or a `break`.
    Jump { again: bool, label: Option<NameId> },
    /// The call is done, with a reply or none.
    Done(Option<Value>),
    /// The call has thrown.
    Thrown(ObjId),
    /// The initializers of a class have thrown.
    ThrownInStart { class: ClassId, exception: ObjId },
    /// The next cost is greater than the units left.
    Spent,
    /// What a program that fits its types never comes to.
    Wrong,
    /// An allocation was refused.
    Memory,
}

/// What a step comes to.
#[derive(Clone, Copy, PartialEq, Eq, Debug)]
pub enum Next {
    /// The call goes on.
    More,
    /// It is done, with the method's result, or none where that is `void`. A start replies the new object.
    Done(Option<Value>),
    /// It has thrown the exception of that number.
    Thrown(ObjId),
    /// The initializers of a class have thrown the exception of that number.
    ThrownInStart { class: ClassId, exception: ObjId },
    /// The next cost is greater than the units left.
    Spent,
}

/// How a statement ended, before a block that runs however it ends.
#[derive(Clone, Copy)]
pub enum End {
    /// It came to its end.
    Next,
    /// It left the method with a value.
    Leave(Value),
    /// It threw.
    Throw(ObjId),
    /// It ended by a `continue` or a `break`.
    Jump { again: bool, label: Option<NameId> },
}

/// A call of a method from outside.
#[derive(Drop)]
pub struct Call {
    /// The class that declares the method.
    pub class: ClassId,
    /// The method's place among those that the class declares; a constructor's where the receiver is `Fresh`.
    pub method: u32,
    /// What it is called on.
    pub receiver: Receiver,
    /// The arguments, as many as the method has parameters.
    pub args: Slots,
}

/// What the first body's value is for the caller.
#[derive(Clone, Copy)]
pub enum Reply {
    /// The value, or none where the method's result is of that type and it is `void`.
    Result(Ty),
    /// The object that was made, whatever its constructor's body comes to.
    Built(ObjId),
}

/// A body's own receiver and locals.
#[derive(Drop)]
pub struct Env {
    pub this: Value,
    pub locals: Slots,
}

/// What becomes of the string that a concatenation makes.
#[derive(Drop)]
pub enum Sum {
    /// It is the value.
    Given,
    /// The compound assignment puts it into its place, of which the object, the index and the old value are there.
    Stored {
        node: Rc<Expr>,
        object: Value,
        index: Value,
        old: Value,
    },
}

/// What waits for what the `toString()` of an operand of a string concatenation gives.
#[derive(Drop)]
pub enum Told {
    /// It is that of the left operand: the value of the right one waits.
    Left { right: Value, sum: Sum },
    /// It is that of the right operand: the text of the left one waits.
    Right { front: Units, sum: Sum },
}

/// How the body of a constructor of a class goes on behind the constructor that it begins with.
#[derive(Drop)]
pub struct Rest {
    pub class: ClassId,
    pub body: Rc<Stmt>,
    /// Whether the initializers have been run.
    pub is_initialized: bool,
    /// The place of the statement that comes then.
    pub next: usize,
}

/// The classes that a load is still to start: so many, from a number on.
#[derive(Clone, Copy)]
pub struct ClassesLeft {
    pub next: u32,
    pub count: u32,
    ghost numbered: { next + count < 4294967296 },
}

/// What comes behind the start of classes.
#[derive(Drop)]
pub enum Then {
    /// The node that started them goes on, behind its unit.
    Node(Rc<Expr>),
    /// A load goes on, with those classes to start.
    Classes(ClassesLeft),
}

/// How the start of classes goes on behind an initializer of a class itself.
#[derive(Drop)]
pub struct Start {
    pub class: ClassId,
    /// The place from which on its other initializers run.
    pub at: usize,
    /// The class whose initializers are the innermost behind them.
    pub outer: Option<ClassId>,
    /// The classes whose initializers run then.
    pub classes: Path,
    pub then: Then,
}

/// What waits for a part of a node.
#[derive(Drop)]
pub enum Frame {
    /// A field's object is being evaluated.
    ReadField {
        class: ClassId,
        field: u32,
    },
    /// The value of an assignment to a local is being evaluated.
    SetLocal {
        local: u32,
    },
    /// The object of an assignment to a field is being evaluated.
    SetObject {
        class: ClassId,
        field: u32,
        value: Rc<Expr>,
    },
    /// The value of an assignment to a field is being evaluated.
    SetField {
        class: ClassId,
        field: u32,
        object: Value,
    },
    /// What stands before a class variable is being evaluated.
    ReadStatic {
        class: ClassId,
        field: u32,
    },
    /// What stands before a class variable that is assigned to is being evaluated.
    SetBefore {
        class: ClassId,
        field: u32,
        value: Rc<Expr>,
    },
    /// The value of an assignment to a class variable is being evaluated.
    SetStatic {
        class: ClassId,
        field: u32,
    },
    /// The array of an element is being evaluated.
    ReadArray {
        index: Rc<Expr>,
    },
    /// The index of an element is being evaluated.
    ReadElement {
        array: Value,
    },
    /// The array whose length is asked is being evaluated.
    Length,
    /// The array of an assignment to an element is being evaluated.
    SetArray {
        index: Rc<Expr>,
        value: Rc<Expr>,
    },
    /// The index of an assignment to an element is being evaluated.
    SetIndex {
        array: Value,
        value: Rc<Expr>,
    },
    /// The value of an assignment to an element is being evaluated.
    SetElement {
        array: Value,
        index: Value,
    },
    /// The object, or the array, of a place that a compound assignment changes, or what stands before a class variable,
    /// is being evaluated.
    UpdateObject {
        node: Rc<Expr>,
    },
    /// The index of an element that a compound assignment changes is being evaluated.
    UpdateIndex {
        node: Rc<Expr>,
        object: Value,
    },
    /// The operand of a compound assignment is being evaluated.
    Update {
        node: Rc<Expr>,
        object: Value,
        index: Value,
        old: Value,
    },
    /// The one operand is being evaluated.
    Operand {
        op: UnOp,
    },
    /// The number that is to be of that type is being evaluated.
    Converted {
        ty: Ty,
    },
    /// The reference that is to be of that type is being evaluated.
    Cast {
        ty: Ty,
    },
    /// The reference that is asked about is being evaluated.
    InstanceOf {
        of: Ty,
    },
    /// The left operand of `&&` is being evaluated.
    And {
        right: Rc<Expr>,
    },
    /// The left operand of `||` is being evaluated.
    Or {
        right: Rc<Expr>,
    },
    /// The condition of `condition ? yes : no` is being evaluated.
    Choose {
        yes: Rc<Expr>,
        no: Rc<Expr>,
    },
    /// The condition of a statement is being evaluated.
    Test {
        node: Rc<Stmt>,
    },
    /// The body of a loop runs. The node is the loop, or, after a `continue` to a label, the statement of that label.
    Body {
        node: Rc<Stmt>,
    },
    /// The step before `next` of a loop is being evaluated.
    Steps {
        node: Rc<Stmt>,
        next: usize,
    },
    /// The statement behind a label runs.
    Labelled {
        label: NameId,
        node: Rc<Stmt>,
    },
    /// The selector of a `switch` is being evaluated.
    Switch {
        node: Rc<Stmt>,
    },
    /// The statement before `next` of a group of a `switch` runs.
    Cases {
        node: Rc<Stmt>,
        group: usize,
        next: usize,
    },
    /// The body of a `try` runs.
    Try {
        node: Rc<Stmt>,
    },
    /// A catch of a `try` runs, which has a `finally`.
    Finally {
        node: Rc<Stmt>,
    },
    /// The block behind `finally` runs: how it goes on after its end.
    Finishing {
        end: End,
    },
    /// The value is thrown.
    Thrown,
    /// The left operand is being evaluated.
    Left {
        op: BinOp,
        right: Rc<Expr>,
    },
    /// The right operand is being evaluated.
    Right {
        op: BinOp,
        left: Value,
    },
    /// A call's receiver is being evaluated.
    Receiver {
        call: Rc<Expr>,
    },
    /// The argument before `next` is being evaluated.
    Args {
        call: Rc<Expr>,
        this: Value,
        next: usize,
        done: Slots,
    },
    /// A body runs: what its caller had, the value where the body ends without a return, and the object that a
    /// constructor builds.
    Called {
        caller: Env,
        result: Value,
        built: Option<Value>,
    },
    /// The argument before `next` of a constructor call is being evaluated, with which the body of a constructor of that
    /// class begins.
    ConstructorArgs {
        class: ClassId,
        body: Rc<Stmt>,
        call: Rc<Expr>,
        next: usize,
        done: Slots,
    },
    /// The constructor runs that the body of another one begins with: what that one had, and how it goes on.
    Constructor {
        caller: Env,
        rest: Rest,
    },
    /// An initializer before place `at` runs: what its constructor had, and the place of the statement with which that
    /// one's body then goes on.
    Initializer {
        caller: Env,
        class: ClassId,
        at: usize,
        body: Rc<Stmt>,
        next: usize,
    },
    /// An initializer of a class itself runs: what was there before, and how the start goes on.
    Starting {
        caller: Env,
        start: Start,
    },
    /// The statement before `next` of a block runs.
    Parts {
        block: Rc<Stmt>,
        next: usize,
    },
    /// The value is dropped.
    Ignored,
    /// The value is returned.
    Returned,
    /// The left operand of a string concatenation is being evaluated.
    ConcatLeft {
        right: Rc<Expr>,
    },
    /// The right operand of a string concatenation is being evaluated.
    ConcatRight {
        left: Value,
    },
    /// The body of an operand's `toString()` runs: what its caller had, the value where the body ends without a
    /// return, and what waits for what it gives.
    Telling {
        caller: Env,
        result: Value,
        told: Told,
    },
}

/// What the reading of a place comes to.
#[derive(Drop)]
pub enum Fetched {
    Value(Value),
    /// The object of the place is null.
    Null,
    /// The array of the place has no element of its index.
    Outside,
    Wrong,
}

/// What the making of an instance comes to.
#[derive(Drop)]
pub enum Made {
    Object(ObjId),
    Spent,
    Wrong,
}

/// What a machine's moves read and change beside the heap.
#[derive(Drop)]
pub struct Context {
    pub alloc: Global,
    pub frames: Stack,
    pub env: Env,
    /// The units left.
    pub units: u64,
    /// How many nodes have begun.
    pub begun: u64,
    ghost counted: { units + begun ≤ 100000000 },
}
