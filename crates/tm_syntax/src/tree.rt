//! The syntax tree of a specification. Every node that a fault may be reported at keeps its place.

use tm_base::{Name, Place, ShiftOperator};

/// A name as it stands in the text.
#[derive(Drop)]
pub struct Ident {
    pub text: Name,
    pub place: Place,
}

/// A number as it stands in the text: `None` where it is 2^64 or more.
#[derive(Clone, Copy, Debug)]
pub struct Num {
    pub value: Option<u64>,
    pub place: Place,
}

/// A whole specification.
#[derive(Drop)]
pub struct Spec {
    pub enums: Vec<EnumDef>,
    pub templates: Vec<Template>,
}

/// `typedef enum { .. } name;`
#[derive(Drop)]
pub struct EnumDef {
    pub name: Ident,
    pub constants: Vec<Ident>,
}

/// `template name(..) .. endtemplate`, its members sorted by kind, each kind in text order.
#[derive(Drop)]
pub struct Template {
    pub name: Ident,
    pub ports: Vec<Port>,
    pub instances: Vec<InstanceDef>,
    pub vars: Vec<VarDef>,
    pub goals: Vec<Named>,
    pub fairs: Vec<Named>,
    pub processes: Vec<ProcessDef>,
    pub tasks: Vec<TaskDef>,
}

/// A port: an instance of `template` that the enclosing instance hands in.
#[derive(Drop)]
pub struct Port {
    pub template: Ident,
    pub name: Ident,
}

/// `instance template name(args);`
#[derive(Drop)]
pub struct InstanceDef {
    pub template: Ident,
    pub name: Ident,
    pub args: Vec<Ident>,
}

/// A template variable, or an array of `length` of them, with its initial literal.
#[derive(Drop)]
pub struct VarDef {
    pub ty: TypeName,
    pub name: Ident,
    pub length: Option<Num>,
    pub init: Option<Expr>,
}

/// A goal or a fairness condition.
#[derive(Drop)]
pub struct Named {
    pub name: Ident,
    pub expr: Expr,
}

/// `process name { .. }`, which owes no fairness where it is `lazy`.
#[derive(Drop)]
pub struct ProcessDef {
    pub lazy: bool,
    pub name: Ident,
    pub body: Body,
}

/// A task or a procedure.
#[derive(Drop)]
pub struct TaskDef {
    pub kind: TaskKind,
    pub name: Ident,
    pub params: Vec<Param>,
    pub body: Body,
}

/// The sort of a task: a procedure has a result's type, or none where it is `void`.
#[derive(Drop)]
pub enum TaskKind {
    Controllable,
    Uncontrollable,
    Procedure(Option<TypeName>),
}

/// A parameter of a task.
#[derive(Drop)]
pub struct Param {
    pub ty: TypeName,
    pub name: Ident,
}

/// A body: its locals, its statements, and the expression that a procedure returns.
#[derive(Drop)]
pub struct Body {
    pub locals: Vec<LocalDef>,
    pub stmts: Vec<Stmt>,
    pub answer: Option<Expr>,
}

/// The declaration of a local, with the value that it assigns.
#[derive(Drop)]
pub struct LocalDef {
    pub ty: TypeName,
    pub name: Ident,
    pub value: Value,
}

/// A type as it stands in the text.
#[derive(Drop)]
pub enum TypeName {
    Bool(Place),
    Uint(Place, Num),
    Enum(Ident),
}

/// Names that lead through instances and ports to an item: at least one.
#[derive(Drop)]
pub struct Path {
    pub names: Vec<Ident>,
}

/// What is assigned: any value of the type, a procedure's result, or an expression's value.
#[derive(Drop)]
pub enum Value {
    Star(Place),
    Call(Path, Vec<Expr>),
    Plain(Expr),
}

/// A statement. An assignment keeps the index of its target, if it has one.
#[derive(Drop)]
pub enum Stmt {
    Assign(Path, Option<Expr>, Value),
    Call(Path, Vec<Expr>),
    If(Expr, Vec<Stmt>, Vec<Stmt>),
    While(Place, Expr, Vec<Stmt>),
    Forever(Place, Vec<Stmt>),
    Choice(Place, Vec<Vec<Stmt>>),
    Assert(Place, Expr),
    Assume(Place, Expr),
    Pause(Place),
    Wait(Place, Expr),
    Magic(Place),
}

/// The prefix operators.
#[derive(Clone, Copy, Debug, PartialEq, Eq)]
pub enum UnaryOperator {
    Complement,
    Not,
}

/// The operators between two expressions.
#[derive(Clone, Copy, Debug, PartialEq, Eq)]
pub enum BinaryOperator {
    Equal,
    NotEqual,
    Less,
    LessEqual,
    Greater,
    GreaterEqual,
    Add,
    Subtract,
    And,
    AndAlso,
    Or,
    OrElse,
    Xor,
}

/// An expression. The place of an operator is its sign's, of a cast or a parenthesis its first token's.
#[derive(Drop)]
pub enum Expr {
    Truth(Place, bool),
    Number(Num),
    Path(Path),
    Group(Place, Box<Expr>),
    Unary(Place, UnaryOperator, Box<Expr>),
    Binary(Place, BinaryOperator, Box<Expr>, Box<Expr>),
    Shift(Place, ShiftOperator, Box<Expr>, Num),
    Conditional(Place, Box<Expr>, Box<Expr>, Box<Expr>),
    Cast(Place, Num, Box<Expr>),
    Element(Path, Box<Expr>),
}
