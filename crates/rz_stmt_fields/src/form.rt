//! A `type` statement as it is written, as the code holds it; changes with `specs/Form`.

use rz_core::{Listing, OsType, Word};
use rz_expr::Expr;
use rz_types_fields::{NumForm, PointField, Radix, TextField};

/// A `type` statement as it is written, with expressions where constants stand. (MPW Rez.)
#[derive(Drop)]
pub struct DeclareExpr {
    /// The type that is declared.
    pub kind: OsType,
    /// For which ids.
    pub scope: ScopeExpr,
    /// What it is.
    pub made: MadeExpr,
}

/// For which ids a declaration is, as it is written. (MPW Rez.)
#[derive(Drop)]
pub enum ScopeExpr {
    /// For any id.
    Any,
    /// For this id.
    One(Expr),
    /// For the ids from the first to the last.
    Two(Expr, Expr),
}

/// What a declaration makes a type, as it is written. (MPW Rez.)
#[derive(Drop)]
pub enum MadeExpr {
    /// These fields.
    Fields(FieldExprs),
    /// What another type is, for this id or any.
    Copy(OsType, Option<Expr>),
}

/// A field as it is written. What few fields have stands after a `Box`, so that millions of plain ones take little
/// memory. (MPW Rez.)
#[derive(Drop)]
#[cycle(form)]
pub enum FieldExpr {
    /// A number.
    Number(NumberExpr),
    /// A text.
    Text(Box<TextField>),
    /// A point or a rectangle.
    Points(PointField),
    /// `fill`: a unit in bits, and how many of it where that is written.
    Fill(u8, Option<Expr>),
    /// `align`: a unit in bits.
    Align(u8),
    /// A label: its name.
    Label(Word),
    /// `array`
    Array(Box<ArrayExpr>),
    /// `switch`
    Switch(CaseExprs),
}

/// Fields as they are written, in order.
pub type FieldExprs = Listing<FieldExpr>;

/// An array as it is written. (MPW Rez.)
#[derive(Drop)]
#[cycle(form)]
pub struct ArrayExpr {
    /// The name, where it has one.
    pub name: Option<Word>,
    /// How many rows it has, where that is written.
    pub count: Option<Expr>,
    /// The fields of a row.
    pub row: FieldExprs,
}

/// A case of a switch as it is written: a name, and its fields. (MPW Rez.)
#[derive(Drop)]
#[cycle(form)]
pub struct CaseExpr {
    /// The name.
    pub name: Word,
    /// The fields.
    pub row: FieldExprs,
}

/// The cases of a switch as they are written, in order.
pub type CaseExprs = Listing<CaseExpr>;

/// A number as it is written. (MPW Rez.)
#[derive(Drop)]
pub struct NumberExpr {
    /// The type.
    pub form: NumForm,
    /// Whether `unsigned` stands before it.
    pub unsigned: bool,
    /// How it is shown.
    pub radix: Radix,
    /// Whether it is the key of a case.
    pub key: bool,
    /// How many bits.
    pub width: Width,
    /// Names for its values.
    pub symbols: Names,
    /// The fixed value, where there is one.
    pub fixed: Option<Box<Expr>>,
}

/// How many bits a number has. (MPW Rez.)
#[derive(Drop)]
pub enum Width {
    /// As many as its type has.
    Own(i32),
    /// As many as is written, of a `bitstring`.
    Written(Box<Expr>),
}

/// A symbol as it is written: a name, and its value where it has one. (MPW Rez.)
#[derive(Drop)]
pub struct Named {
    /// The name.
    pub name: Word,
    /// The value.
    pub value: Option<Expr>,
}

/// Symbols as they are written, in order.
pub type Names = Listing<Named>;
