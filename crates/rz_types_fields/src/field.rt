//! The fields of type declarations, their types, and which take a value. See `specs/Field`.

ghost use Rattle.std.specs.Prelude.{◌≡◌};
ghost use Rattle.rz_types_fields.specs.Field.{plain_field, takes_value};

use crate::{CaseHints, Symbols, Texts};
use rz_core::{Listing, Word};
use rz_expr::Expr;

/// The type of a number. (MPW Rez.)
#[derive(Clone, Copy, PartialEq, Eq)]
pub enum NumForm {
    /// `bitstring`, of as many bits as its width says.
    Bits,
    /// `byte`, of 8 bits.
    Byte,
    /// `integer`, of 16 bits.
    Integer,
    /// `longint`, of 32 bits.
    Longint,
    /// `boolean`, of one bit.
    Boolean,
    /// `char`, of 8 bits.
    Char,
}

/// How a number is shown. (MPW Rez.)
#[derive(Clone, Copy, PartialEq, Eq)]
pub enum Radix {
    /// As its type is shown where nothing is said.
    Plain,
    /// `hex`
    Hex,
    /// `decimal`
    Decimal,
    /// `octal`
    Octal,
    /// `binary`
    Binary,
    /// `literal`
    Literal,
}

/// The type of a text. (MPW Rez.)
#[derive(Clone, Copy, PartialEq, Eq)]
pub enum TextForm {
    /// `string`, the bytes alone.
    Open,
    /// `pstring`, after a byte with its length.
    Pascal,
    /// `wstring`, after 16 bits with its length.
    WordLong,
    /// `cstring`, with a zero byte after it.
    Zero,
}

/// A name for a value of a number.
#[derive(Drop)]
pub struct Symbol {
    /// The name.
    pub name: Word,
    /// The value.
    pub value: i32,
}

/// A list of expressions.
pub type Exprs = Listing<Expr>;

/// A number. (MPW Rez.)
#[derive(Drop)]
pub struct NumField {
    /// The type.
    pub form: NumForm,
    /// How many bits: of a `bitstring` as written, of every other type its own.
    pub width: i32,
    /// Whether `unsigned` stands before it.
    pub unsigned: bool,
    /// How it is shown.
    pub radix: Radix,
    /// Whether it is the key of a case.
    pub key: bool,
    /// Names for its values.
    pub symbols: Symbols,
    /// The fixed value, where there is one.
    pub fixed: Option<Expr>,
}

/// A text. (MPW Rez.)
#[derive(Drop)]
pub struct TextField {
    /// The type.
    pub form: TextForm,
    /// Whether it is shown in hexadecimal.
    pub hex: bool,
    /// The size in brackets, where there is one.
    pub size: Option<Expr>,
    /// The fixed text, where there is one.
    pub fixed: Option<Texts>,
}

/// A point of two numbers, or a rectangle of four. (MPW Rez.)
#[derive(Drop)]
pub struct PointField {
    /// Whether it is a rectangle.
    pub rect: bool,
    /// The fixed numbers, where there are some: two of a point, four of a rectangle.
    pub fixed: Option<Exprs>,
}

/// An array: rows of fields, each row with values of its own. (MPW Rez.)
#[derive(Drop)]
#[cycle(field)]
pub struct ArrayField {
    /// The name, where it has one.
    pub name: Option<Word>,
    /// How many rows it has, where that is stated.
    pub count: Option<i32>,
    /// The fields of a row.
    pub row: Body,
}

/// A case of a switch: a name, and the fields that stand there where it is chosen. (MPW Rez.)
#[derive(Drop)]
#[cycle(field)]
pub struct Case {
    /// The name.
    pub name: Word,
    /// The fields.
    pub row: Body,
}

/// The cases of a switch, in order.
pub type Cases = Listing<Case>;

/// A field of a type declaration. (MPW Rez.)
#[derive(Drop)]
#[cycle(field)]
pub enum Field {
    /// A number.
    Num(NumField),
    /// A text.
    Text(TextField),
    /// A point or a rectangle.
    Points(PointField),
    /// `fill`: zeros, of a unit in bits and as many units as the count says.
    Fill(u8, i32),
    /// `align`: zeros to the next multiple of a unit in bits.
    Align(u8),
    /// A label: a name for the place where it stands, in bits from the start of the resource.
    Label(Word),
    /// `array`
    Array(ArrayField),
    /// `switch`, with hints where its cases stand.
    Switch(Cases, Box<CaseHints>),
}

/// The fields of a type declaration, in order.
pub type Body = Listing<Field>;

/// Whether a row has a value of the field: the declaration gives none. (MPW Rez.)
pub fn takes_value(field: &Field) -> bool
    ensures { result ≡ takes_value (plain_field field.now) }
{
    match field {
        Field::Num(number) => number.fixed.is_none(),
        Field::Text(text) => text.fixed.is_none(),
        Field::Points(points) => points.fixed.is_none(),
        Field::Fill(..) | Field::Align(_) | Field::Label(_) => false,
        Field::Array(_) | Field::Switch(..) => true,
    }
}
