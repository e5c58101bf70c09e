//! The fields of entries; changed only with `specs/Body`.

ghost use Rattle.std.specs.Prelude.{◌≡◌, pos, IfOk, None, option_map};
ghost use Rattle.rz_expr.specs.Term.{term_of};
ghost use Rattle.rz_tmpl.specs.Body.{bits_of, count_field, field_of, form_of, free, list_name, radix_of, rows_term, text_of};
ghost use Rattle.rz_types_fields.specs.Field.{plain_body, plain_field, Array};

use crate::{CountForm, Plain, Size};
use rz_core::{Bytes, NoMemory, Word, write_decimal};
use rz_expr::{BinaryOp, Expr};
use rz_types::{
    ArrayField, Body, Field, NumField, NumForm, PointField, Radix, Symbols, TextField, TextForm,
};
use std::alloc::Global;

/// The field of an entry that is a field by itself.
pub fn field_of(alloc: Global, plain: Plain) -> Field
    ensures { plain_field result ≡ field_of plain }
{
    match plain {
        Plain::Number(size, hex) => number_field(alloc, form_of(size), size, radix_of(hex)),
        Plain::Character => number_field(alloc, NumForm::Char, Size::Byte, Radix::Plain),
        Plain::TypeName => number_field(alloc, NumForm::Longint, Size::Long, Radix::Literal),
        Plain::Rectangle => Field::Points(PointField {
            rect: true,
            fixed: None,
        }),
        Plain::Zeros(size) => Field::Fill(bits_of(size), 1),
        Plain::Aligned(size) => Field::Align(bits_of(size)),
        Plain::Pascal => text_field(TextForm::Pascal, false),
        Plain::ZeroEnded => text_field(TextForm::Zero, false),
        Plain::Rest => text_field(TextForm::Open, true),
    }
}

fn number_field(alloc: Global, form: NumForm, size: Size, radix: Radix) -> Field
    ensures { plain_field result ≡ free form (pos (bits_of size)) radix }
{
    Field::Num(NumField {
        form,
        width: i32::from(bits_of(size)),
        unsigned: false,
        radix,
        key: false,
        symbols: Symbols::new(alloc),
        fixed: None,
    })
}

fn text_field(form: TextForm, hex: bool) -> Field
    ensures { plain_field result ≡ text_of form hex }
{
    Field::Text(TextField {
        form,
        hex,
        size: None,
        fixed: None,
    })
}

fn form_of(size: Size) -> NumForm
    ensures { result ≡ form_of size }
{
    match size {
        Size::Byte => NumForm::Byte,
        Size::Word => NumForm::Integer,
        Size::Long => NumForm::Longint,
    }
}

fn radix_of(hex: bool) -> Radix
    ensures { result ≡ radix_of hex }
{
    if hex { Radix::Hex } else { Radix::Plain }
}

fn bits_of(size: Size) -> u8
    ensures { result ≡ bits_of size }
{
    match size {
        Size::Byte => 8,
        Size::Word => 16,
        Size::Long => 32,
    }
}

/// The field of a count, for the list of this number.
pub fn count_field(alloc: Global, stored: CountForm, number: u64) -> Result<Field, NoMemory>
    ensures { IfOk result (λ field. plain_field field ≡ count_field stored number) }
{
    Ok(Field::Num(NumField {
        form: NumForm::Integer,
        width: 16,
        unsigned: false,
        radix: Radix::Plain,
        key: false,
        symbols: Symbols::new(alloc),
        fixed: Some(rows_of(alloc, stored, number)?),
    }))
}

/// The number of rows of a list, or that number less one.
fn rows_of(alloc: Global, stored: CountForm, number: u64) -> Result<Expr, NoMemory>
    ensures { IfOk result (λ expr. term_of expr ≡ rows_term stored number) }
{
    let rows = Expr::Count(list_name(alloc, number)?);
    match stored {
        CountForm::Rows => Ok(rows),
        CountForm::LessOne => {
            let rows = Box::new(alloc, rows)?;
            Ok(Expr::Binary(BinaryOp::Minus, rows, Box::new(alloc, Expr::Number(1))?))
        }
    }
}

/// The field of a list with this row, and with this number where it is counted.
pub fn list_field(alloc: Global, number: Option<u64>, row: Body) -> Result<Field, NoMemory>
    ensures { IfOk result (λ field. plain_field field ≡ Array (option_map list_name number) None (plain_body row)) }
{
    let name = name_of(alloc, number)?;
    Ok(Field::Array(ArrayField {
        name,
        count: None,
        row,
    }))
}

fn name_of(alloc: Global, number: Option<u64>) -> Result<Option<Word>, NoMemory>
    ensures { IfOk result (λ name. name ≡ option_map list_name number) }
{
    match number {
        Some(number) => Ok(Some(list_name(alloc, number)?)),
        None => Ok(None),
    }
}

/// The name of the counted list of this number.
fn list_name(alloc: Global, number: u64) -> Result<Word, NoMemory>
    ensures { IfOk result (λ name. name ≡ list_name number) }
{
    let mut bytes = Bytes::new(alloc);
    bytes.push(b'L')?;
    write_decimal(number, &mut bytes)?;
    Ok(Word { bytes })
}
