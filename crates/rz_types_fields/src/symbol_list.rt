//! The symbols of a number, found by their names and by the numbers that they give. See `specs/Symbols`.

ghost use Rattle.std.specs.Prelude.{◌≡◌, ◌≤◌, ℕ, List, [], ◌∷◌, ◌++◌, ◌&&◌, not, cond, bytes_eq, length, nat_abs, nat_eq, slice_get, Some, None, IfOk, IsTrue, OnOk, option_and_then, option_map, ◌↔◌};
ghost use Rattle.std.specs.HashMap.{get, get_by};
ghost use Rattle.std.specs.Option.{is_some};
ghost use Rattle.std.specs.Ordering.{int_eq};
ghost use Rattle.std.specs.Str.{str_to_ascii_lowercase};
ghost use Rattle.rz_core.specs.Lists.{or_else};
ghost use Rattle.rz_expr.specs.Value.{reduced};
ghost use Rattle.rz_types_fields.specs.Stored.{stored_number};
ghost use Rattle.rz_types_fields.specs.Symbols.{is_stored, symbol_for, IsIndexOf};
ghost use Rattle.rz_types_fields.specs.Value.{symbol_value};
ghost use Rattle.rz_types_fields.specs.declared.field.Symbol.{Symbol as one_symbol};

use crate::lower::{SHORT, lower_name, lower_short};
use crate::value::symbol_value;
use crate::{Symbol, stored_number};
use rz_core::{Listing, NoMemory, Word};
use std::alloc::Global;
use std::collections::HashMap;
use std::marker::Model;

/// The symbols of a number, in order. Contracts see the list of them. A symbol is found by its name, and by a number of
/// the width that the symbols were made for, in constant time on average.
#[derive(Drop)]
pub struct Symbols {
    list: Listing<Symbol>,
    index: Option<Box<SymbolIndex>>,
}

impl Model for Symbols {
    ghost use Rattle.std.specs.Prelude.{List, IfSome};
    ghost use Rattle.rz_types_fields.specs.declared.field.Symbol.{Symbol};
    ghost use Rattle.rz_types_fields.specs.Symbols.{IsIndexOf};

    ghost Value = { List Symbol };

    ghost view = { λ symbols. symbols.list };

    ghost invariant = { λ symbols. IfSome symbols.index (λ index. IsIndexOf symbols.list index.value) };
}

/// The position of the first symbol of each name, by the name in lower case.
type Firsts = HashMap<Vec<u8>, usize>;

/// The position of the first symbol that gives a number, by the number.
type Places = HashMap<u32, usize>;

/// Where symbols stand.
#[derive(Drop)]
pub struct SymbolIndex {
    /// By their names.
    pub firsts: Firsts,
    /// The width in bits that numbers are stored with.
    pub width: i32,
    /// By the numbers that they give where they are looked up by their names.
    pub places: Places,
}

/// The number that the value of a symbol is stored as, with the width of the index.
fn own_number(index: &SymbolIndex, symbol: &Symbol) -> u32
    ensures { result ≡ stored_number (nat_abs index.now.width) (reduced symbol.now.value) }
{
    stored_number(index.width, symbol.value)
}

/// Notes the position of a symbol of this name in lower case after others, unless one of them has the name. It answers
/// whether none has.
fn note_name(firsts: &mut Firsts, name: Vec<u8>, position: usize) -> Result<bool, NoMemory>
    ensures new { IfOk result (λ new. new ≡ not (is_some (get_by (λ key. bytes_eq name.items key.items) firsts.old))) }
    ensures put { IfOk result (λ new. (low : List ℕ) → get_by (λ key. bytes_eq low key.items) firsts.new
        ≡ cond (new && bytes_eq name.items low) (Some position) (get_by (λ key. bytes_eq low key.items) firsts.old)) }
{
    if firsts.contains_key(&name) {
        return Ok(false);
    }
    firsts.insert(name, position)?;
    Ok(true)
}

/// Notes the position of a symbol that gives this number after others, unless one of them gives it.
fn note_number(places: &mut Places, number: u32, position: usize) -> Result<(), NoMemory>
    ensures { OnOk result ((other : ℕ) → get nat_eq places.new other ≡ or_else (get nat_eq places.old other) (cond (nat_eq number other) (Some position) None)) }
{
    if !places.contains_key(&number) {
        places.insert(number, position)?;
    }
    Ok(())
}

/// Notes a symbol that stands at this position, after the others.
fn note(
    alloc: Global,
    index: &mut SymbolIndex,
    symbol: &Symbol,
    position: usize,
) -> Result<(), NoMemory>
    ensures { OnOk result ((before : List one_symbol) → length before ≡ position → IsIndexOf before index.old → IsIndexOf (before ++ symbol.now ∷ []) index.new) }
{
    let name = lower_name(alloc, &symbol.name)?;
    let is_new = note_name(&mut index.firsts, name, position)?;
    if !is_new {
        return Ok(());
    }
    let number = own_number(index, symbol);
    note_number(&mut index.places, number, position)?;
    Ok(())
}

/// Where these symbols stand.
fn index_of(alloc: Global, width: i32, symbols: &[Symbol]) -> Result<SymbolIndex, NoMemory>
    ensures { IfOk result (IsIndexOf symbols.now) }
{
    let mut index = SymbolIndex {
        firsts: HashMap::new(alloc),
        width,
        places: HashMap::new(alloc),
    };
    for position in 0..symbols.len() {
        note(alloc, &mut index, &symbols[position], position)?;
    }
    Ok(index)
}

/// The value of the symbol at a position.
fn value_at(symbols: &[Symbol], position: Option<usize>) -> Option<i32>
    ensures { result ≡ option_map (λ symbol. symbol.value) (option_and_then (slice_get symbols.now) position) }
{
    match position {
        Some(position) => match symbols.get(position) {
            Some(symbol) => Some(symbol.value),
            None => None,
        },
        None => None,
    }
}

/// The name of the symbol at a position.
fn name_at<'a>(symbols: &'a [Symbol], position: Option<usize>) -> Option<&'a Word>
    ensures { option_map (λ name. name.now) result ≡ option_map (λ symbol. symbol.name) (option_and_then (slice_get symbols.now) position) }
{
    match position {
        Some(position) => match symbols.get(position) {
            Some(symbol) => Some(&symbol.name),
            None => None,
        },
        None => None,
    }
}

/// The position that is noted for a short name.
fn place_of_name(firsts: &Firsts, name: &[u8]) -> Option<usize>
    requires { length name.now ≤ 255 }
    ensures { result ≡ get_by (λ key. bytes_eq (str_to_ascii_lowercase name.now) key.items) firsts.now }
{
    let mut front = [0; SHORT];
    firsts.get(lower_short(&mut front, name)).copied()
}

/// The position that is noted for a number.
fn place_of_number(places: &Places, number: u32) -> Option<usize>
    ensures { result ≡ get nat_eq places.now number }
{
    places.get(&number).copied()
}

/// The value of the first symbol of a short name, in whatever case.
fn short_value(symbols: &[Symbol], index: &SymbolIndex, name: &[u8]) -> Option<i32>
    requires short { length name.now ≤ 255 }
    requires index { IsIndexOf symbols.now index.now }
    ensures { result ≡ symbol_value symbols.now name.now }
{
    value_at(symbols, place_of_name(&index.firsts, name))
}

/// The name of the first symbol that, looked up by its name, gives a number of the width of the index.
fn name_in<'a>(symbols: &'a [Symbol], index: &SymbolIndex, number: u32) -> Option<&'a Word>
    requires { IsIndexOf symbols.now index.now }
    ensures { option_map (λ name. name.now) result ≡ symbol_for symbols.now (nat_abs index.now.width) number symbols.now }
{
    name_at(symbols, place_of_number(&index.places, number))
}

/// The name of the first of the symbols that, looked up by its name, gives a number. Only symbols whose own value is
/// stored so are looked up.
fn name_among<'a>(symbols: &'a [Symbol], width: i32, number: u32) -> Option<&'a Word>
    ensures { option_map (λ name. name.now) result ≡ symbol_for symbols.now (nat_abs width) number symbols.now }
{
    for symbol in symbols {
        if gives(width, symbol, number) {
            let value = symbol_value(symbols, &symbol.name);
            if is_stored(width, number, value) {
                return Some(&symbol.name);
            }
        }
    }
    None
}

/// Whether an index is for numbers of a width.
fn is_for(index: &SymbolIndex, width: i32) -> bool
    ensures { result ≡ int_eq index.now.width width }
{
    index.width == width
}

/// Whether the own value of a symbol is stored as a number.
fn gives(width: i32, symbol: &Symbol, number: u32) -> bool
    ensures { result ≡ is_stored (nat_abs width) number (Some symbol.now.value) }
{
    is_stored(width, number, Some(symbol.value))
}

/// Whether a value of a symbol is stored as a number.
fn is_stored(width: i32, number: u32, value: Option<i32>) -> bool
    ensures { result ≡ is_stored (nat_abs width) number value }
{
    match value {
        Some(value) => stored_number(width, value) == number,
        None => false,
    }
}

impl Symbols {
    /// No symbols. It takes no memory.
    pub fn new(alloc: Global) -> Symbols
        ensures { result ≡ [] }
    {
        Symbols {
            list: Listing::new(alloc),
            index: None,
        }
    }

    /// These symbols, which are looked up by numbers of this width in bits. `NoMemory` is the only refusal.
    pub fn of(alloc: Global, width: i32, list: Listing<Symbol>) -> Result<Symbols, NoMemory>
        ensures { IfOk result (λ symbols. symbols ≡ list) }
    {
        if list.is_empty() {
            return Ok(Symbols { list, index: None });
        }
        let index = index_of(alloc, width, list.as_slice())?;
        let index = Box::new(alloc, index)?;
        Ok(Symbols {
            list,
            index: Some(index),
        })
    }

    /// Whether there are no symbols.
    pub fn is_empty(&self) -> bool
        ensures { IsTrue result ↔ (self.now ≡ []) }
    {
        self.list.is_empty()
    }

    /// The symbols, lent.
    pub fn as_slice(&self) -> &[Symbol]
        ensures { result.now ≡ self.now }
    {
        self.list.as_slice()
    }

    /// The value of the first symbol of a name, in whatever case; `None` where no symbol has the name. Its time is
    /// constant on average, and for a name of more than 255 bytes in proportion to the symbols.
    pub fn value_of(&self, name: &Word) -> Option<i32>
        ensures { result ≡ symbol_value self.now name.now.bytes }
    {
        let symbols = self.list.as_slice();
        if let Some(index) = &self.index {
            let bytes = name.bytes.as_slice();
            if bytes.len() <= SHORT {
                return short_value(symbols, index, bytes);
            }
        }
        symbol_value(symbols, name)
    }

    /// The name of the first symbol that, looked up by its name, gives a number of this width in bits; `None` where no
    /// symbol does. Its time is constant on average for the width that the symbols were made for, and for another grows
    /// with the square of the symbols.
    pub fn name_for(&self, width: i32, number: u32) -> Option<&Word>
        ensures { option_map (λ name. name.now) result ≡ symbol_for self.now (nat_abs width) number self.now }
    {
        let symbols = self.list.as_slice();
        if let Some(index) = &self.index {
            if is_for(index, width) {
                return name_in(symbols, index, number);
            }
        }
        name_among(symbols, width, number)
    }
}
