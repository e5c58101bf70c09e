//! The roles of words: names, facts, functions and reserved words; a new role changes `specs/Words` too.

ghost use Rattle.std.specs.Prelude.{◌≡◌};
ghost use Rattle.rz_words.specs.Words.{fact_role, function_role, is_label, is_name, is_other_name, keyword_role, plain_role, role_of, text_role};

use crate::attribute::attribute_word;
use crate::keyword::{Keyword, is, keyword_named};
use rz_core::Word;

/// A number that is known of the resource that is compiled or shown, and of the moment. (MPW Rez.)
#[derive(Clone, Copy, Debug, PartialEq, Eq)]
pub enum FactWord {
    /// `$$ID`, its id.
    Id,
    /// `$$Type`, its type.
    Kind,
    /// `$$Attributes`, its attributes.
    Attributes,
    /// `$$Year`.
    Year,
    /// `$$Month`, from 1.
    Month,
    /// `$$Day`, from 1.
    Day,
    /// `$$Hour`.
    Hour,
    /// `$$Minute`.
    Minute,
    /// `$$Second`.
    Second,
    /// `$$Weekday`; Sunday is 1.
    Weekday,
}

/// A function with a name in brackets. (MPW Rez.)
#[derive(Clone, Copy, Debug, PartialEq, Eq)]
pub enum Function {
    /// `$$CountOf`: how many rows an array has.
    CountOf,
    /// `$$ArrayIndex`: in which row of an array it stands, from 1.
    ArrayIndex,
    /// `$$BitField`: so many bits, a start and a width after a label.
    BitField,
    /// `$$Byte`, `$$Word`, `$$Long`: 8, 16 or 32 bits at a label.
    Data(u8),
}

/// A function that is a text, or a part of one. (MPW Rez.)
#[derive(Clone, Copy, Debug, PartialEq, Eq)]
pub enum TextWord {
    /// `$$Name`, the name of the resource.
    Name,
    /// `$$Date`.
    Date,
    /// `$$Time`.
    Time,
    /// `$$Version`.
    Version,
    /// `$$Read`, the contents of a file.
    Read,
    /// `$$Resource`, the contents of a resource of a file.
    Resource,
    /// `$$Format`.
    Format,
}

/// What a word may be.
#[derive(Clone, Copy, Debug, PartialEq, Eq)]
pub enum Role {
    /// A name, of a label too: it isn't reserved, and doesn't begin with `$$`.
    Label,
    /// A name, but of no label: a word for an attribute, `true` or `false`.
    OtherName,
    /// A function that is a number by itself.
    Fact(FactWord),
    /// A function with a name in brackets.
    Call(Function),
    /// A function that is a text.
    Text(TextWord),
    /// Any other reserved word.
    Reserved(Keyword),
    /// Any other word that begins with `$$`.
    OtherFunction,
}

impl Role {
    /// Whether it may name a label.
    pub fn is_label(self) -> bool
        ensures { result ≡ is_label self }
    {
        matches!(self, Role::Label)
    }

    /// Whether it may name a symbol, an array or a value.
    pub fn is_name(self) -> bool
        ensures { result ≡ is_name self }
    {
        matches!(self, Role::Label | Role::OtherName)
    }
}

/// What a word may be: a reserved word, the name of a `$$` function, or a name. Case doesn't matter.
/// What is no word, as `1a` or nothing, is told like a name. (MPW Rez.)
pub fn role_of(word: &Word) -> Role
    ensures { result ≡ role_of word.now.bytes }
{
    let name = word.bytes.as_slice();
    match name {
        [] => Role::Label,
        [b'$', b'$', function @ ..] => function_role(function),
        _ => plain_role(name),
    }
}

fn plain_role(name: &[u8]) -> Role
    ensures { result ≡ plain_role name.now }
{
    if is_other_name(name) {
        Role::OtherName
    } else {
        keyword_role(keyword_named(name))
    }
}

fn keyword_role(keyword: Option<Keyword>) -> Role
    ensures { result ≡ keyword_role keyword }
{
    match keyword {
        Some(keyword) => Role::Reserved(keyword),
        None => Role::Label,
    }
}

fn function_role(name: &[u8]) -> Role
    ensures { result ≡ function_role name.now }
{
    if is(b"CountOf", name) {
        Role::Call(Function::CountOf)
    } else if is(b"ArrayIndex", name) {
        Role::Call(Function::ArrayIndex)
    } else if is(b"BitField", name) {
        Role::Call(Function::BitField)
    } else if is(b"Byte", name) {
        Role::Call(Function::Data(8))
    } else if is(b"Word", name) {
        Role::Call(Function::Data(16))
    } else if is(b"Long", name) {
        Role::Call(Function::Data(32))
    } else {
        fact_role(name)
    }
}

fn fact_role(name: &[u8]) -> Role
    ensures { result ≡ fact_role name.now }
{
    if is(b"ID", name) {
        Role::Fact(FactWord::Id)
    } else if is(b"Type", name) {
        Role::Fact(FactWord::Kind)
    } else if is(b"Attributes", name) {
        Role::Fact(FactWord::Attributes)
    } else if is(b"Year", name) {
        Role::Fact(FactWord::Year)
    } else if is(b"Month", name) {
        Role::Fact(FactWord::Month)
    } else if is(b"Day", name) {
        Role::Fact(FactWord::Day)
    } else if is(b"Hour", name) {
        Role::Fact(FactWord::Hour)
    } else if is(b"Minute", name) {
        Role::Fact(FactWord::Minute)
    } else if is(b"Second", name) {
        Role::Fact(FactWord::Second)
    } else if is(b"Weekday", name) {
        Role::Fact(FactWord::Weekday)
    } else {
        text_role(name)
    }
}

fn text_role(name: &[u8]) -> Role
    ensures { result ≡ text_role name.now }
{
    if is(b"Name", name) {
        Role::Text(TextWord::Name)
    } else if is(b"Date", name) {
        Role::Text(TextWord::Date)
    } else if is(b"Time", name) {
        Role::Text(TextWord::Time)
    } else if is(b"Version", name) {
        Role::Text(TextWord::Version)
    } else if is(b"Read", name) {
        Role::Text(TextWord::Read)
    } else if is(b"Resource", name) {
        Role::Text(TextWord::Resource)
    } else if is(b"Format", name) {
        Role::Text(TextWord::Format)
    } else {
        Role::OtherFunction
    }
}

fn is_other_name(name: &[u8]) -> bool
    ensures { result ≡ is_other_name name.now }
{
    attribute_word(name).is_some() || is(b"true", name) || is(b"false", name)
}
