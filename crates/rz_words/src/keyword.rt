//! The table of reserved words that name nothing; a new word changes `specs/Keyword` too.

ghost use Rattle.std.specs.Prelude.{◌≡◌, Some, None};
ghost use Rattle.std.specs.Str.{str_eq_ignore_ascii_case};
ghost use Rattle.rz_words.specs.Keyword.{keyword_of, spelled_among, spelling};

use rz_core::Word;

/// A reserved word that names nothing. (MPW Rez.)
#[derive(Clone, Copy, Debug, PartialEq, Eq)]
pub enum Keyword {
    /// `type`
    Kind,
    /// `resource`
    Resource,
    /// `data`
    Data,
    /// `include`
    Include,
    /// `read`
    Read,
    /// `change`
    Change,
    /// `delete`
    Delete,
    /// `as`
    As,
    /// `to`
    To,
    /// `not`
    Not,
    /// `array`
    Array,
    /// `wide`
    Wide,
    /// `switch`
    Switch,
    /// `case`
    Case,
    /// `key`
    Key,
    /// `fill`
    Fill,
    /// `align`
    Align,
    /// `bit`
    Bit,
    /// `nibble`
    Nibble,
    /// `byte`
    Byte,
    /// `word`
    Word,
    /// `long`
    Long,
    /// `integer`
    Integer,
    /// `longint`
    Longint,
    /// `bitstring`
    Bitstring,
    /// `boolean`
    Boolean,
    /// `char`
    Char,
    /// `string`
    String,
    /// `pstring`
    Pstring,
    /// `wstring`
    Wstring,
    /// `cstring`
    Cstring,
    /// `point`
    Point,
    /// `rect`
    Rect,
    /// `hex`
    Hex,
    /// `decimal`
    Decimal,
    /// `octal`
    Octal,
    /// `binary`
    Binary,
    /// `literal`
    Literal,
    /// `unsigned`
    Unsigned,
    /// `defined`
    Defined,
    /// `rez`
    Rez,
    /// `derez`
    DeRez,
}

// The keywords by how many letters they have.

const TWO: [Keyword; 2] = [Keyword::As, Keyword::To];

const THREE: [Keyword; 5] = [
    Keyword::Not,
    Keyword::Key,
    Keyword::Bit,
    Keyword::Hex,
    Keyword::Rez,
];

const FOUR: [Keyword; 11] = [
    Keyword::Kind,
    Keyword::Data,
    Keyword::Read,
    Keyword::Wide,
    Keyword::Case,
    Keyword::Fill,
    Keyword::Byte,
    Keyword::Word,
    Keyword::Long,
    Keyword::Char,
    Keyword::Rect,
];

const FIVE: [Keyword; 5] = [
    Keyword::Array,
    Keyword::Align,
    Keyword::Point,
    Keyword::Octal,
    Keyword::DeRez,
];

const SIX: [Keyword; 6] = [
    Keyword::Change,
    Keyword::Delete,
    Keyword::Switch,
    Keyword::Nibble,
    Keyword::String,
    Keyword::Binary,
];

const SEVEN: [Keyword; 10] = [
    Keyword::Include,
    Keyword::Integer,
    Keyword::Longint,
    Keyword::Boolean,
    Keyword::Pstring,
    Keyword::Wstring,
    Keyword::Cstring,
    Keyword::Decimal,
    Keyword::Literal,
    Keyword::Defined,
];

const EIGHT: [Keyword; 2] = [Keyword::Resource, Keyword::Unsigned];

const NINE: [Keyword; 1] = [Keyword::Bitstring];

/// How a keyword is written, in lower case.
pub fn spelling(keyword: Keyword) -> &'static [u8]
    ensures { result.now ≡ spelling keyword }
{
    match keyword {
        Keyword::Kind => b"type",
        Keyword::Resource => b"resource",
        Keyword::Data => b"data",
        Keyword::Include => b"include",
        Keyword::Read => b"read",
        Keyword::Change => b"change",
        Keyword::Delete => b"delete",
        Keyword::As => b"as",
        Keyword::To => b"to",
        Keyword::Not => b"not",
        Keyword::Array => b"array",
        Keyword::Wide => b"wide",
        Keyword::Switch => b"switch",
        Keyword::Case => b"case",
        Keyword::Key => b"key",
        Keyword::Fill => b"fill",
        Keyword::Align => b"align",
        Keyword::Bit => b"bit",
        Keyword::Nibble => b"nibble",
        Keyword::Byte => b"byte",
        Keyword::Word => b"word",
        Keyword::Long => b"long",
        Keyword::Integer => b"integer",
        Keyword::Longint => b"longint",
        Keyword::Bitstring => b"bitstring",
        Keyword::Boolean => b"boolean",
        Keyword::Char => b"char",
        Keyword::String => b"string",
        Keyword::Pstring => b"pstring",
        Keyword::Wstring => b"wstring",
        Keyword::Cstring => b"cstring",
        Keyword::Point => b"point",
        Keyword::Rect => b"rect",
        Keyword::Hex => b"hex",
        Keyword::Decimal => b"decimal",
        Keyword::Octal => b"octal",
        Keyword::Binary => b"binary",
        Keyword::Literal => b"literal",
        Keyword::Unsigned => b"unsigned",
        Keyword::Defined => b"defined",
        Keyword::Rez => b"rez",
        Keyword::DeRez => b"derez",
    }
}

/// The keyword that a word is. Case doesn't matter. (MPW Rez.)
pub fn keyword_of(word: &Word) -> Option<Keyword>
    ensures { result ≡ keyword_of word.now.bytes }
{
    keyword_named(word.bytes.as_slice())
}

/// The keyword with this name. Only keywords of the name's length are compared.
pub fn keyword_named(name: &[u8]) -> Option<Keyword>
    ensures { result ≡ keyword_of name.now }
{
    match name.len() {
        2 => spelled_among(&TWO, name),
        3 => spelled_among(&THREE, name),
        4 => spelled_among(&FOUR, name),
        5 => spelled_among(&FIVE, name),
        6 => spelled_among(&SIX, name),
        7 => spelled_among(&SEVEN, name),
        8 => spelled_among(&EIGHT, name),
        9 => spelled_among(&NINE, name),
        _ => None,
    }
}

/// The first of these keywords that is written so.
fn spelled_among(keywords: &[Keyword], name: &[u8]) -> Option<Keyword>
    ensures { result ≡ spelled_among keywords.now name.now }
{
    for keyword in keywords {
        if is(spelling(*keyword), name) {
            return Some(*keyword);
        }
    }
    None
}

/// Whether a name is this word, in whatever case.
pub fn is(word: &[u8], name: &[u8]) -> bool
    ensures { result ≡ str_eq_ignore_ascii_case name.now word.now }
{
    name.eq_ignore_ascii_case(word)
}
