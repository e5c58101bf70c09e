//! Entries of templates, and their codes; changed only with `specs/Entry`.

ghost use Rattle.std.specs.Prelude.{◌≡◌};
ghost use Rattle.std.specs.Str.{bytes_eq};
ghost use Rattle.rz_tmpl.specs.Entry.{entry_of, list_entry, space_entry, takes, text_entry};
ghost use Rattle.rz_tmpl.specs.Items.{may_start, waits_behind};

/// How many bytes a number or zeros have.
#[derive(Clone, Copy, Debug, PartialEq, Eq)]
pub enum Size {
    /// 1 byte.
    Byte,
    /// 2 bytes.
    Word,
    /// 4 bytes.
    Long,
}

/// An entry that is a field by itself. (ResEdit Reference, 'TMPL' resources.)
#[derive(Clone, Copy, Debug, PartialEq, Eq)]
pub enum Plain {
    /// `DBYT`, `DWRD`, `DLNG`, a number; `HBYT`, `HWRD`, `HLNG`, which are `true`, one that is shown in hexadecimal.
    Number(Size, bool),
    /// `CHAR`, a byte that is a character.
    Character,
    /// `TNAM`, the name of a type, of 4 bytes.
    TypeName,
    /// `RECT`, four numbers of 2 bytes.
    Rectangle,
    /// `FBYT`, `FWRD`, `FLNG`, zero bytes.
    Zeros(Size),
    /// `AWRD`, `ALNG`, zero bytes to the next multiple of so many.
    Aligned(Size),
    /// `PSTR`, a text after a byte with its length.
    Pascal,
    /// `CSTR`, a text with a zero byte after it.
    ZeroEnded,
    /// `HEXD`, a text to the end, shown in hexadecimal.
    Rest,
}

/// What a count stores. (ResEdit Reference, 'TMPL' resources.)
#[derive(Clone, Copy, Debug, PartialEq, Eq)]
pub enum CountForm {
    /// `OCNT`, the number of rows.
    Rows,
    /// `ZCNT`, the number of rows less one.
    LessOne,
}

/// Whether a list has a count. (ResEdit Reference, 'TMPL' resources.)
#[derive(Clone, Copy, Debug, PartialEq, Eq)]
pub enum ListForm {
    /// `LSTC`, a list with a count before it.
    Counted,
    /// `LSTB`, a list without one.
    Uncounted,
}

/// An entry of a template. (ResEdit Reference, 'TMPL' resources.)
#[derive(Clone, Copy, Debug, PartialEq, Eq)]
pub enum Entry {
    /// A field by itself.
    One(Plain),
    /// The count of the next counted list of the same body.
    Count(CountForm),
    /// The start of a list.
    Start(ListForm),
    /// `LSTE`, the end of a list.
    End,
}

fn is(code: &[u8], name: &[u8]) -> bool
    ensures { result ≡ bytes_eq code.now name.now }
{
    code == name
}

/// The entry of a code, where this project takes it.
pub(crate) fn entry_of(code: &[u8]) -> Option<Entry>
    ensures { result ≡ entry_of code.now }
{
    if is(code, b"DBYT") {
        Some(Entry::One(Plain::Number(Size::Byte, false)))
    } else if is(code, b"DWRD") {
        Some(Entry::One(Plain::Number(Size::Word, false)))
    } else if is(code, b"DLNG") {
        Some(Entry::One(Plain::Number(Size::Long, false)))
    } else if is(code, b"HBYT") {
        Some(Entry::One(Plain::Number(Size::Byte, true)))
    } else if is(code, b"HWRD") {
        Some(Entry::One(Plain::Number(Size::Word, true)))
    } else if is(code, b"HLNG") {
        Some(Entry::One(Plain::Number(Size::Long, true)))
    } else {
        space_entry(code)
    }
}

fn space_entry(code: &[u8]) -> Option<Entry>
    ensures { result ≡ space_entry code.now }
{
    if is(code, b"FBYT") {
        Some(Entry::One(Plain::Zeros(Size::Byte)))
    } else if is(code, b"FWRD") {
        Some(Entry::One(Plain::Zeros(Size::Word)))
    } else if is(code, b"FLNG") {
        Some(Entry::One(Plain::Zeros(Size::Long)))
    } else if is(code, b"AWRD") {
        Some(Entry::One(Plain::Aligned(Size::Word)))
    } else if is(code, b"ALNG") {
        Some(Entry::One(Plain::Aligned(Size::Long)))
    } else {
        text_entry(code)
    }
}

fn text_entry(code: &[u8]) -> Option<Entry>
    ensures { result ≡ text_entry code.now }
{
    if is(code, b"PSTR") {
        Some(Entry::One(Plain::Pascal))
    } else if is(code, b"CSTR") {
        Some(Entry::One(Plain::ZeroEnded))
    } else if is(code, b"CHAR") {
        Some(Entry::One(Plain::Character))
    } else if is(code, b"TNAM") {
        Some(Entry::One(Plain::TypeName))
    } else if is(code, b"RECT") {
        Some(Entry::One(Plain::Rectangle))
    } else if is(code, b"HEXD") {
        Some(Entry::One(Plain::Rest))
    } else {
        list_entry(code)
    }
}

fn list_entry(code: &[u8]) -> Option<Entry>
    ensures { result ≡ list_entry code.now }
{
    if is(code, b"OCNT") {
        Some(Entry::Count(CountForm::Rows))
    } else if is(code, b"ZCNT") {
        Some(Entry::Count(CountForm::LessOne))
    } else if is(code, b"LSTC") {
        Some(Entry::Start(ListForm::Counted))
    } else if is(code, b"LSTB") {
        Some(Entry::Start(ListForm::Uncounted))
    } else if is(code, b"LSTE") {
        Some(Entry::End)
    } else {
        None
    }
}

impl Plain {
    /// Whether a row has a value of it.
    pub fn takes(self) -> bool
        ensures { result ≡ takes self }
    {
        !matches!(self, Plain::Zeros(_) | Plain::Aligned(_))
    }
}

impl ListForm {
    /// Whether a list of this form may begin where a count waits or none does.
    pub(crate) fn may_start(self, waiting: bool) -> bool
        ensures { result ≡ may_start self waiting }
    {
        match self {
            ListForm::Counted => waiting,
            ListForm::Uncounted => true,
        }
    }

    /// Whether a count waits after a list of this form, where one waits before it or none does.
    pub(crate) fn waits_behind(self, waiting: bool) -> bool
        ensures { result ≡ waits_behind self waiting }
    {
        match self {
            ListForm::Counted => false,
            ListForm::Uncounted => waiting,
        }
    }
}
