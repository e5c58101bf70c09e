//! The values of a header, from left to right. A new part of a header changes `specs/Head` too.

ghost use Rattle.std.specs.Prelude.{◌≡◌, ◌<◌, ℕ, true, length, map, option_map, IfOk};
ghost use Rattle.rz_core.specs.Message.{IsNameable, is_fault};
ghost use Rattle.rz_core.specs.Stop.{Gives, OnFault};
ghost use Rattle.rz_stmt_data.specs.Head.{attribute_of, head_of};
ghost use Rattle.rz_tools_values.specs.Head.{attr_of, bits_behind, bits_behind_all, facts_of, head_facts, id_of, keeps_number, known_by_head, name_of};
ghost use Rattle.rz_types.specs.Text.{plain_parts};

use crate::setting::Setting;
use bitflags::Flags;
use rz_core::{Attr, Bytes, Facts, Fault, Kept, Mark, OsType, Stop};
use rz_stmt_data::{AttrPart, AttrParts, HeadExpr};
use rz_types::{Texts, number_of, text_of};
use std::alloc::Global;

/// The most bytes of a name.
const MOST_NAME: u64 = 255;

/// What is known of a resource by its head on this line. The values are computed from left to right, and the first fault
/// is the answer: of the id 211, 215 and 204 (outside -32768 to 32767), of the name 216 (more than 255 bytes), of each
/// attribute 211, 215 and 207 (outside 0 to 255). A name that is left out is empty, and the attributes begin from 0.
/// (MPW Rez.)
pub fn facts_of(
    alloc: Global,
    kind: OsType,
    head: &HeadExpr,
    mark: Mark,
    setting: Setting,
) -> Result<Facts, Stop<Fault>>
    ensures facts { Gives (facts_of setting mark kind.code (head_of head.now)) result }
    ensures named { IfOk result (λ known. length known.name < 256) }
    ensures nameable { (files : ℕ) → mark.file < files → OnFault result (IsNameable files) }
{
    let begun = head_facts(alloc, kind, setting);
    known_by_head(alloc, head, mark, &begun)
}

/// What is known after the values of a head, where so much was known before.
fn known_by_head(
    alloc: Global,
    head: &HeadExpr,
    mark: Mark,
    begun: &Facts,
) -> Result<Facts, Stop<Fault>>
    ensures known { Gives (known_by_head mark begun.now (head_of head.now)) result }
    ensures named { IfOk result (λ known. length known.name < 256) }
    ensures nameable { (files : ℕ) → mark.file < files → OnFault result (IsNameable files) }
{
    let id = id_of(number_of(alloc, &head.id, mark, begun)?, mark)?;
    let name = name_of(alloc, &head.name, mark, begun)?;
    let attr = bits_of(alloc, &head.attributes, mark, begun)?;
    Ok(Facts {
        kind: begun.kind,
        id,
        name,
        attr,
        moment: begun.moment,
    })
}

/// What is known of a resource while its head is computed: its type and the moment.
pub fn head_facts(alloc: Global, kind: OsType, setting: Setting) -> Facts
    ensures { result ≡ head_facts setting kind.code }
{
    Facts {
        kind,
        id: 0,
        name: Bytes::new(alloc),
        attr: Attr::empty(),
        moment: setting.moment,
    }
}

/// The id that a value is, or 204 if it is outside -32768 to 32767.
pub fn id_of(value: i32, mark: Mark) -> Result<i16, Stop<Fault>>
    ensures id { Gives (id_of mark value) result }
    ensures nameable { (files : ℕ) → mark.file < files → OnFault result (IsNameable files) }
{
    if -32_768 <= value && value <= 32_767 {
        Ok(value as i16)
    } else {
        Err(Stop::Refused(keeps_number(204, mark, i64::from(value))))
    }
}

/// The name that the string of a header gives, no bytes if it has none, or the first fault: of the string, and then 216 of a
/// name of more than 255 bytes.
pub fn name_of(
    alloc: Global,
    name: &Option<Texts>,
    mark: Mark,
    facts: &Facts,
) -> Result<Bytes, Stop<Fault>>
    ensures name { Gives (name_of mark facts.now (option_map plain_parts name.now)) result }
    ensures short { IfOk result (λ name. length name < 256) }
    ensures nameable { (files : ℕ) → mark.file < files → OnFault result (IsNameable files) }
{
    let Some(texts) = name else {
        return Ok(Bytes::new(alloc));
    };
    let bytes = text_of(alloc, texts, mark, facts)?;
    if bytes.len() > MOST_NAME {
        return Err(Stop::Refused(keeps_number(216, mark, bytes.len() as i64)));
    }
    Ok(bytes)
}

/// The attributes that the words and numbers of a header give together, from 0 on, or the first fault.
pub fn bits_of(
    alloc: Global,
    attributes: &AttrParts,
    mark: Mark,
    facts: &Facts,
) -> Result<Attr, Stop<Fault>>
    ensures bits { Gives (bits_behind_all mark facts.now 0 (map attribute_of attributes.now)) result }
    ensures nameable { (files : ℕ) → mark.file < files → OnFault result (IsNameable files) }
{
    let mut attr = Attr::empty();
    for attribute in attributes.as_slice() {
        attr = bits_behind(alloc, attr, attribute, mark, facts)?;
    }
    Ok(attr)
}

/// The bits after an attribute.
fn bits_behind(
    alloc: Global,
    attr: Attr,
    attribute: &AttrPart,
    mark: Mark,
    facts: &Facts,
) -> Result<Attr, Stop<Fault>>
    ensures bits { Gives (bits_behind mark facts.now attr (attribute_of attribute.now)) result }
    ensures nameable { (files : ℕ) → mark.file < files → OnFault result (IsNameable files) }
{
    match attribute {
        AttrPart::Set(bit) => Ok(attr.union(*bit)),
        AttrPart::Clear(bit) => Ok(attr.difference(*bit)),
        AttrPart::Value(expr) => attr_of(number_of(alloc, expr, mark, facts)?, mark),
    }
}

/// The attributes whose byte a value is.
fn attr_of(value: i32, mark: Mark) -> Result<Attr, Stop<Fault>>
    ensures byte { Gives (attr_of mark value) result }
    ensures nameable { (files : ℕ) → mark.file < files → OnFault result (IsNameable files) }
{
    if 0 <= value && value <= 255 {
        Ok(Attr::of(value as u8))
    } else {
        Err(Stop::Refused(keeps_number(207, mark, i64::from(value))))
    }
}

/// A fault on a line that keeps a number.
pub fn keeps_number(number: u16, mark: Mark, value: i64) -> Fault
    requires { is_fault number ≡ true }
    ensures fault { result ≡ keeps_number number mark value }
    ensures nameable { (files : ℕ) → mark.file < files → IsNameable files result }
{
    Fault {
        number,
        mark: Some(mark),
        kept: Kept::Number(value),
    }
}
