//! What chosen resources become. The values of their header are in `specs/Pick`.

ghost use Rattle.std.specs.Prelude.{◌≡◌, ◌<◌, [], ℕ, length, map, option_map, IfOk, Some};
ghost use Rattle.std.specs.Option.{option_copied, unwrap_or};
ghost use Rattle.rz_fork.specs.View.{lent};
ghost use Rattle.rz_core.specs.Message.{IsNameable};
ghost use Rattle.rz_core.specs.Stop.{Gives, OnFault};
ghost use Rattle.rz_stmt_data.specs.Head.{attribute_of, head_of};
ghost use Rattle.rz_set.specs.After.{HasShortName};
ghost use Rattle.rz_types.specs.Text.{plain_parts};
ghost use Rattle.rz_tools_values.specs.Lent.{lent_one};
ghost use Rattle.rz_tools_work.specs.Pick.{as_type, chosen_facts, head_said, new_attributes, new_head, new_name};

use rz_core::{Attr, Bytes, Facts, Fault, Mark, NoMemory, OsType, Resource, Stop};
use rz_fork::ResView;
use rz_set::{Head, Pick};
use rz_stmt_data::{AttrParts, HeadExpr};
use rz_tools_values::{Setting, bits_of, id_said, name_of};
use rz_types::Texts;
use std::alloc::Global;

/// Resources that are chosen, and what they become.
#[derive(Debug, Drop)]
pub struct Renamed {
    /// Which resources of a type.
    pub pick: Pick,
    /// What they become.
    pub head: Head,
}

/// What chosen resources become: resources of a type, and where one is chosen and there is a head, as the head says. Its
/// values are computed from left to right and may speak of the chosen one, and the first fault is the answer: of the id
/// 211, 215 and 204 (outside -32768 to 32767), of the name 216 (more than 255 bytes), of each attribute 211, 215 and 207
/// (outside 0 to 255). A name or attributes that are left out stay as they are; attributes that are given begin from 0.
/// (MPW Rez.)
pub fn new_head(
    alloc: Global,
    kind: OsType,
    one: &Option<ResView<'_>>,
    head: &Option<HeadExpr>,
    mark: Mark,
    setting: Setting,
) -> Result<Head, Stop<Fault>>
    ensures head { Gives (new_head setting mark kind (lent_one one.now) (option_map head_of head.now)) result }
    ensures short { IfOk result (λ head. HasShortName (Some head)) }
    ensures nameable { (files : ℕ) → mark.file < files → OnFault result (IsNameable files) }
{
    let Some(one) = one else {
        return Ok(as_type(kind));
    };
    match head {
        Some(head) => head_for(alloc, kind, one, head, mark, setting),
        None => Ok(as_type(kind)),
    }
}

/// A resource of the list, lent as one of a fork is, where there is one.
pub fn lent_of(one: Option<&Resource>) -> Option<ResView<'_>>
    ensures { lent_one result ≡ option_copied one.entry }
{
    match one {
        Some(resource) => Some(ResView {
            kind: resource.kind,
            id: resource.id,
            name: resource.name.as_slice(),
            attr: resource.attr,
            bytes: resource.bytes.as_slice(),
        }),
        None => None,
    }
}

/// Another type alone.
fn as_type(kind: OsType) -> Head
    ensures { result ≡ as_type kind }
{
    Head {
        kind,
        id: None,
        name: None,
        attr: None,
    }
}

/// The values of a head for a chosen resource.
fn head_for(
    alloc: Global,
    kind: OsType,
    one: &ResView<'_>,
    head: &HeadExpr,
    mark: Mark,
    setting: Setting,
) -> Result<Head, Stop<Fault>>
    ensures head { Gives (head_said mark (chosen_facts setting (lent one.now)) kind (head_of head.now)) result }
    ensures short { IfOk result (λ head. HasShortName (Some head)) }
    ensures nameable { (files : ℕ) → mark.file < files → OnFault result (IsNameable files) }
{
    let known = chosen_facts(alloc, one, setting)?;
    head_said(alloc, kind, head, mark, &known)
}

/// What is known of a chosen resource while its new head is computed.
fn chosen_facts(alloc: Global, one: &ResView<'_>, setting: Setting) -> Result<Facts, NoMemory>
    ensures { IfOk result (λ known. known ≡ chosen_facts setting (lent one.now)) }
{
    Ok(Facts {
        kind: one.kind,
        id: one.id,
        name: Bytes::of(alloc, one.name)?,
        attr: one.attr,
        moment: setting.moment,
    })
}

/// The same, where this is known of the resource.
fn head_said(
    alloc: Global,
    kind: OsType,
    head: &HeadExpr,
    mark: Mark,
    known: &Facts,
) -> Result<Head, Stop<Fault>>
    ensures head { Gives (head_said mark known.now kind (head_of head.now)) result }
    ensures short { IfOk result (λ head. HasShortName (Some head)) }
    ensures nameable { (files : ℕ) → mark.file < files → OnFault result (IsNameable files) }
{
    let id = id_said(alloc, &head.id, mark, known)?;
    let name = new_name(alloc, &head.name, mark, known)?;
    let attr = new_attributes(alloc, &head.attributes, mark, known)?;
    Ok(Head {
        kind,
        id: Some(id),
        name,
        attr,
    })
}

/// The name that a head says, if it says one.
fn new_name(
    alloc: Global,
    name: &Option<Texts>,
    mark: Mark,
    known: &Facts,
) -> Result<Option<Bytes>, Stop<Fault>>
    ensures name { Gives (new_name mark known.now (option_map plain_parts name.now)) result }
    ensures short { IfOk result (λ name. length (unwrap_or name []) < 256) }
    ensures nameable { (files : ℕ) → mark.file < files → OnFault result (IsNameable files) }
{
    match name {
        Some(_) => Ok(Some(name_of(alloc, name, mark, known)?)),
        None => Ok(None),
    }
}

/// The attributes that a head says, if it says any.
fn new_attributes(
    alloc: Global,
    attributes: &AttrParts,
    mark: Mark,
    known: &Facts,
) -> Result<Option<Attr>, Stop<Fault>>
    ensures attributes { Gives (new_attributes mark known.now (map attribute_of attributes.now)) result }
    ensures nameable { (files : ℕ) → mark.file < files → OnFault result (IsNameable files) }
{
    if attributes.is_empty() {
        return Ok(None);
    }
    let attr = bits_of(alloc, attributes, mark, known)?;
    Ok(Some(attr))
}
