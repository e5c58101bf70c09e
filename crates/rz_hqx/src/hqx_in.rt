//! The reader of BinHex 4.0; changed only with `specs/BinHex`.

ghost use Rattle.std.specs.Prelude.{◌≡◌, ◌≤◌, ◌<◌, ◌+◌, ◌^◌, length, IfOk};
ghost use Rattle.rz_core.specs.Stop.{Gives, OnFault};
ghost use Rattle.rz_bridge.specs.Faults.{IsSayable};
ghost use Rattle.rz_hqx.specs.BinHex.{kind_place, hqx_finder, hqx_fields, decoded_content, hqx_content};

use crate::body::decoded_in;
use crate::fields::{
    data_length, data_place, fields_torn, kind_place, name_length, resource_length, resource_place,
};
use crate::text::{behind_colon, behind_head};
use rz_bridge::{BridgeFault, Finder, MacFile, Span, fault_at, piece_at, pieces_in};
use rz_core::{Bytes, NoMemory, OsType, Stop, u16_at, u32_at};
use std::alloc::Global;

/// The file of a BinHex 4.0 text: name, type, creator, flags and both forks; all other fields are zero. Text before the
/// line that says what it is, blanks, tabs and line ends between letters, what stands after the last colon and bytes
/// after the last check pass unread. There are fewer than 2^32 bytes. Time and memory are linear in the text and in the
/// decoded bytes, of which a byte of the text makes fewer than 96.
///
/// Refused with the first broken rule: 441 NoStart, there is no such line or no colon after it (offset 0; 0); 442
/// BadLetter, a byte before the next colon is no letter (its offset in the text; the byte); 443 NoEnd, there is no such
/// colon (the length of the text; the same); then, with offsets in the bytes before runs are undone, 446 and 445 as in
/// [`runs_read`](crate::runs_read); then, field by field and with offsets in the decoded bytes, 447 BadName, the length
/// of the name isn't 1 to 63 (0; the length), 445 Truncated, the bytes end in or before a field (of the field; how many
/// bytes are left there), and 444 BadCrc, a check is wrong (of the stored check; 1 for the header, 2 for the data fork
/// and 3 for the resource fork, the stored check and the computed one). (RFC 1741.)
pub fn hqx_read(alloc: Global, bytes: &[u8]) -> Result<MacFile, Stop<BridgeFault>>
    requires { length bytes.now < 2 ^ 32 }
    ensures file { Gives (hqx_content bytes.now) result }
    ensures data_fork { IfOk result (λ file. length file.data_fork < 2 ^ 32) }
    ensures res_fork { IfOk result (λ file. length file.res_fork < 2 ^ 32) }
    ensures sayable { OnFault result IsSayable }
{
    let Some(body) = behind_colon(behind_head(bytes)) else {
        return Err(Stop::Refused(fault_at(441, 0, 0)));
    };
    let decoded = decoded_in(alloc, bytes.len() - body.len(), body)?;
    read_decoded(alloc, decoded)
}

/// The file of decoded bytes.
fn read_decoded(alloc: Global, bytes: Bytes) -> Result<MacFile, Stop<BridgeFault>>
    ensures file { Gives (decoded_content bytes) result }
    ensures data_fork { IfOk result (λ file. length file.data_fork < 2 ^ 32) }
    ensures res_fork { IfOk result (λ file. length file.res_fork < 2 ^ 32) }
    ensures sayable { OnFault result IsSayable }
{
    if let Some(fault) = fields_torn(bytes.as_slice()) {
        return Err(Stop::Refused(fault));
    }
    Ok(read_fields(alloc, bytes)?)
}

/// The file that the fields make.
#[tactic(auto, unfolding(crate::specs::BinHex::hqx_fields))]
fn read_fields(alloc: Global, bytes: Bytes) -> Result<MacFile, NoMemory>
    requires some { 1 ≤ length bytes }
    requires header { kind_place bytes + 20 ≤ length bytes }
    ensures file { IfOk result (λ file. file ≡ hqx_fields bytes) }
    ensures data_fork { IfOk result (λ file. length file.data_fork < 2 ^ 32) }
    ensures res_fork { IfOk result (λ file. length file.res_fork < 2 ^ 32) }
{
    let lent = bytes.as_slice();
    let name = Bytes::of(alloc, piece_at(lent, 1, name_length(lent)))?;
    let finder = read_finder(lent);
    let data = Span {
        place: data_place(lent),
        count: data_length(lent),
    };
    let resource = Span {
        place: resource_place(lent),
        count: resource_length(lent),
    };
    let (data_fork, res_fork) = pieces_in(alloc, bytes, data, resource)?;
    Ok(MacFile {
        name,
        finder,
        locked: false,
        created: 0,
        modified: 0,
        data_fork,
        res_fork,
    })
}

/// The Finder's fields.
#[tactic(auto, unfolding(crate::specs::BinHex::hqx_finder))]
fn read_finder(bytes: &[u8]) -> Finder
    requires some { 1 ≤ length bytes.now }
    requires header { kind_place bytes.now + 20 ≤ length bytes.now }
    ensures { result ≡ hqx_finder bytes.now }
{
    let place = kind_place(bytes);
    Finder {
        kind: OsType {
            code: u32_at(bytes, place),
        },
        creator: OsType {
            code: u32_at(bytes, place + 4),
        },
        flags: u16_at(bytes, place + 8),
        vertical: 0,
        horizontal: 0,
        folder: 0,
        extra: [0; 16],
    }
}
