//! The message line of a fault, and the name of each fault; changed only with `specs/Message`.

ghost use Rattle.std.specs.Prelude.{◌≡◌, ◌++◌, length, true, OnOk, OnErr};
ghost use Rattle.std.specs.Option.{option_copied};
ghost use Rattle.rz_core.specs.Message.{is_named, fault_name, source_fault, statement_fault, declaration_fault, fork_fault, bridge_fault, entry_fault, severity, place_text, kept_text, rule_text, fault_line, IsMarked, HasLine};

use crate::{
    Bytes, Fault, FileNames, Kept, Mark, NoMemory, write_decimal, write_quoted, write_signed,
    write_type,
};

/// Appends the message line of a fault: `rezkit: FILE:LINE: error NUMBER NAME: KEPT` and a line end.
/// For 240 it says `warning` in place of `error`. `FILE:LINE: ` is absent without a mark, and `: KEPT`
/// where nothing is kept. The mark's file must be a position of `files`, and the number one that the
/// table of faults has. Where memory is refused `into` is unchanged.
pub fn write_fault(fault: &Fault, files: &FileNames, into: &mut Bytes) -> Result<(), NoMemory>
    requires { HasLine (length files.now) fault.now }
    ensures ok { OnOk result (into.new ≡ into.old ++ fault_line files.now fault.now) }
    ensures err { OnErr result (into.new ≡ into.old) }
{
    let mut line = Bytes::new(into.allocator());
    append_line(fault, files, &mut line)?;
    into.append(line.as_slice())?;
    Ok(())
}

#[tactic(auto, unfolding(crate::specs::Message::fault_line))]
fn append_line(fault: &Fault, files: &FileNames, line: &mut Bytes) -> Result<(), NoMemory>
    requires { HasLine (length files.now) fault.now }
    ensures { OnOk result (line.new ≡ line.old ++ fault_line files.now fault.now) }
{
    line.append(b"rezkit: ")?;
    append_place(&fault.mark, files, line)?;
    append_rule(fault.number, line)?;
    append_kept(&fault.kept, line)?;
    line.append(b"\n")?;
    Ok(())
}

/// 240 is a warning, and every other fault an error.
fn severity(number: u16) -> &'static [u8]
    ensures { result.now ≡ severity number }
{
    if number == 240 {
        b"warning "
    } else {
        b"error "
    }
}

/// What rule is broken: `error NUMBER NAME`.
#[tactic(auto, unfolding(crate::specs::Message::rule_text))]
fn append_rule(number: u16, line: &mut Bytes) -> Result<(), NoMemory>
    requires { is_named number ≡ true }
    ensures { OnOk result (line.new ≡ line.old ++ rule_text number) }
{
    line.append(severity(number))?;
    write_decimal(u64::from(number), line)?;
    line.append(b" ")?;
    line.append(fault_name(number).unwrap().as_bytes())?;
    Ok(())
}

fn append_place(mark: &Option<Mark>, files: &FileNames, line: &mut Bytes) -> Result<(), NoMemory>
    requires { IsMarked (length files.now) mark.now }
    ensures { OnOk result (line.new ≡ line.old ++ place_text files.now mark.now) }
{
    if let Some(mark) = mark {
        line.append(files.at(mark.file).as_bytes())?;
        line.append(b":")?;
        write_decimal(u64::from(mark.line), line)?;
        line.append(b": ")?;
    }
    Ok(())
}

fn append_kept(kept: &Kept, line: &mut Bytes) -> Result<(), NoMemory>
    ensures { OnOk result (line.new ≡ line.old ++ kept_text kept.now) }
{
    if !matches!(kept, Kept::Nothing) {
        line.append(b": ")?;
    }
    match kept {
        Kept::Nothing => {}
        Kept::Number(number) => write_signed(*number, line)?,
        Kept::Pair(first, second) => {
            write_signed(*first, line)?;
            line.append(b" ")?;
            write_signed(*second, line)?;
        }
        Kept::Check(check, stored, computed) => {
            write_decimal(u64::from(*check), line)?;
            line.append(b" ")?;
            write_decimal(u64::from(*stored), line)?;
            line.append(b" ")?;
            write_decimal(u64::from(*computed), line)?;
        }
        Kept::Name(name) => write_quoted(name.as_slice(), b'"', line)?,
        Kept::Key(kind, id) => {
            write_type(*kind, line)?;
            line.append(b" ")?;
            write_signed(i64::from(*id), line)?;
        }
    }
    Ok(())
}

/// The name that messages give the fault of a number, as `MissingFile` for 101; it is `None` exactly for a number that
/// is no fault's. It takes no memory.
pub fn fault_name(number: u16) -> Option<&'static str>
    ensures { option_copied result ≡ fault_name number }
{
    match number {
        0..=199 => source_fault(number),
        200..=229 => statement_fault(number),
        230..=299 => declaration_fault(number),
        300..=419 => fork_fault(number),
        420..=449 => bridge_fault(number),
        _ => entry_fault(number),
    }
}

fn source_fault(number: u16) -> Option<&'static str>
    ensures { option_copied result ≡ source_fault number }
{
    match number {
        101 => Some("MissingFile"),
        102 => Some("BadText"),
        103 => Some("IncludeDepth"),
        104 => Some("BadDirective"),
        105 => Some("OpenIf"),
        106 => Some("StrayElse"),
        107 => Some("OpenComment"),
        108 => Some("OpenString"),
        109 => Some("BadEscape"),
        110 => Some("BadNumber"),
        111 => Some("BadCharacter"),
        112 => Some("ExpansionTooLong"),
        113 => Some("BadHex"),
        114 => Some("BadCondition"),
        115 => Some("WordTooLong"),
        _ => None,
    }
}

fn statement_fault(number: u16) -> Option<&'static str>
    ensures { option_copied result ≡ statement_fault number }
{
    match number {
        201 => Some("Syntax"),
        202 => Some("NoType"),
        203 => Some("UnknownName"),
        204 => Some("BadId"),
        205 => Some("NeedsAppend"),
        206 => Some("WrongKind"),
        207 => Some("OutOfRange"),
        208 => Some("TooFew"),
        209 => Some("TooMany"),
        210 => Some("NoCase"),
        211 => Some("ZeroDivisor"),
        212 => Some("UnknownLabel"),
        213 => Some("LaterData"),
        214 => Some("SizeLater"),
        215 => Some("BadShift"),
        216 => Some("TextTooLong"),
        217 => Some("ArrayCount"),
        218 => Some("NoSuchResource"),
        219 => Some("Protected"),
        220 => Some("ReadOnlyMap"),
        221 => Some("TooDeep"),
        222 => Some("BadFormat"),
        223 => Some("BadIndex"),
        _ => None,
    }
}

fn declaration_fault(number: u16) -> Option<&'static str>
    ensures { option_copied result ≡ declaration_fault number }
{
    match number {
        230 => Some("LabelTwice"),
        231 => Some("ArrayTwice"),
        232 => Some("CaseTwice"),
        233 => Some("KeyMissing"),
        234 => Some("KeyWidth"),
        235 => Some("KeyDistance"),
        236 => Some("KeyTwice"),
        237 => Some("ElementWithoutValues"),
        238 => Some("BadWidth"),
        239 => Some("NoSuchType"),
        240 => Some("Redeclared"),
        _ => None,
    }
}

fn fork_fault(number: u16) -> Option<&'static str>
    ensures { option_copied result ≡ fork_fault number }
{
    match number {
        301 => Some("ResourceTooLong"),
        302 => Some("DataFull"),
        303 => Some("MapFull"),
        304 => Some("NamesFull"),
        401 => Some("ShortHeader"),
        402 => Some("DataAreaOutside"),
        403 => Some("MapOutside"),
        404 => Some("ShortMap"),
        405 => Some("TypeListOutside"),
        406 => Some("TypesOutside"),
        407 => Some("ReferencesOutside"),
        408 => Some("DataOutside"),
        409 => Some("NameOutside"),
        410 => Some("Repeated"),
        _ => None,
    }
}

fn bridge_fault(number: u16) -> Option<&'static str>
    ensures { option_copied result ≡ bridge_fault number }
{
    match number {
        421 => Some("ShortHeader"),
        422 => Some("BadMagic"),
        423 => Some("EntryOutside"),
        424 => Some("BadCrc"),
        425 => Some("BadName"),
        426 => Some("Truncated"),
        427 => Some("NewerVersion"),
        428 => Some("ForkTooLong"),
        441 => Some("NoStart"),
        442 => Some("BadLetter"),
        443 => Some("NoEnd"),
        444 => Some("BadCrc"),
        445 => Some("Truncated"),
        446 => Some("RunAtStart"),
        447 => Some("BadName"),
        _ => None,
    }
}

fn entry_fault(number: u16) -> Option<&'static str>
    ensures { option_copied result ≡ entry_fault number }
{
    match number {
        451 => Some("TornEntry"),
        452 => Some("UnknownCode"),
        453 => Some("ListUnbalanced"),
        454 => Some("CountUnpaired"),
        455 => Some("EmptyElement"),
        456 => Some("ListTooDeep"),
        461 => Some("BadEntry"),
        462 => Some("NoLeaf"),
        463 => Some("EntryTwice"),
        464 => Some("TextRefused"),
        _ => None,
    }
}
