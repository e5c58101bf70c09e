//! The broken rules of a fork as text; changed only with `specs/BreaksText`.

ghost use Rattle.std.specs.Prelude.{◌≡◌, ◌<◌, ◌≤◌, ◌^◌, ◌++◌, length, true, IfOk, OnOk};
ghost use Rattle.rz_core.specs.Message.{is_fault};
ghost use Rattle.rz_fork.specs.Admit.{IsSayable};
ghost use Rattle.rz_told.specs.BreaksText.{breaks_text, line_of, rule_name, rule_of, told};

use crate::det::Det;
use rz_core::{Bytes, NoMemory, fault_name, write_decimal};
use rz_fork::ForkFault;
use std::alloc::Global;

/// The name of a rule of admission, as `ShortHeader` for 401. The number is one from 401 to 410. It takes no memory.
pub fn rule_name(number: u16) -> &'static str
    requires first { 401 ≤ number }
    requires last { number ≤ 410 }
    ensures { result.now ≡ rule_name number }
{
    name_of(number)
}

/// The name of a fault.
fn name_of(number: u16) -> &'static str
    requires { is_fault number ≡ true }
    ensures { result.now ≡ rule_name number }
{
    fault_name(number).unwrap()
}

/// Each broken rule of a fork on a line `NUMBER NAME offset K value K`, in the order of [`Det`], and last the line
/// `broken N` with how many there are. Each line ends with a line feed, and numbers are decimal.
pub fn breaks_text(alloc: Global, fork: &[u8]) -> Result<Bytes, NoMemory>
    requires short { length fork.now < 2 ^ 32 }
    ensures { IfOk result (λ text. text ≡ breaks_text fork.now) }
{
    let mut text = Bytes::new(alloc);
    let mut det = Det::over(fork);
    let mut count = 0;
    while let Some(fault) = det.next() {
        append_line(fault, &mut text)?;
        prove!(count < text.len());
        count += 1;
    }
    append_number(b"broken ", count, &mut text)?;
    text.append(b"\n")?;
    Ok(text)
}

/// Appends the line of a broken rule.
#[tactic(auto, unfolding(crate::specs::BreaksText::line_of))]
fn append_line(fault: ForkFault, text: &mut Bytes) -> Result<(), NoMemory>
    requires sayable { IsSayable fault }
    ensures line { OnOk result (text.new ≡ text.old ++ line_of fault) }
    ensures longer { OnOk result (length text.old < length text.new) }
{
    append_rule(fault.number, text)?;
    append_number(b" offset ", fault.offset, text)?;
    append_number(b" value ", u64::from(fault.value), text)?;
    text.append(b"\n")?;
    Ok(())
}

/// Appends the number and the name of a rule.
#[tactic(auto, unfolding(crate::specs::BreaksText::rule_of))]
fn append_rule(number: u16, text: &mut Bytes) -> Result<(), NoMemory>
    requires { is_fault number ≡ true }
    ensures { OnOk result (text.new ≡ text.old ++ rule_of number) }
{
    write_decimal(u64::from(number), text)?;
    text.append(b" ")?;
    text.append(name_of(number).as_bytes())?;
    Ok(())
}

/// Appends a word and a number after it.
#[tactic(auto, unfolding(crate::specs::BreaksText::told))]
fn append_number(word: &[u8], number: u64, text: &mut Bytes) -> Result<(), NoMemory>
    ensures { OnOk result (text.new ≡ text.old ++ told word.now number) }
{
    text.append(word)?;
    write_decimal(number, text)?;
    Ok(())
}
