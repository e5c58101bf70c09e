//! The parts of a header: its word, type and id, and its attributes; changes with `specs/Head`.
#![tactic(auto, using(crate::proofs::Writes::writes))]

ghost use Rattle.std.specs.Prelude.{◌≡◌, ◌++◌};
ghost use Rattle.rz_show_lines.specs.Cut.{cut};
ghost use Rattle.rz_show_lines.specs.Head.{attr_written, head_front, word_written};
ghost use Rattle.rz_show_lines.specs.Written.{line_text};
ghost use Rattle.rz_words.specs.declared.attribute.Attribute.TheVariants.{Changed, Locked, Preload, Protected, Purgeable, SystemHeap};

use crate::Line;
use bitflags::Flags;
use rz_core::Attr;
use rz_words::{Attribute, bit_of, setting_word};

/// Writes a word, a type as a literal, and after a parenthesis an id in decimal. (MPW Rez.)
#[tactic(auto, using(crate::proofs::Writes::writes), unfolding(crate::specs::Head::head_front))]
pub fn head_front(word: &[u8], code: u32, id: i16, line: &mut Line)
    ensures { line.new ≡ cut (line.old ++ line_text (head_front word.now code id)) }
{
    line.append(word);
    line.push(b' ');
    line.literal(4, code);
    line.append(b" (");
    line.decimal(i64::from(id));
}

/// Writes the attributes, where there are any: by words, or as a number where the bit 80 or 01 is set, which have no
/// word. (MPW Rez.)
#[tactic(auto, using(crate::proofs::Writes::writes, rz_core::proofs::OneBit::has_unnamed))]
pub fn attributes(attr: Attr, line: &mut Line)
    ensures { line.new ≡ cut (line.old ++ line_text (attr_written attr)) }
{
    if attr.is_empty() {
        line.append(b"");
    } else if !Attr::NAMED.contains(attr) {
        line.append(b", $");
        line.hex_byte(attr.byte());
    } else {
        words(attr, line);
    }
}

/// Writes the words of the attributes that are set.
fn words(attr: Attr, line: &mut Line)
    ensures { line.new ≡ cut (line.old ++ line_text (word_written attr SystemHeap ++ word_written attr Purgeable ++ word_written attr Locked ++ word_written attr Protected ++ word_written attr Preload ++ word_written attr Changed)) }
{
    word(attr, Attribute::SystemHeap, line);
    word(attr, Attribute::Purgeable, line);
    word(attr, Attribute::Locked, line);
    word(attr, Attribute::Protected, line);
    word(attr, Attribute::Preload, line);
    word(attr, Attribute::Changed, line);
}

/// Writes the word of an attribute, where its bit is set.
#[tactic(auto, using(crate::proofs::Writes::writes, rz_words::proofs::Bits::is_set))]
fn word(attr: Attr, attribute: Attribute, line: &mut Line)
    ensures { line.new ≡ cut (line.old ++ line_text (word_written attr attribute)) }
{
    if attr.contains(bit_of(attribute)) {
        line.append(b", ");
        line.append(setting_word(attribute));
    } else {
        line.append(b"");
    }
}
