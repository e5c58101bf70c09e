//! The words that set or clear a bit of the attributes; a new word changes `specs/Attribute` too.

ghost use Rattle.std.specs.Prelude.{◌≡◌, List, Some, None};
ghost use Rattle.rz_words.specs.Attribute.{attribute_among, attribute_word, bit_of, clearing_word, every_attribute, setting_word};

use crate::keyword::is;
use rz_core::Attr;

/// A bit of the attributes that has words. (MPW Rez; Inside Macintosh: More Macintosh Toolbox, Resource
/// Manager.)
#[derive(Clone, Copy, Debug, PartialEq, Eq)]
pub enum Attribute {
    /// `sysheap` and `appheap`, 40.
    SystemHeap,
    /// `purgeable` and `nonpurgeable`, 20.
    Purgeable,
    /// `locked` and `unlocked`, 10.
    Locked,
    /// `protected` and `unprotected`, 08.
    Protected,
    /// `preload` and `nonpreload`, 04.
    Preload,
    /// `changed` and `unchanged`, 02.
    Changed,
}

/// Every attribute that has words, from the highest bit to the lowest.
pub const ATTRIBUTES: [Attribute; 6] = [
    Attribute::SystemHeap,
    Attribute::Purgeable,
    Attribute::Locked,
    Attribute::Protected,
    Attribute::Preload,
    Attribute::Changed,
];

/// What an attribute word says: the bit, and whether the word sets or clears it. (MPW Rez.)
#[derive(Clone, Copy, Debug, PartialEq, Eq)]
pub struct AttributeWord {
    /// The bit of the attributes.
    pub bit: Attr,
    /// Whether the word sets the bit; else it clears it.
    pub sets: bool,
}

/// The bit of an attribute.
pub fn bit_of(attribute: Attribute) -> Attr
    ensures { result ≡ bit_of attribute }
{
    match attribute {
        Attribute::SystemHeap => Attr::SYSTEM_HEAP,
        Attribute::Purgeable => Attr::PURGEABLE,
        Attribute::Locked => Attr::LOCKED,
        Attribute::Protected => Attr::PROTECTED,
        Attribute::Preload => Attr::PRELOAD,
        Attribute::Changed => Attr::CHANGED,
    }
}

/// The word that sets an attribute, in lower case.
pub fn setting_word(attribute: Attribute) -> &'static [u8]
    ensures { result.now ≡ setting_word attribute }
{
    match attribute {
        Attribute::SystemHeap => b"sysheap",
        Attribute::Purgeable => b"purgeable",
        Attribute::Locked => b"locked",
        Attribute::Protected => b"protected",
        Attribute::Preload => b"preload",
        Attribute::Changed => b"changed",
    }
}

/// The word that clears an attribute, in lower case.
pub fn clearing_word(attribute: Attribute) -> &'static [u8]
    ensures { result.now ≡ clearing_word attribute }
{
    match attribute {
        Attribute::SystemHeap => b"appheap",
        Attribute::Purgeable => b"nonpurgeable",
        Attribute::Locked => b"unlocked",
        Attribute::Protected => b"unprotected",
        Attribute::Preload => b"nonpreload",
        Attribute::Changed => b"unchanged",
    }
}

/// What a name says as an attribute word. Case doesn't matter. (MPW Rez.)
#[tactic(auto, unfolding(crate::specs::Attribute::attribute_word))]
pub fn attribute_word(name: &[u8]) -> Option<AttributeWord>
    ensures { result ≡ attribute_word name.now }
{
    attribute_among(&ATTRIBUTES, name)
}

/// What a name says by the words of these attributes.
fn attribute_among(attributes: &[Attribute], name: &[u8]) -> Option<AttributeWord>
    ensures { result ≡ attribute_among attributes.now name.now }
{
    for attribute in attributes {
        if is(setting_word(*attribute), name) {
            return Some(word_for(*attribute, true));
        }
        if is(clearing_word(*attribute), name) {
            return Some(word_for(*attribute, false));
        }
    }
    None
}

fn word_for(attribute: Attribute, sets: bool) -> AttributeWord
    ensures { result ≡ record { bit = bit_of attribute; sets = sets } }
{
    AttributeWord {
        bit: bit_of(attribute),
        sets,
    }
}
