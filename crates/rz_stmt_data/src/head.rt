//! Heads: an id, a name and attributes, of new or of chosen resources; changes with `specs/Head`.

ghost use Rattle.std.specs.Prelude.{◌≡◌, IfOk, map, option_map};
ghost use Rattle.rz_expr.specs.Term.{term_of};
ghost use Rattle.rz_words.specs.Attribute.{attribute_word};
ghost use Rattle.rz_types_fields.specs.Text.{plain_parts};
ghost use Rattle.rz_core.specs.Decided.{Decided};
ghost use Rattle.rz_stmt_data.specs.Head.{attribute_of, head_of, place_of, said, word_attribute, AreAttributesFor, IsAttributeFor, IsHead, IsHeadFor, IsRestOf, IsSaidFor};
ghost use Rattle.rz_stmt_data.specs.Steps.{rest_of, IsNamedRest};
ghost use Rattle.rz_stmt_data.specs.declared.head.Subject.TheVariants.{New};

use crate::texts::{begins_text, text_at};
use rz_core::{Attr, Listing, NoMemory, Word};
use rz_expr::{AttributeWord, Expr, attribute_word, one_expression, read_whole};
use rz_lex::{Shape, Token};
use rz_types_fields::{TextPlace, Texts, may_say};
use std::alloc::Global;

/// Whose head it is, and so what may stand in it. (MPW Rez.)
#[derive(Clone, Copy, PartialEq, Eq)]
pub enum Subject {
    /// A new resource, of which nothing is known before.
    New,
    /// A resource that is chosen: `$$ID`, `$$Type`, `$$Attributes` and `$$Name` speak of it.
    Chosen,
}

/// An attribute of a head. (MPW Rez.)
#[derive(Drop)]
pub enum AttrPart {
    /// A word that sets this bit.
    Set(Attr),
    /// A word that clears this bit.
    Clear(Attr),
    /// A number that sets all eight bits.
    Value(Expr),
}

/// The attributes of a head, in order.
pub type AttrParts = Listing<AttrPart>;

/// What stands in the brackets of a head. (MPW Rez.)
#[derive(Drop)]
pub struct HeadExpr {
    /// The id.
    pub id: Expr,
    /// The name, where one is given. `$$Name` stands in none of a new resource.
    pub name: Option<Texts>,
    /// The attributes, none where they are left out.
    pub attributes: AttrParts,
}

/// The head of a new resource that the pieces of its brackets are: an id, then maybe a name without `$$Name`, then
/// maybe attributes. `None` exactly where they are none. (MPW Rez.)
pub fn read_head(alloc: Global, pieces: &[&[Token]]) -> Result<Option<HeadExpr>, NoMemory>
    ensures { IfOk result (λ head. Decided (IsHead (map (λ piece. piece.now) pieces.now)) (option_map head_of head)) }
{
    read_head_for(alloc, Subject::New, pieces)
}

/// The head of such a resource that the pieces of its brackets are: an id, then maybe a name, then maybe attributes.
/// `None` exactly where they are none. (MPW Rez.)
pub fn read_head_for(
    alloc: Global,
    subject: Subject,
    pieces: &[&[Token]],
) -> Result<Option<HeadExpr>, NoMemory>
    ensures { IfOk result (λ head. Decided (IsHeadFor subject (map (λ piece. piece.now) pieces.now)) (option_map head_of head)) }
{
    one_expression();
    let Some((first, others)) = pieces.split_first() else {
        return Ok(None);
    };
    let Some(id) = read_said(alloc, subject, first)? else {
        return Ok(None);
    };
    match read_rest(alloc, subject, others) {
        Ok(Some((name, attributes))) => Ok(Some(HeadExpr {
            id,
            name,
            attributes,
        })),
        Ok(None) => {
            drop(id);
            Ok(None)
        }
        Err(NoMemory) => {
            drop(id);
            Err(NoMemory)
        }
    }
}

/// The name and the attributes that the pieces after an id are.
fn read_rest(
    alloc: Global,
    subject: Subject,
    pieces: &[&[Token]],
) -> Result<Option<(Option<Texts>, AttrParts)>, NoMemory>
    ensures { IfOk result (λ rest. Decided (IsRestOf subject (map (λ piece. piece.now) pieces.now)) (option_map rest_of rest)) }
{
    let Some((first, others)) = pieces.split_first() else {
        return Ok(Some((None, AttrParts::new(alloc))));
    };
    if begins_text(first) {
        return read_named(alloc, subject, first, others);
    }
    match read_attributes(alloc, subject, pieces)? {
        Some(attributes) => Ok(Some((None, attributes))),
        None => Ok(None),
    }
}

/// The name that a piece is, and the attributes after it.
fn read_named(
    alloc: Global,
    subject: Subject,
    piece: &[Token],
    others: &[&[Token]],
) -> Result<Option<(Option<Texts>, AttrParts)>, NoMemory>
    ensures { IfOk result (λ rest. Decided (IsNamedRest subject piece.now (map (λ piece. piece.now) others.now)) (option_map rest_of rest)) }
{
    let Some(name) = text_at(alloc, place_of(subject), piece)? else {
        return Ok(None);
    };
    match read_attributes(alloc, subject, others)? {
        Some(attributes) => Ok(Some((Some(name), attributes))),
        None => Ok(None),
    }
}

/// Where the expressions and the name of a head of the subject stand.
fn place_of(subject: Subject) -> TextPlace
    ensures { result ≡ place_of subject }
{
    match subject {
        Subject::New => TextPlace::New,
        Subject::Chosen => TextPlace::Chosen,
    }
}

/// The attributes that the pieces are.
fn read_attributes(
    alloc: Global,
    subject: Subject,
    pieces: &[&[Token]],
) -> Result<Option<AttrParts>, NoMemory>
    ensures { IfOk result (λ parts. Decided (AreAttributesFor subject (map (λ piece. piece.now) pieces.now)) (option_map (map attribute_of) parts)) }
{
    one_expression();
    let mut attributes = AttrParts::new(alloc);
    for piece in pieces {
        let Some(attribute) = read_attribute(alloc, subject, piece)? else {
            return Ok(None);
        };
        attributes.push(attribute)?;
    }
    Ok(Some(attributes))
}

/// The attribute that a piece is.
fn read_attribute(
    alloc: Global,
    subject: Subject,
    piece: &[Token],
) -> Result<Option<AttrPart>, NoMemory>
    ensures { IfOk result (λ part. Decided (IsAttributeFor subject piece.now) (option_map attribute_of part)) }
{
    if let Some(part) = word_attribute(piece) {
        return Ok(Some(part));
    }
    match read_said(alloc, subject, piece)? {
        Some(value) => Ok(Some(AttrPart::Value(value))),
        None => Ok(None),
    }
}

/// The expression that the tokens are, where it may stand in a head of the subject. `None` exactly where they are none.
/// In a pick stands what may stand in a head of a new resource. (MPW Rez.)
pub fn read_said(
    alloc: Global,
    subject: Subject,
    tokens: &[Token],
) -> Result<Option<Expr>, NoMemory>
    ensures { IfOk result (λ expr. Decided (IsSaidFor subject tokens.now) (option_map term_of expr)) }
{
    one_expression();
    match read_whole(alloc, tokens)? {
        Some(expr) => {
            if may_say(place_of(subject), &expr) {
                Ok(Some(expr))
            } else {
                drop(expr);
                Ok(None)
            }
        }
        None => Ok(None),
    }
}

/// The attribute that a piece is by one word.
fn word_attribute(piece: &[Token]) -> Option<AttrPart>
    ensures { option_map attribute_of result ≡ word_attribute piece.now }
{
    match piece {
        [token] => match &token.shape {
            Shape::Word(word) => attribute_named(word),
            _ => None,
        },
        _ => None,
    }
}

/// The attribute that a word is.
fn attribute_named(word: &Word) -> Option<AttrPart>
    ensures { option_map attribute_of result ≡ option_map said (attribute_word word.now.bytes) }
{
    match attribute_word(word.bytes.as_slice()) {
        Some(word) => Some(said(word)),
        None => None,
    }
}

/// What an attribute word says.
fn said(word: AttributeWord) -> AttrPart
    ensures { attribute_of result ≡ said word }
{
    if word.sets {
        AttrPart::Set(word.bit)
    } else {
        AttrPart::Clear(word.bit)
    }
}
