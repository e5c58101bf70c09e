//! The name of a file, as one text or more that are joined; changes with `specs/Files`.

ghost use Rattle.std.specs.Prelude.{◌≡◌, IfOk};
ghost use Rattle.rz_core.specs.Decided.{Decided};
ghost use Rattle.rz_stmt_data.specs.Files.{begins_with_text, behind_texts, file_in, texts_at_front, IsFile};

use rz_core::{Bytes, NoMemory};
use rz_lex::{Shape, Token};
use std::alloc::Global;

/// The file that all the tokens name together. `None` exactly where they name none. (MPW Rez.)
pub fn whole_file(alloc: Global, tokens: &[Token]) -> Result<Option<Bytes>, NoMemory>
    ensures { IfOk result (λ file. Decided (IsFile tokens.now) file) }
{
    if behind_texts(tokens).is_empty() {
        file_in(alloc, tokens)
    } else {
        Ok(None)
    }
}

/// The file that the texts at the front name, where one stands there. (MPW Rez.)
pub fn file_in(alloc: Global, tokens: &[Token]) -> Result<Option<Bytes>, NoMemory>
    ensures { IfOk result (λ file. file ≡ file_in tokens.now) }
{
    if begins_with_text(tokens) {
        Ok(Some(texts_at_front(alloc, tokens)?))
    } else {
        Ok(None)
    }
}

/// Whether a text stands first.
fn begins_with_text(tokens: &[Token]) -> bool
    ensures { result ≡ begins_with_text tokens.now }
{
    match tokens.split_first() {
        Some((first, _)) => matches!(first.shape, Shape::Text(_)),
        None => false,
    }
}

/// The bytes of the texts at the front.
fn texts_at_front(alloc: Global, tokens: &[Token]) -> Result<Bytes, NoMemory>
    ensures { IfOk result (λ bytes. bytes ≡ texts_at_front tokens.now) }
{
    let mut bytes = Bytes::new(alloc);
    let mut rest = tokens;
    while let Some((first, behind)) = rest.split_first() {
        match &first.shape {
            Shape::Text(piece) => {
                bytes.append(piece.as_slice())?;
                rest = behind;
            }
            _ => return Ok(bytes),
        }
    }
    Ok(bytes)
}

/// What stands after the texts at the front.
pub fn behind_texts(tokens: &[Token]) -> &[Token]
    ensures { result.now ≡ behind_texts tokens.now }
{
    let mut rest = tokens;
    while let Some((first, behind)) = rest.split_first() {
        match &first.shape {
            Shape::Text(_) => rest = behind,
            _ => return rest,
        }
    }
    rest
}
