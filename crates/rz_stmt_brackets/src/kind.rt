//! The resource type that a token is. What that is stands in `specs/Kind`.

ghost use Rattle.std.specs.Prelude.{◌≡◌};
ghost use Rattle.rz_stmt_brackets.specs.Kind.{kind_in};

use rz_lex::{Shape, Token};

/// The resource type that a token is: a literal of four bytes as a number, the first byte highest. `None` for
/// every other token. (MPW Rez.)
pub fn kind_in(token: &Token) -> Option<u32>
    ensures { result ≡ kind_in token.now.shape }
{
    match &token.shape {
        Shape::Literal(bytes) => match bytes.as_slice() {
            [a, b, c, d] => Some(u32::from_be_bytes([*a, *b, *c, *d])),
            _ => None,
        },
        _ => None,
    }
}
