//! The signs of the language, of one byte or of two; a new sign changes `specs/Sign` too.

ghost use Rattle.std.specs.Prelude.{◌≡◌};
ghost use Rattle.rz_lex.specs.Sign.{sign_of, sign_of_one, sign_of_two};

/// A sign of the language, in the order `{ } ( ) [ ] , ; : = + - * / % << >> < <= > >= == != & && | || ^
/// ~ !`. (MPW Rez.)
#[derive(Clone, Copy, Debug, PartialEq, Eq)]
pub enum Sign {
    /// `{`
    OpenBrace,
    /// `}`
    CloseBrace,
    /// `(`
    OpenParen,
    /// `)`
    CloseParen,
    /// `[`
    OpenBracket,
    /// `]`
    CloseBracket,
    /// `,`
    Comma,
    /// `;`
    Semicolon,
    /// `:`
    Colon,
    /// `=`
    Equals,
    /// `+`
    Plus,
    /// `-`
    Minus,
    /// `*`
    Star,
    /// `/`
    Slash,
    /// `%`
    Percent,
    /// `<<`
    ShiftLeft,
    /// `>>`
    ShiftRight,
    /// `<`
    Less,
    /// `<=`
    LessEqual,
    /// `>`
    Greater,
    /// `>=`
    GreaterEqual,
    /// `==`
    EqualEqual,
    /// `!=`
    NotEqual,
    /// `&`
    And,
    /// `&&`
    AndAnd,
    /// `|`
    Or,
    /// `||`
    OrOr,
    /// `^`
    Caret,
    /// `~`
    Tilde,
    /// `!`
    Bang,
}

/// The sign that one byte is.
pub fn sign_of_one(byte: u8) -> Option<Sign>
    ensures { result ≡ sign_of_one byte }
{
    match byte {
        b'{' => Some(Sign::OpenBrace),
        b'}' => Some(Sign::CloseBrace),
        b'(' => Some(Sign::OpenParen),
        b')' => Some(Sign::CloseParen),
        b'[' => Some(Sign::OpenBracket),
        b']' => Some(Sign::CloseBracket),
        b',' => Some(Sign::Comma),
        b';' => Some(Sign::Semicolon),
        b':' => Some(Sign::Colon),
        b'=' => Some(Sign::Equals),
        b'+' => Some(Sign::Plus),
        b'-' => Some(Sign::Minus),
        b'*' => Some(Sign::Star),
        b'/' => Some(Sign::Slash),
        b'%' => Some(Sign::Percent),
        b'<' => Some(Sign::Less),
        b'>' => Some(Sign::Greater),
        b'&' => Some(Sign::And),
        b'|' => Some(Sign::Or),
        b'^' => Some(Sign::Caret),
        b'~' => Some(Sign::Tilde),
        b'!' => Some(Sign::Bang),
        _ => None,
    }
}

/// The sign that two bytes are.
pub fn sign_of_two(first: u8, second: u8) -> Option<Sign>
    ensures { result ≡ sign_of_two first second }
{
    if second == b'=' {
        match first {
            b'<' => Some(Sign::LessEqual),
            b'>' => Some(Sign::GreaterEqual),
            b'=' => Some(Sign::EqualEqual),
            b'!' => Some(Sign::NotEqual),
            _ => None,
        }
    } else if first == second {
        match first {
            b'<' => Some(Sign::ShiftLeft),
            b'>' => Some(Sign::ShiftRight),
            b'&' => Some(Sign::AndAnd),
            b'|' => Some(Sign::OrOr),
            _ => None,
        }
    } else {
        None
    }
}

/// The sign that these bytes are.
pub fn sign_of(bytes: &[u8]) -> Option<Sign>
    ensures { result ≡ sign_of bytes.now }
{
    match bytes {
        [first] => sign_of_one(*first),
        [first, second] => sign_of_two(*first, *second),
        _ => None,
    }
}
