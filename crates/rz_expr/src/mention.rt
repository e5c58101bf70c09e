//! What expressions mention: names, each by what is asked of it, and facts. See `specs/Mention`.

ghost use Rattle.std.specs.Prelude.{◌≡◌, ◌∷◌, [], Bool, option_map};
ghost use Rattle.std.specs.List.{find};
ghost use Rattle.rz_expr.specs.Mention.{key_mentioned, mentions, name_mentioned};
ghost use Rattle.rz_expr.specs.Mention as terms;
ghost use Rattle.rz_expr.specs.Mentioned.{mention_of};
ghost use Rattle.rz_expr.specs.NameKey.{key_of};
ghost use Rattle.rz_expr.specs.Term.{term_of};

use crate::{Expr, FactWord, Key};
use rz_core::Word;

/// What an expression mentions. Names are as they are written. (MPW Rez.)
#[derive(Clone, Copy)]
pub enum Mention<'a> {
    /// A name by itself: a label, `true` or `false`, or a symbol of the field.
    Alone(&'a Word),
    /// A label in the rows of an array, with an index.
    Indexed(&'a Word),
    /// An array, by the number of its rows.
    Counted(&'a Word),
    /// An array, by the number of the row around.
    Around(&'a Word),
    /// A label, with bits after it.
    WithBits(&'a Word),
    /// A fact.
    Fact(FactWord),
}

impl<'a> Mention<'a> {
    /// The name, as it is written; `None` for a fact.
    pub fn name(self) -> Option<&'a Word>
        ensures { option_map (λ name. name.now.bytes) result ≡ name_mentioned (mention_of self.entry) }
    {
        match self {
            Mention::Alone(name)
            | Mention::Indexed(name)
            | Mention::Counted(name)
            | Mention::Around(name)
            | Mention::WithBits(name) => Some(name),
            Mention::Fact(_) => None,
        }
    }

    /// The key whose value is asked for; `None` for a fact.
    pub fn key(self) -> Option<Key<'a>>
        ensures { option_map key_of result ≡ key_mentioned (mention_of self.entry) }
    {
        match self {
            Mention::Alone(name) | Mention::WithBits(name) => Some(Key::Place(name)),
            Mention::Indexed(name) => Some(Key::Rows(name)),
            Mention::Counted(name) => Some(Key::Count(name)),
            Mention::Around(name) => Some(Key::Row(name)),
            Mention::Fact(_) => None,
        }
    }
}

/// A test of what expressions mention.
pub trait MentionTest {
    /// What passes it.
    ghost test: { Self → terms.Mention → Bool };

    /// Whether something that is mentioned passes it.
    fn passes(&self, mention: Mention<'_>) -> bool
        ensures { result ≡ test self.now (mention_of mention.entry) };
}

/// The first that an expression mentions and that passes a test: a left operand goes before the right one, the name of
/// an indexed label before its index, and the name of bits before their start, which goes before their width. It takes
/// no memory, and time and depth in proportion to the expression.
pub fn first_mention<'a, T: MentionTest>(expr: &'a Expr, test: &T) -> Option<Mention<'a>>
    ensures { option_map mention_of result ≡ find (T.test test.now) (mentions (term_of expr.now)) }
{
    match expr {
        Expr::Number(_) => None,
        Expr::Name(name) => if_passed(Mention::Alone(name), test),
        Expr::Indexed(name, index) => match if_passed(Mention::Indexed(name), test) {
            Some(mention) => Some(mention),
            None => first_mention(index, test),
        },
        Expr::Count(name) => if_passed(Mention::Counted(name), test),
        Expr::ArrayIndex(name) => if_passed(Mention::Around(name), test),
        Expr::Bits(name, start, width) => match if_passed(Mention::WithBits(name), test) {
            Some(mention) => Some(mention),
            None => match first_mention(start, test) {
                Some(mention) => Some(mention),
                None => first_mention(width, test),
            },
        },
        Expr::Fact(which) => if_passed(Mention::Fact(*which), test),
        Expr::Unary(_, operand) => first_mention(operand, test),
        Expr::Binary(_, left, right) => match first_mention(left, test) {
            Some(mention) => Some(mention),
            None => first_mention(right, test),
        },
    }
}

/// What is mentioned, where it passes a test.
fn if_passed<'a, T: MentionTest>(mention: Mention<'a>, test: &T) -> Option<Mention<'a>>
    ensures { option_map mention_of result ≡ find (T.test test.now) (mention_of mention.entry ∷ []) }
{
    if test.passes(mention) {
        Some(mention)
    } else {
        None
    }
}
