//! How a name stands in an expression; changed only with `specs/Solve`.

ghost use Rattle.std.specs.Prelude.{◌≡◌, ◌||◌, ◌&&◌, not, if◌then◌else◌};
ghost use Rattle.rz_expr.specs.NameKey.{key_of};
ghost use Rattle.rz_expr.specs.Term.{term_of};
ghost use Rattle.rz_types_fields.specs.Solve.{can_solve, has_key, undoes_left, undoes_one, undoes_right};

use crate::is_same_key;
use rz_expr::{BinaryOp, Expr, Key, UnaryOp};

/// How a name stands in an expression.
#[derive(Clone, Copy)]
pub struct Standing {
    /// Whether it stands there.
    pub stands: bool,
    /// Whether it stands there once, below operators that can be undone alone.
    pub solved: bool,
}

/// How a name stands in an expression.
pub fn standing_of(key: Key<'_>, expr: &Expr) -> Standing
    ensures stands { result.stands ≡ has_key (key_of key.entry) (term_of expr.now) }
    ensures solved { result.solved ≡ can_solve (key_of key.entry) (term_of expr.now) }
{
    match expr {
        Expr::Number(_) | Expr::Fact(_) | Expr::ArrayIndex(_) => alone(false),
        Expr::Name(name) => alone(is_same_key(key, Key::Place(name))),
        Expr::Count(name) => alone(is_same_key(key, Key::Count(name))),
        Expr::Indexed(_, index) => Standing {
            stands: standing_of(key, index).stands,
            solved: false,
        },
        Expr::Unary(op, operand) => {
            let inner = standing_of(key, operand);
            Standing {
                stands: inner.stands,
                solved: undoes_one(*op) && inner.solved,
            }
        }
        Expr::Binary(op, left, right) => {
            beside(*op, standing_of(key, left), standing_of(key, right))
        }
        Expr::Bits(name, start, width) => Standing {
            stands: is_same_key(key, Key::Place(name))
                || standing_of(key, start).stands
                || standing_of(key, width).stands,
            solved: false,
        },
    }
}

/// How a name stands in an expression that is a name.
fn alone(same: bool) -> Standing
    ensures stands { result.stands ≡ same }
    ensures solved { result.solved ≡ same }
{
    Standing {
        stands: same,
        solved: same,
    }
}

/// How a name stands in an operator with two operands, in which it stands so.
fn beside(op: BinaryOp, left: Standing, right: Standing) -> Standing
    ensures stands { result.stands ≡ (left.stands || right.stands) }
    ensures solved { result.solved ≡ (if left.stands then undoes_left op && not right.stands && left.solved else undoes_right op && right.solved) }
{
    Standing {
        stands: left.stands || right.stands,
        solved: if left.stands {
            undoes_left(op) && !right.stands && left.solved
        } else {
            undoes_right(op) && right.solved
        },
    }
}

fn undoes_one(op: UnaryOp) -> bool
    ensures { result ≡ undoes_one op }
{
    matches!(op, UnaryOp::Minus)
}

fn undoes_left(op: BinaryOp) -> bool
    ensures { result ≡ undoes_left op }
{
    undoes_right(op)
        || matches!(
            op,
            BinaryOp::Divide | BinaryOp::ShiftLeft | BinaryOp::ShiftRight
        )
}

fn undoes_right(op: BinaryOp) -> bool
    ensures { result ≡ undoes_right op }
{
    matches!(op, BinaryOp::Plus | BinaryOp::Minus | BinaryOp::Times)
}
