//! Constants: expressions without names and functions, and their values. They are defined in `specs/Constant`.

ghost use Rattle.std.specs.Prelude.{◌≡◌, IfOk, option_map};
ghost use Rattle.rz_expr.specs.Constant.{constant_of, constant_sight, is_constant, IsConstant};
ghost use Rattle.rz_expr.specs.Term.{term_of};
ghost use Rattle.rz_core.specs.Decided.{Decided};

use crate::{
    Env, Expr, FactWord, Key, one_expression, predefined, read_whole, value_in, value_outside,
};
use rz_core::NoMemory;
use rz_lex::Token;
use std::alloc::Global;

/// What an expression sees that stands for itself: `true` and `false` alone have a value.
pub struct ConstantEnv;

impl Env for ConstantEnv {
    ghost view = { λ _. constant_sight };

    fn give(&self, key: Key<'_>) -> Option<i128> {
        value_outside(key)
    }

    fn bits(&self, _first: i64, _width: i32) -> Option<u32> {
        None
    }

    fn fact(&self, _which: FactWord) -> i32 {
        0
    }
}

/// Whether an expression is a constant: it has no names but `true` and `false`, and no `$$` functions. (MPW
/// Rez.)
pub fn is_constant(expr: &Expr) -> bool
    ensures { result ≡ is_constant (term_of expr.now) }
{
    match expr {
        Expr::Number(_) => true,
        Expr::Name(name) => predefined(name).is_some(),
        Expr::Indexed(..) | Expr::Count(_) | Expr::ArrayIndex(_) | Expr::Bits(..) | Expr::Fact(_) =>
            false,
        Expr::Unary(_, operand) => is_constant(operand),
        Expr::Binary(_, left, right) => is_constant(left) && is_constant(right),
    }
}

/// The constant that the tokens are: an expression without names other than `true` and `false`, and without
/// `$$` functions. (MPW Rez.)
pub fn read_constant(alloc: Global, tokens: &[Token]) -> Result<Option<Expr>, NoMemory>
    ensures { IfOk result (λ expr. Decided (IsConstant tokens.now) (option_map term_of expr)) }
{
    one_expression();
    match read_whole(alloc, tokens)? {
        Some(expr) => {
            if is_constant(&expr) {
                Ok(Some(expr))
            } else {
                Ok(None)
            }
        }
        None => Ok(None),
    }
}

/// The value of an expression that is a constant and has one, and `None` for every other. It takes no
/// memory.
pub fn constant_of(expr: &Expr) -> Option<i32>
    ensures { result ≡ constant_of (term_of expr.now) }
{
    if !is_constant(expr) {
        return None;
    }
    match value_in(expr, &ConstantEnv) {
        Ok(value) => Some(value),
        Err(_) => None,
    }
}
