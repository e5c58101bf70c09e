//! Laws of expressions: tokens are one at most, and values and faults stay.

ghost use Rattle.std.specs.Prelude.{◌≡◌, ℤ, List, MatchOption, Ok, Err, Option, true};
ghost use Rattle.rz_core.specs.Decided.{Decided};
ghost use Rattle.rz_lex.specs.declared.token.Token.{Token};
ghost use Rattle.rz_expr.specs.declared.value.EvalFault.{EvalFault};
ghost use Rattle.rz_expr.specs.Environment.{IsSeenIn, Sight};
ghost use Rattle.rz_expr.specs.Grammar.{IsExpression, LongestExpression, NoExpression};
ghost use Rattle.rz_expr.specs.Term.{Term};
ghost use Rattle.rz_expr.specs.Value.{stays, value_of};

/// A law, with nothing to run: tokens are at most one expression. At most one front of tokens is the
/// longest expression that begins them, and then there is no telling that none begins.
pub fn one_expression()
    ensures expression { (tokens : List Token) (term other : Term)
        → IsExpression tokens term → IsExpression tokens other → term ≡ other }
    ensures longest { (tokens rest left : List Token) (term other : Term)
        → LongestExpression tokens rest term → LongestExpression tokens left other → (rest ≡ left) × (term ≡ other) }
    ensures not_none { (tokens rest : List Token) (term : Term)
        → LongestExpression tokens rest term → NoExpression tokens → ⊥ }
{}

/// A law, with nothing to run: of all tokens it is decided which expression they are. A term is the
/// expression that they are, or none is, and there is one such answer. So it is of the fronts of the tokens: one is
/// the longest expression that begins them, or none is an expression.
pub fn expressions_are_decided()
    ensures some { (tokens : List Token) → (answer : Option Term) × Decided (IsExpression tokens) answer }
    ensures one { (tokens : List Token) (answer other : Option Term)
        → Decided (IsExpression tokens) answer → Decided (IsExpression tokens) other → answer ≡ other }
    ensures longest { (tokens : List Token) → (answer : Option (Term × List Token))
        × MatchOption answer (NoExpression tokens) (λ found. LongestExpression tokens found.1 found.0) }
{}

/// A law, with nothing to run: what is a value in one sight is the value in every sight in which all is
/// seen that is seen in the first.
pub fn values_stay()
    ensures { (known finished : Sight) → IsSeenIn known finished → (term : Term) (value : ℤ)
        → value_of term known ≡ Ok value → value_of term finished ≡ Ok value }
{}

/// A law, with nothing to run: a fault that isn't of something unseen is the fault in every sight in which
/// all is seen that is seen in the first.
pub fn faults_stay()
    ensures { (known finished : Sight) → IsSeenIn known finished → (term : Term) (fault : EvalFault)
        → stays fault ≡ true → value_of term known ≡ Err fault → value_of term finished ≡ Err fault }
{}
