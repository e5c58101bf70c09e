//! Laws of statements one after the other. They speak of `specs/Statements` of `rz_stmt_brackets` and of
//! `specs/Grammar` of `rz_stmt`.

ghost use Rattle.std.specs.Prelude.{◌≡◌, true, List, Ok, ◌++◌};
ghost use Rattle.std.specs.List.{AllByRecursion};
ghost use Rattle.rz_lex.specs.declared.token.Token.{Token};
ghost use Rattle.rz_stmt.specs.Grammar.{Parses, Statement};
ghost use Rattle.rz_stmt_brackets.specs.Statements.{has_end, AreStatements};

/// A law, with nothing to run: tokens that are a statement have a `;` outside all brackets. So the statements of tokens
/// one after the other are those of the first and then those of the others, if each of the first has such a `;`, and so
/// if each is a statement.
pub fn statements_go_on()
    ensures ended { (tokens : List Token) (statement : Statement) → Parses tokens (Ok statement) → has_end 0 tokens ≡ true }
    ensures appended { (front back : List Token) (statements others : List (List Token)) → AreStatements front statements → AreStatements back others
        → AllByRecursion (λ tokens. has_end 0 tokens ≡ true) statements → AreStatements (front ++ back) (statements ++ others) }
{}
