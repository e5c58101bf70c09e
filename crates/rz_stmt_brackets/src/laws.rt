//! Laws of statements, their limits, and their pieces. They speak of the definitions in `specs`.

ghost use Rattle.std.specs.Prelude.{◌≡◌, ◌↔◌, true, List, Option};
ghost use Rattle.rz_core.specs.Decided.{Decided};
ghost use Rattle.rz_lex.specs.declared.token.Token.{Token};
ghost use Rattle.rz_stmt_brackets.specs.Bracket.{IsBracketed};
ghost use Rattle.rz_stmt_brackets.specs.Limit.{is_within_limits, KeepsLimits};
ghost use Rattle.rz_stmt_brackets.specs.Pieces.{AreCut, IsParted, Parted};
ghost use Rattle.rz_stmt_brackets.specs.Statements.{AreStatements};
ghost use Rattle.rz_stmt_brackets.specs.declared.bracket.Bracket.{Bracket};
ghost use Rattle.rz_stmt_brackets.specs.declared.pieces.Divider.{Divider};

/// A law, with nothing to run: all tokens are statements.
pub fn all_tokens_are_statements()
    ensures { (tokens : List Token) → (statements : List (List Token)) × AreStatements tokens statements }
{}

/// A law, with nothing to run: a statement is within its limits exactly where after none of its fronts more
/// brackets are open than may be, and none of its rows without one of `{ } , ;` has more tokens other than
/// texts than may be.
pub fn limits_are_kept()
    ensures { (tokens : List Token) → (is_within_limits tokens ≡ true) ↔ KeepsLimits tokens }
{}

/// A law, with nothing to run: for each divider, all tokens are pieces, and they are so in one way; what stands
/// before the first such token outside brackets, and what after it, is one thing, and so is what stands in brackets
/// at the front.
pub fn pieces_are_cut()
    ensures some { (divider : Divider) (tokens : List Token) → (pieces : List (List Token)) × AreCut divider tokens pieces }
    ensures one { (divider : Divider) (tokens : List Token) (pieces others : List (List Token))
        → AreCut divider tokens pieces → AreCut divider tokens others → pieces ≡ others }
    ensures first { (divider : Divider) (tokens : List Token) (parted other : Parted)
        → IsParted divider tokens parted → IsParted divider tokens other → parted ≡ other }
    ensures within { (bracket : Bracket) (tokens : List Token) (parted other : Parted)
        → IsBracketed bracket tokens parted → IsBracketed bracket tokens other → parted ≡ other }
{}

/// A law, with nothing to run: of all tokens it is decided what stands before the first dividing token outside
/// brackets, and what after it, and what stands in brackets at their front, and after them: there is such a thing, or
/// none.
pub fn partings_are_decided()
    ensures first { (divider : Divider) (tokens : List Token) → (answer : Option Parted) × Decided (IsParted divider tokens) answer }
    ensures within { (bracket : Bracket) (tokens : List Token) → (answer : Option Parted) × Decided (IsBracketed bracket tokens) answer }
{}
