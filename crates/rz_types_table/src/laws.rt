//! Laws of the table of declarations. How scopes stand to each other is in `specs/Scopes`.

ghost use Rattle.std.specs.Prelude.{◌≡◌, ◌∷◌, ◌++◌, ℤ, [], false, true, List, Some};
ghost use Rattle.std.specs.List.{list_any};
ghost use Rattle.rz_core.specs.declared.resource.OsType.{OsType};
ghost use Rattle.rz_types_table.specs.Scopes.{concerns, holds, is_narrower_for, PlacesDiffer};
ghost use Rattle.rz_types_table.specs.Table.{declared_behind, found, has_place, stands_at, Declaration};

/// A law, with nothing to run: the declaration that was made last is found for each id that its scope holds,
/// unless one of the type with a narrower scope holds it: this very id is narrower than a range, and a range
/// than any id.
pub fn last_declared_is_found()
    ensures { (table : List Declaration) (one : Declaration) (id : ℤ) → holds id one.scope ≡ true
        → list_any (is_narrower_for one id) table ≡ false → found one.kind id (declared_behind table one) ≡ Some one }
{}

/// A law, with nothing to run: what a declaration doesn't concern, since the type is another or its scope
/// doesn't hold the id, is found as before.
pub fn others_are_found_as_before()
    ensures { (table : List Declaration) (one : Declaration) (kind : OsType) (id : ℤ) → concerns kind id one ≡ false
        → found kind id (declared_behind table one) ≡ found kind id table }
{}

/// A law, with nothing to run: a declaration stands at the end, the others keep their order, and one of the
/// same type and scope is no more there.
pub fn order_stays()
    ensures added { (table : List Declaration) (one : Declaration) → has_place one.kind one.scope table ≡ false
        → declared_behind table one ≡ table ++ one ∷ [] }
    ensures again { (front behind : List Declaration) (old one : Declaration) → has_place one.kind one.scope front ≡ false
        → stands_at one.kind one.scope old ≡ true → declared_behind (front ++ old ∷ behind) one ≡ front ++ behind ++ one ∷ [] }
{}

/// A law, with nothing to run: no two declarations of a table are of the same type and scope: there are none
/// in a table without declarations, and a further declaration brings none.
pub fn places_stay_different()
    ensures { (table : List Declaration) (one : Declaration) → PlacesDiffer table → PlacesDiffer (declared_behind table one) }
{}
