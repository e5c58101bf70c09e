//! Laws of the rules of declarations, of keys, and of values. See `specs/Rules` and `specs/Kept`.

ghost use Rattle.std.specs.Prelude.{◌≡◌, ◌↔◌, false, true, None, Some};
ghost use Rattle.rz_expr.specs.Environment.{Environment, Sight};
ghost use Rattle.rz_expr.specs.Term.{Term};
ghost use Rattle.rz_expr.specs.Value.{value_of};
ghost use Rattle.rz_types_fields.specs.Field.{PlainBody};
ghost use Rattle.rz_types_fields.specs.Laid.{met_in};
ghost use Rattle.rz_types_fields.specs.Sees.{names_later};
ghost use Rattle.rz_types.specs.Kept.{AreKeysApart, IsKept};
ghost use Rattle.rz_types.specs.Names.{FillsRows, GivesCounts, GivesNumbers, GivesOwn, NamesNothing};
ghost use Rattle.rz_types.specs.Readable.{all_known};
ghost use Rattle.rz_types.specs.Rules.{broken, keeps_rules, unknown_name, BreaksNone, IsFirstBroken};
ghost use Rattle.rz_types.specs.Walk.{Own};
ghost use Rattle.rz_types.specs.declared.rules.TypeFault.{TypeFault};

/// A law, with nothing to run: a body has this fault first exactly where a step of the walk breaks a rule by it and
/// none before does, or where no step breaks a rule, and a step has this name that can't be named and none before has
/// one; and it breaks no rule exactly where each step keeps them.
pub fn first_broken_rule()
    ensures fault { (body : PlainBody) (fault : TypeFault) → (broken body ≡ Some fault) ↔ IsFirstBroken body fault }
    ensures kept { (body : PlainBody) → (broken body ≡ None) ↔ BreaksNone body }
{}

/// A law, with nothing to run: what keeps the rules keeps them within: widths may be, labels of one body have different
/// names, so have its arrays, the labels that stand directly in the rows of these, and the cases of a switch, the rows of an
/// array take a value, and each label and array that an expression names is one of its own body or of those around, or stands
/// directly in the rows of an array of one of these, or is an array around.
pub fn rules_hold_within()
    ensures { (body : PlainBody) → keeps_rules body ≡ true → IsKept body }
{}

/// A law, with nothing to run: where the rules are kept, each case of a switch has one key, after fields of fixed width,
/// and the keys of its cases stand at one place with one width, and have different bits; so in each switch within.
pub fn keys_stand_apart()
    ensures { (body : PlainBody) → keeps_rules body ≡ true → AreKeysApart body }
{}

/// A law, with nothing to run: an expression names nothing that has no value where each of its names has one, arrays around have
/// numbers and labels in rows places in all of them; and each has one where it names only labels and arrays that have: in the
/// end all of its body and of those around, and before that all arrays, if it names no label that stands later.
pub fn named_values_are_there()
    ensures values { (scope : Own) (sight : Sight) (term : Term) → GivesNumbers scope.around sight.names → FillsRows sight.names → unknown_name scope term ≡ None
        → all_known (met_in sight.names) (met_in sight.names) term ≡ true → NamesNothing (value_of term sight) }
    ensures names { (scope : Own) (names : Environment) (term : Term) → GivesOwn scope names → unknown_name scope term ≡ None
        → all_known (met_in names) (met_in names) term ≡ true }
    ensures early { (scope : Own) (names : Environment) (term : Term) → GivesCounts scope.arrays names → unknown_name scope term ≡ None
        → names_later (met_in names) term ≡ false → all_known (met_in names) (met_in names) term ≡ true }
{}
