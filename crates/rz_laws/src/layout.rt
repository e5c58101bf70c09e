//! Laws of where a row is refused, and of what its late numbers have then.

ghost use Rattle.std.specs.Prelude.{◌≡◌, ◌↔◌, true, Err, List, None};
ghost use Rattle.rz_core.specs.declared.facts.Facts.{Facts};
ghost use Rattle.rz_laws.specs.Flat.{alone, flat_row, nothing_drafted, steps_drafted};
ghost use Rattle.rz_laws.specs.RefusedAt.{IsRefusedAt, IsRefusedNumber};
ghost use Rattle.rz_laws.specs.RefusedNumber.{IsWithoutValue};
ghost use Rattle.rz_types.specs.Rules.{keeps_rules};
ghost use Rattle.rz_types_fields.specs.Field.{PlainBody};
ghost use Rattle.rz_types_fields.specs.Laid.{laid, nothing_laid, row_laid, Refusal};
ghost use Rattle.rz_types_fields.specs.Row.{IsRow};
ghost use Rattle.rz_types_fields.specs.declared.tree.Tree.{Tree};

use rz_types::rules_hold_within;

/// A law, with nothing to run: a row is refused exactly at the first of its pieces that isn't laid after those before it, or,
/// where all pieces are laid, at the first late number that has no bits once those before it stand in their places.
///
/// The refusal has the number of pieces before that piece, or before that of the number, at most 9,223,372,036,854,775,807,
/// and is the one with which the piece isn't laid, or with which the number has no bits. And to lay a row is to draft its
/// pieces in one list, each after the one before, between the fronts and the ends of bodies, of arrays and of cases.
pub fn refused_at()
    ensures refused { (known : Facts) (body : PlainBody) (row : List Tree) (fault : Refusal)
        → (laid known body row ≡ Err fault) ↔ IsRefusedAt known body row fault }
    ensures drafted { (known : Facts) (body : PlainBody) (row : List Tree)
        → steps_drafted known nothing_drafted (flat_row body row)
        ≡ alone (row_laid known None body nothing_laid row) }
{}

/// A law, with nothing to run: where a row is refused at a late number, this has no value in the range of its field, by
/// the finished names of the body of its piece, and all pieces before it stand in their places.
///
/// The fields keep the rules. There is a list of the row's pieces, in bodies with finished names, and each has its place
/// after those before it. One is late, and its expression, as seen from that place, has no value in range. Each piece
/// before it stands there as in a row that is spelled, late or not, and each after it does if it isn't late. While the row
/// is laid, all that a piece is shown of names, bits and facts is so in the end. The refusal has the number of pieces
/// before it, at most 9,223,372,036,854,775,807.
pub fn late_numbers_have_no_value()
    ensures { (known : Facts) (body : PlainBody) (row : List Tree) (fault : Refusal)
        → keeps_rules body ≡ true → IsRow body row → IsRefusedNumber known body row fault
        → IsWithoutValue known body row fault }
{
    rules_hold_within();
}
