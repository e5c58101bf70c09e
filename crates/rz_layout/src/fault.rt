//! Why a row has no bytes. How faults stand for the refusals of the definitions is in `specs/Fault`.

ghost use Rattle.std.specs.Prelude.{◌≡◌};
ghost use Rattle.rz_expr.specs.Unvalued.{fault_of};
ghost use Rattle.rz_layout.specs.Fault.{refusal_of};
ghost use Rattle.rz_types_fields.specs.Laid.{value_refusal};

use rz_expr::Unvalued;

/// Why a row has no bytes. (MPW Rez.)
#[derive(Clone, Copy, PartialEq, Eq)]
pub struct LayFault {
    /// The number of the fault.
    pub number: u16,
    /// The piece, from 0: each number of a point or a rectangle is one, and each other field that has no fields within
    /// it. Those of each row of an array follow one another in order, and so do those of the case that is chosen. At
    /// most 2^63 - 1.
    pub piece: u64,
    /// The number that the fault keeps, or 0 where it keeps none.
    pub value: i64,
}

/// Why an expression has no value, as a fault of a piece.
pub fn value_fault(fault: Unvalued<'_>, piece: u64) -> LayFault
    ensures { refusal_of result ≡ value_refusal piece (fault_of fault.entry) }
{
    let (number, value) = match fault {
        Unvalued::ZeroDivisor => (211, 0),
        Unvalued::UnknownName(_) => (203, 0),
        Unvalued::BadIndex(number) => (223, i64::from(number)),
        Unvalued::LaterData(_, end) => (213, end),
        Unvalued::DataWidth(width) => (213, i64::from(width)),
        Unvalued::BadShift(count) => (215, i64::from(count)),
    };
    LayFault {
        number,
        piece,
        value,
    }
}
