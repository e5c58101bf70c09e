//! The row of a whole resource, after which less than a byte is left. Its end is defined in `specs/Rows`.

ghost use Rattle.std.specs.Prelude.{◌≡◌, ◌≤◌, true, length, IfOk};
ghost use Rattle.rz_bits.specs.View.{seen};
ghost use Rattle.rz_types.specs.Field.{plain_body};
ghost use Rattle.rz_types.specs.Rules.{keeps_rules};
ghost use Rattle.rz_types.specs.Shape.{is_well_shaped};
ghost use Rattle.rz_unlay.specs.Cursor.{reading};
ghost use Rattle.rz_unlay.specs.Rows.{is_end};

use crate::fields::Reader;
use rz_bits::BitView;
use rz_core::{Facts, NoMemory};
use rz_types::{keys_stand_apart, rules_hold_within};
use rz_types_fields::{Body, Row};
use rz_unlay_pieces::Learnt;
use std::alloc::Global;

/// The most values that a row has.
const MOST_VALUES: u32 = 1_048_576;

/// The row that bytes tell under these fields: after it stand fewer than eight bits, all of them 0, and it has at most
/// 1,048,576 values. Its time and memory are in proportion to what is read.
pub fn read_row(
    alloc: Global,
    body: &Body,
    bytes: &[u8],
    facts: &Facts,
) -> Result<Option<Row>, NoMemory>
    requires shaped { is_well_shaped (plain_body body.now) ≡ true }
    requires kept { keeps_rules (plain_body body.now) ≡ true }
    requires short { length bytes.now ≤ 16777212 }
    ensures { IfOk result (λ row. row ≡ reading facts.now (plain_body body.now) bytes.now) }
{
    rules_hold_within();
    keys_stand_apart();
    let view = BitView::over(bytes);
    let mut learnt = Learnt::new(alloc);
    let fields = body.as_slice();
    let reader = Reader {
        alloc,
        view: &view,
        facts,
    };
    match reader.read_body(fields, None, &mut learnt, 0, MOST_VALUES)? {
        Some(came) => {
            if is_end(&view, came.after) {
                Ok(Some(came.row))
            } else {
                Ok(None)
            }
        }
        None => Ok(None),
    }
}

/// Whether fewer than eight bits stand after a place, all of them 0.
fn is_end(view: &BitView<'_>, at: u32) -> bool
    requires { at ≤ length (seen view.now) }
    ensures { result ≡ is_end (seen view.now) at }
{
    let rest = view.len() - at;
    rest < 8 && view.are_zero(at, rest)
}
