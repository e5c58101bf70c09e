//! Rows under a 'TMPL' resource, and the whole text of a resource by its row and by its bytes.

ghost use Rattle.std.specs.Prelude.{IfSome};
ghost use Rattle.rz_types_fields.specs.Row.{IsRow};
ghost use Rattle.rz_types.specs.Template.{template_of};

use rz_core::{Attr, Bytes, Facts, Moment, OsType};
use rz_show::{Hidden, show_bytes, show_row};
use rz_tmpl::template_of;
use rz_tmpl_laws::tmpl_read;
use rz_types::Template;
use rz_types_fields::{Row, Tree};
use rz_unlay::{Reading, read};
use std::process::Abort;

/// A template of a byte and a string, and the bytes of a resource of it, 255 and `gorf`.
const TEMPLATE: &[u8] = b"\x01aDBYT\x01aPSTR";

const BYTES: &[u8] = b"\xFF\x04gorf";

/// The text of the resource by its row, and by its bytes.
const BY_ROW: &[u8] =
    b"resource 'gorf' (-5, \"N\", sysheap, locked) {\n    -1,\n    \"gorf\"\n};\n\n";

const BY_BYTES: &[u8] =
    b"data 'gorf' (-5, \"N\", sysheap, locked) {\n    $\"FF04 676F 7266\"\n};\n\n";

/// What is known of the resource.
fn gorf(rt: &(impl Abort + AllocGlobal)) -> Facts {
    Facts {
        kind: OsType { code: 0x676F_7266 },
        id: -5,
        name: Bytes::of(rt.alloc(), b"N").expect(rt, "memory"),
        attr: Attr::of(0x50),
        moment: Moment::of_unix(0).ok_or("no moment").expect(rt, "a moment"),
    }
}

/// The row that is read of the bytes, where there is one.
fn row_of(rt: &(impl Abort + AllocGlobal), template: &Template, facts: &Facts) -> Option<Row>
    ensures { IfSome result (IsRow (template_of template.now)) }
{
    match read(rt.alloc(), template, BYTES, facts).expect(rt, "memory") {
        Reading::Tree(row) => Some(row),
        Reading::NoTree => None,
    }
}

/// Reads a row under a template, and shows a resource by its row and by its bytes.
pub fn try_rows(rt: &(impl Abort + AllocGlobal)) {
    let facts = gorf(rt);
    let Ok(Reading::Tree(row)) = tmpl_read(rt.alloc(), TEMPLATE, BYTES, &facts) else {
        panic!(rt; "no row");
    };
    let is_right = is_gorf(row.as_slice());
    drop(row);
    if !is_right {
        panic!(rt; "another row");
    }
    if text_by_row(rt, &facts).as_slice() != BY_ROW {
        panic!(rt; "another text by a row");
    }
    let text = show_bytes(rt.alloc(), &facts, BYTES).expect(rt, "memory");
    if text.as_slice() != BY_BYTES {
        panic!(rt; "another text by bytes");
    }
}

/// Whether a row is 255 and `gorf`.
fn is_gorf(row: &[Tree]) -> bool {
    match row {
        [Tree::Number(255), Tree::Text(text)] => text.as_slice() == b"gorf".as_slice(),
        _ => false,
    }
}

/// The text of the resource by its row.
fn text_by_row(rt: &(impl Abort + AllocGlobal), facts: &Facts) -> Bytes {
    let Ok(template) = template_of(rt.alloc(), TEMPLATE) else {
        panic!(rt; "no template");
    };
    let Some(row) = row_of(rt, &template, facts) else {
        panic!(rt; "no row");
    };
    let hidden = Hidden::of(rt.alloc(), &[]).expect(rt, "memory");
    let fields = template.body().as_slice();
    let text = show_row(rt.alloc(), facts, fields, row.as_slice(), &hidden).expect(rt, "memory");
    drop(hidden);
    drop(row);
    drop(template);
    text
}
