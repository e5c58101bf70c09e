//! Which resources `-only` and `-skip` leave to be shown, as `specs/Chosen` says.

ghost use Rattle.std.specs.Prelude.{◌≡◌};
ghost use Rattle.rz_tools_text.specs.Chosen.{is_chosen, is_in};

use rz_core::{Listing, OsType};

/// Whether resources of a type are shown: it is one of the types of `-only`, where there are any, and none of those of
/// `-skip`.
pub fn is_chosen(only: &Listing<OsType>, skip: &Listing<OsType>, kind: OsType) -> bool
    ensures { result ≡ is_chosen only.now skip.now kind }
{
    (only.len() == 0 || is_in(only, kind)) && !is_in(skip, kind)
}

/// Whether a type is one of these.
fn is_in(kinds: &Listing<OsType>, kind: OsType) -> bool
    ensures { result ≡ is_in kinds.now kind }
{
    for one in kinds.as_slice() {
        if one.code == kind.code {
            return true;
        }
    }
    false
}
