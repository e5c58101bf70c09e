//! Protected resources, which are touched only where that is allowed. See `specs/After`.

ghost use Rattle.std.specs.Prelude.{◌≡◌};
ghost use Rattle.std.specs.Option.{option_copied};
ghost use Rattle.rz_set.specs.After.{as_list, forbidden};

use crate::pick::SetFault;
use rz_core::Resource;

/// The fault of a resource that is protected and may not be touched, if it is there.
pub fn forbidden(held: Option<&Resource>, over: bool) -> Option<SetFault>
    ensures { result ≡ forbidden over (as_list (option_copied held.entry)) }
{
    match held {
        Some(resource) if !over && resource.is_protected() => {
            Some(SetFault::Protected(resource.kind, resource.id))
        }
        _ => None,
    }
}
