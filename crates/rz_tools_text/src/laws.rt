//! Laws of the text of resources: a list has exactly one.

ghost use Rattle.std.specs.Prelude.{◌≡◌, ℕ, List};
ghost use Rattle.rz_core.specs.declared.resource.Resource.{Resource};
ghost use Rattle.rz_show.specs.Showing.{Showing};
ghost use Rattle.rz_tools_text.specs.Shown.{IsShownBy, Known};
ghost use Rattle.rz_tools_text.specs.Text.{ShowsEach};

use rz_unlay::{one_tree, trees_are_decided};

/// A law, with nothing to run: a resource is shown in one way at most, and a list of resources by one text.
pub fn one_shown_text()
    ensures showing { (known : Known) (r : Resource) (one other : Showing) → IsShownBy known r one → IsShownBy known r other → one ≡ other }
    ensures text { (known : Known) (list : List Resource) (one other : List ℕ) → ShowsEach known list one → ShowsEach known list other → one ≡ other }
{
    one_tree();
}

/// A law, with nothing to run: each list of resources is shown by a text; [`one_shown_text`] says that it is by no
/// other.
pub fn every_list_is_shown()
    ensures { (known : Known) (list : List Resource) → (text : List ℕ) × ShowsEach known list text }
{
    trees_are_decided();
    one_tree();
}
