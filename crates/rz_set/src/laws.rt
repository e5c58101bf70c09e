//! Laws of finding, putting, choosing and changing. See `specs/ResSet`, `specs/Choice`, `specs/Change`.

ghost use Rattle.std.specs.Prelude.{◌≡◌, [], ℕ, ℤ, true, false, filter, fold, not, List, None, Some};
ghost use Rattle.std.specs.List.{list_any};
ghost use Rattle.rz_core.specs.Resources.{put, same_key, KeysDiffer};
ghost use Rattle.rz_core.specs.declared.resource.OsType.{OsType};
ghost use Rattle.rz_core.specs.declared.resource.Resource.{Resource};
ghost use Rattle.rz_set.specs.After.{as_list};
ghost use Rattle.rz_set.specs.Change.{change_one, changed, MayHaveId};
ghost use Rattle.rz_set.specs.Choice.{chooses, chosen, found_name};
ghost use Rattle.rz_set.specs.ResSet.{found, has_key};
ghost use Rattle.rz_set.specs.declared.pick.Head.{Head};
ghost use Rattle.rz_set.specs.declared.pick.Pick.{Pick};
ghost use Rattle.rz_set.specs.declared.pick.Pick.TheVariants.{Name};

/// A law, with nothing to run: the resource that is found by a type and an id has them, and where nothing is
/// found no resource of the list has them.
pub fn found_has_the_key()
    ensures some { (kind : OsType) (id : ℤ) (list : List Resource) (r : Resource)
        → found kind id list ≡ Some r → has_key kind id r ≡ true }
    ensures none { (kind : OsType) (id : ℤ) (list : List Resource)
        → found kind id list ≡ None → list_any (has_key kind id) list ≡ false }
{}

/// A law, with nothing to run: after a resource is put, it is the one that is found by its type and id.
pub fn put_is_found()
    ensures { (list : List Resource) (r : Resource) → found r.kind r.id (put list r) ≡ Some r }
{}

/// A law, with nothing to run: after a resource is put, what is found by any other type and id is what was
/// found before.
pub fn others_are_found_as_before()
    ensures { (list : List Resource) (r : Resource) (kind : OsType) (id : ℤ)
        → has_key kind id r ≡ false → found kind id (put list r) ≡ found kind id list }
{}

/// A law, with nothing to run: a resource that is put leaves those of other types and ids in their order.
pub fn others_stay_in_order()
    ensures { (list : List Resource) (r : Resource)
        → filter (λ x. not (same_key r x)) (put list r) ≡ filter (λ x. not (same_key r x)) list }
{}

/// A law, with nothing to run: of a list in which types and ids differ, a pick by name chooses the first
/// resource of the type with that name, and no other.
pub fn a_name_chooses_the_first()
    ensures { (kind : OsType) (name : List ℕ) (list : List Resource)
        → KeysDiffer [] list → chosen kind (Name name) list ≡ as_list (found_name kind name list) }
{}

/// A law, with nothing to run: of a list in which types and ids differ, a change of several resources leaves what
/// is left where each of them is changed alone, in order.
pub fn a_change_is_one_after_another()
    ensures { (kind : OsType) (pick : Pick) (head : Head) (list : List Resource)
        → KeysDiffer [] list → MayHaveId pick head
        → changed (chooses kind pick list) head list ≡ fold (change_one head) list (chosen kind pick list) }
{}
