//! Laws of the order in which a fork has its resources. See `rz_fork`, `specs/Image` and `specs/Admit`.

ghost use Rattle.std.specs.Prelude.{◌≡◌, ◌<◌, ◌≤◌, ◌^◌, ℕ, [], length, List, Ok};
ghost use Rattle.std.specs.List.{AllByRecursion};
ghost use Rattle.rz_core.specs.Resources.{KeysDiffer};
ghost use Rattle.rz_core.specs.declared.resource.Resource.{Resource};
ghost use Rattle.rz_fork.specs.Admit.{admitted};
ghost use Rattle.rz_fork.specs.Contents.{FitsFork, Fork};
ghost use Rattle.rz_fork.specs.Image.{fork_of, grouped};
ghost use Rattle.rz_laws.specs.Kept.{AreBytes};

/// A law, with nothing to run: an admitted fork has its resources type by type, the types in the order of their first
/// resources: so to group them changes nothing.
pub fn admitted_lists_are_grouped()
    ensures { (bytes : List ℕ) (fork : Fork) → admitted bytes ≡ Ok fork → grouped fork.list ≡ fork.list }
{}

/// A law, with nothing to run: the fork of a list that is grouped first is that of the list, or the same limit is passed.
pub fn grouping_changes_no_fork()
    ensures { (list : List Resource) (attributes : ℕ) (reserved : List ℕ) → fork_of (grouped list) attributes reserved ≡ fork_of list attributes reserved }
{}

/// A law, with nothing to run: the fork of resources that a fork can hold, whose types and ids differ, is the fork of the
/// list as which it is admitted.
pub fn written_forks_are_of_their_lists()
    ensures { (list : List Resource) (attributes : ℕ) (reserved bytes : List ℕ) → KeysDiffer [] list → AllByRecursion FitsFork list
        → attributes < 2 ^ 16 → length reserved ≤ 240 → fork_of list attributes reserved ≡ Ok bytes
        → (fork : Fork) × (admitted bytes ≡ Ok fork) × (fork.list ≡ grouped list) × (fork_of fork.list attributes reserved ≡ Ok bytes) }
{}

/// A law, with nothing to run: the fork of resources that a fork can hold, with bytes as its reserved ones, is bytes.
pub fn written_forks_are_bytes()
    ensures { (list : List Resource) (attributes : ℕ) (reserved bytes : List ℕ) → AllByRecursion FitsFork list → AreBytes reserved
        → fork_of list attributes reserved ≡ Ok bytes → AreBytes bytes }
{}
