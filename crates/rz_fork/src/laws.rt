//! Laws with nothing to run: admitted forks hold what a fork can hold, and admission gives the first of all broken
//! rules. See `specs/Admit`, `specs/Breaks`, `specs/Contents`.

ghost use Rattle.std.specs.Prelude.{◌≡◌, ◌<◌, ℕ, [], List, Ok};
ghost use Rattle.std.specs.List.{AllByRecursion};
ghost use Rattle.rz_core.specs.Resources.{KeysDiffer};
ghost use Rattle.rz_fork.specs.Admit.{admitted, inadmissible};
ghost use Rattle.rz_fork.specs.Breaks.{breaks, first};
ghost use Rattle.rz_fork.specs.Code.{first_tested};
ghost use Rattle.rz_fork.specs.Contents.{Fork, FitsFork};

/// A law, with nothing to run: where bytes are admitted as a fork, no two of its resources have the same
/// type and id, and each resource is one that a fork can hold.
pub fn admitted_forks_fit()
    ensures { (bytes : List ℕ) → AllByRecursion (λ b. b < 256) bytes → (fork : Fork) → admitted bytes ≡ Ok fork
        → KeysDiffer [] fork.list × AllByRecursion FitsFork fork.list }
{}

/// A law, with nothing to run: the first of all broken rules is the one that admission gives, and so none is broken
/// exactly where bytes are admitted. It is the first that is broken where the rules are tested one after the other,
/// each over the whole fork before the next.
pub fn breaks_begin()
    ensures begins { (bytes : List ℕ) → first (breaks bytes) ≡ inadmissible bytes }
    ensures tested { (bytes : List ℕ) → inadmissible bytes ≡ first_tested bytes }
{}
