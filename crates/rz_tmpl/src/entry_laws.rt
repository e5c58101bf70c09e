//! Laws of cuts. See `specs/Cut` and `specs/Faults`.

ghost use Rattle.std.specs.Prelude.{◌≡◌, ℕ, List, Err};
ghost use Rattle.std.specs.declared.result.Result.{Result};
ghost use Rattle.rz_tmpl.specs.Cut.{IsCut};
ghost use Rattle.rz_tmpl.specs.Faults.{IsSayable};
ghost use Rattle.rz_tmpl.specs.Items.{Items};
ghost use Rattle.rz_tmpl.specs.declared.fault.TmplFault.{TmplFault};

/// A law, with nothing to run: the bytes of a template are cut in one way, into the entries of one body or up to one
/// fault.
pub fn one_cut()
    ensures { (bytes : List ℕ) (one other : Result Items TmplFault) → IsCut bytes one → IsCut bytes other → one ≡ other }
{}

/// A law, with nothing to run: all bytes are cut, into the entries of a body or up to a fault.
pub fn every_tmpl_is_cut()
    ensures { (bytes : List ℕ) → (cut : Result Items TmplFault) × IsCut bytes cut }
{}

/// A law, with nothing to run: the fault of a template has one of the numbers 451 to 456.
pub fn tmpl_faults_are_sayable()
    ensures { (bytes : List ℕ) (fault : TmplFault) → IsCut bytes (Err fault) → IsSayable fault }
{}
