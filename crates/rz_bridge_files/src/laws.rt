//! Laws: files are named in one way, and forks of resources are found to be raw. See `specs/Names`.

ghost use Rattle.std.specs.Prelude.{◌≡◌, ◌∷◌, ℕ, List, Result};
ghost use Rattle.rz_core.specs.declared.fault.Fault.{Fault};
ghost use Rattle.rz_core.specs.declared.resource.Resource.{Resource};
ghost use Rattle.rz_fork.specs.Image.{image};
ghost use Rattle.rz_bridge.specs.declared.file.MacFile.{MacFile};
ghost use Rattle.rz_bridge_files.specs.Forms.{form_of};
ghost use Rattle.rz_bridge_files.specs.declared.form.Form.{Form};
ghost use Rattle.rz_bridge_files.specs.declared.form.Form.TheVariants.{Raw};
ghost use Rattle.rz_bridge_files.specs.Names.{Named, TakesName};

use crate::{every_path_is_parted, one_parting};
use rz_pre_source::{every_source_is_read, one_text};

/// A law, with nothing to run: a file takes one name from a path, or is refused with one fault.
pub fn one_taken_name()
    ensures { (path : List ℕ) (one other : Result (List ℕ) Fault) → TakesName path one → TakesName path other → one ≡ other }
{
    one_parting();
    one_text();
}

/// A law, with nothing to run: a file that is written to a path is named in one way, or is refused with one fault.
pub fn one_named_file()
    ensures { (form : Form) (path : List ℕ) (file : MacFile) (one other : Result MacFile Fault)
        → Named form path file one → Named form path file other → one ≡ other }
{
    one_taken_name();
}

/// A law, with nothing to run: each path gives a name, or is refused with a fault, and so is each file that is written
/// to it in a form.
pub fn every_file_is_named()
    ensures name { (path : List ℕ) → (answer : Result (List ℕ) Fault) × TakesName path answer }
    ensures file { (form : Form) (path : List ℕ) (file : MacFile) → (answer : Result MacFile Fault) × Named form path file answer }
{
    every_path_is_parted();
    every_source_is_read();
    one_text();
}

/// A law, with nothing to run: the fork of a list of resources is found to be raw, whatever the resources, the
/// attributes and the reserved bytes are: it begins with two zero bytes, and all bytes that do are found to be raw.
pub fn forks_are_found_raw()
    ensures zeros { (bytes : List ℕ) → form_of (0 ∷ 0 ∷ bytes) ≡ Raw }
    ensures fork { (list : List Resource) (attributes : ℕ) (reserved : List ℕ) → form_of (image list attributes reserved) ≡ Raw }
{}
