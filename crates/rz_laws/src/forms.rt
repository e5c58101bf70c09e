//! Laws of the forms, over all files and bytes. See `specs/Kept`, and `rz_bridge_files`, `specs/Forms`.

ghost use Rattle.std.specs.Prelude.{◌≡◌, ℕ, [], List, Ok};
ghost use Rattle.rz_bridge.specs.declared.file.MacFile.{MacFile};
ghost use Rattle.rz_bridge_files.specs.Forms.{carried_of, content_of, written_of};
ghost use Rattle.rz_bridge_files.specs.declared.form.Form.{Form};
ghost use Rattle.rz_laws.specs.Kept.{AreBytes, IsKept};

/// A law, with nothing to run: what is written of a file in one of the five forms, where its numbers have their widths
/// and its texts and forks are bytes, is read beside its data fork as what the form carries of it.
pub fn written_forms_are_read()
    ensures { (form : Form) (file : MacFile) (bytes : List ℕ) → IsKept file → written_of form file ≡ Ok bytes
        → content_of form bytes file.data_fork ≡ Ok (carried_of form file) }
{}

/// A law, with nothing to run: the numbers of a file that is read have their widths, and its texts and forks are bytes.
pub fn read_files_are_kept()
    ensures { (form : Form) (bytes data_file : List ℕ) (file : MacFile) → AreBytes bytes → AreBytes data_file
        → content_of form bytes data_file ≡ Ok file → IsKept file }
{}

/// A law, with nothing to run: a file that is read beside a data file is read without it too, with the same resource fork.
pub fn read_forks_need_no_data_file()
    ensures { (form : Form) (bytes data_file : List ℕ) (file : MacFile) → content_of form bytes data_file ≡ Ok file
        → (alone : MacFile) × (content_of form bytes [] ≡ Ok alone) × (alone.res_fork ≡ file.res_fork) }
{}
