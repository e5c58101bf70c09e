//! Laws of the forms of written files, and of names of data files. See `specs/Forms` and `specs/DataFile`.

ghost use Rattle.std.specs.Prelude.{◌≡◌, nat_eq, ℕ, List, false, Ok};
ghost use Rattle.std.specs.List.{starts_with};
ghost use Rattle.rz_bridge.specs.Apple.{apple_image};
ghost use Rattle.rz_bridge.specs.MacBinary.{macbin_content};
ghost use Rattle.rz_bridge.specs.declared.apple.AppleForm.TheVariants.{Double, Single};
ghost use Rattle.rz_bridge.specs.declared.file.MacFile.{MacFile};
ghost use Rattle.rz_hqx.specs.Text.{text_of};
ghost use Rattle.rz_folder.specs.Temporary.{IsParted};
ghost use Rattle.rz_bridge_files.specs.DataFile.{IsDataFile};
ghost use Rattle.rz_bridge_files.specs.Forms.{double_magic, single_magic, form_of};
ghost use Rattle.rz_bridge_files.specs.declared.form.Form.TheVariants.{AppleDouble, AppleSingle, MacBinary, BinHex};

/// A law, with nothing to run: what is written in AppleDouble, AppleSingle and BinHex is found to be in that form. What
/// the reader of MacBinary takes is found to be MacBinary, unless it begins as AppleDouble or AppleSingle does, as a
/// name of 5 bytes can make it.
pub fn written_forms_are_found()
    ensures double { (file : MacFile) → form_of (apple_image Double file) ≡ AppleDouble }
    ensures single { (file : MacFile) → form_of (apple_image Single file) ≡ AppleSingle }
    ensures macbin { (bytes : List ℕ) (file : MacFile) → macbin_content bytes ≡ Ok file
        → starts_with nat_eq bytes double_magic ≡ false → starts_with nat_eq bytes single_magic ≡ false → form_of bytes ≡ MacBinary }
    ensures hqx { (bytes : List ℕ) → form_of (text_of bytes) ≡ BinHex }
{}

/// A law, with nothing to run: a header file of AppleDouble has one data file.
pub fn one_data_file()
    ensures { (header name also : List ℕ) → IsDataFile header name → IsDataFile header also → name ≡ also }
{}

/// A law, with nothing to run: a path parts in one way into its folder part and its last name.
pub fn one_parting()
    ensures { (path folder last twin behind : List ℕ) → IsParted path folder last → IsParted path twin behind → (folder ≡ twin) × (last ≡ behind) }
{}

/// A law, with nothing to run: each path parts into a folder part and a last name.
pub fn every_path_is_parted()
    ensures { (path : List ℕ) → (folder last : List ℕ) × IsParted path folder last }
{}

/// A law, with nothing to run: each header file of AppleDouble has a data file.
pub fn every_header_has_a_data_file()
    ensures { (header : List ℕ) → (name : List ℕ) × IsDataFile header name }
{}
