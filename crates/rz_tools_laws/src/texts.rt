//! Laws of `restring` and then `strings`. See `rz_tools`, `specs/Restring` and `specs/Strings`.

ghost use Rattle.std.specs.Prelude.{◌≡◌, ◌∷◌, [], ℕ, length, map, true, List, Ok, Some};
ghost use Rattle.std.specs.FinMap as finite;
ghost use Rattle.rz_core.specs.declared.moment.Moment.{Moment};
ghost use Rattle.rz_folder.specs.Folder.{Files};
ghost use Rattle.rz_bridge_files.specs.Contents.{IsFile};
ghost use Rattle.rz_catalog.specs.Became.{with_text};
ghost use Rattle.rz_catalog.specs.Catalogue.{IsCatalogue};
ghost use Rattle.rz_catalog_text.specs.declared.entry.Entry.{Entry};
ghost use Rattle.rz_catalog_text.specs.Text.{entries_text};
ghost use Rattle.rz_tools.specs.Program.{Answers};
ghost use Rattle.rz_tools.specs.Restring.{HasCatalogueFile, IsRestring, RestringAsked};
ghost use Rattle.rz_tools.specs.Sources.{Compiled};
ghost use Rattle.rz_tools.specs.Strings.{IsStrings, StringsAsked};
ghost use Rattle.rz_tools.specs.Types.{TypesAre};
ghost use Rattle.rz_tools_answer.specs.Answer.{shown, Answer};
ghost use Rattle.rz_tools_answer.specs.Warning.{warning_lines};
ghost use Rattle.rz_tools_answer.specs.declared.outcome.Outcome.TheVariants.{Done};
ghost use Rattle.rz_tools_output.specs.Base.{base_in, Base};
ghost use Rattle.rz_tools_laws.specs.Listed.{ListsOutput};

use rz_catalog::{every_catalogue, others_stay};
use rz_core::roman_is_one_to_one;
use rz_laws::{
    changed_forks_have_the_texts, read_files_are_kept, read_forks_need_no_data_file,
    written_forms_are_read,
};
use rz_tools_args::one_command;
use rz_unlay::{spelled_bytes_are_few, trees_are_decided};

/// A law, with nothing to run: of the file that `restring` wrote, in each form, `strings` answers the old catalogue
/// with the texts of the entries that were put in, if it reads it in that form, under type files that mean the same, at
/// the same moment.
pub fn changed_texts_are_listed()
    ensures { (words others : List (List ℕ)) (asked : RestringAsked) (listed : StringsAsked) (files after : Files) (moment : Moment) (bytes output : List ℕ) (base : Base) (answer : Answer)
        → IsRestring words asked → Answers words files moment answer → answer.outcome ≡ Done
        → finite.get files asked.file ≡ Some bytes → IsFile bytes → base_in true asked.from bytes ≡ Ok base
        → answer.writes ≡ record { name = asked.output; bytes = output } ∷ []
        → IsStrings others listed → ListsOutput moment base.form asked files listed after output
        → (compiled : Compiled) × TypesAre moment asked.types files (Ok compiled)
        × (entries : List Entry) × (own : List Entry) × HasCatalogueFile (length compiled.files) asked.catalogue (finite.get files asked.catalogue) (Ok entries)
        × IsCatalogue compiled.work.types moment base.fork.list own
        × Answers others after moment
        (shown (record { bytes = entries_text (map (with_text entries) own); said = warning_lines compiled.files compiled.work.warnings })) }
{
    changed_forks_have_the_texts();
    every_catalogue();
    others_stay();
    trees_are_decided();
    spelled_bytes_are_few();
    one_command();
    roman_is_one_to_one();
    read_files_are_kept();
    read_forks_need_no_data_file();
    written_forms_are_read();
}
