//! Laws of arguments: they are one command or have one misplaced argument, define no reserved word, and name each form.

ghost use Rattle.std.specs.Prelude.{◌≡◌, ◌⊎◌, ℕ, List, Some};
ghost use Rattle.rz_bridge_files.specs.Forms.{form_word};
ghost use Rattle.rz_bridge_files.specs.declared.form.Form.{Form};
ghost use Rattle.rz_pre.specs.Lexed.{HaveLexedTexts};
ghost use Rattle.rz_tools_args.specs.Definition.{AreFree};
ghost use Rattle.rz_tools_args.specs.Command.{form_named, Asked, IsCommand, IsMisplaced};
ghost use Rattle.rz_tools_args.specs.Items.{defs_of};

use rz_lex::{cut_back, every_line_is_cut, one_cut, tokens_are_lexed};
use rz_pre_source::{every_source_is_read, one_text};

/// A law, with nothing to run: words are one command at most, and where they are none, one position at most is
/// one past their longest front that begins a command.
pub fn one_command()
    ensures command { (words : List (List ℕ)) (asked others : Asked) → IsCommand words asked → IsCommand words others → asked ≡ others }
    ensures position { (words : List (List ℕ)) (position another : ℕ)
        → IsMisplaced words position → IsMisplaced words another → position ≡ another }
{
    one_cut();
    one_text();
}

/// A law, with nothing to run: all words are a command, or some position is one past their longest front that
/// begins one.
pub fn every_list_of_words_is_read()
    ensures { (words : List (List ℕ)) → ((asked : Asked) × IsCommand words asked) ⊎ ((position : ℕ) × IsMisplaced words position) }
{
    one_text();
    every_source_is_read();
    one_cut();
    every_line_is_cut();
    cut_back();
}

/// A law, with nothing to run: what the words of a command define as texts are tokens that lines can be cut into.
pub fn definitions_are_lexed()
    ensures { (words : List (List ℕ)) (asked : Asked) → IsCommand words asked → HaveLexedTexts (defs_of asked.items) }
{
    tokens_are_lexed();
}

/// A law, with nothing to run: what the words of a command define or undefine is no reserved word.
pub fn definitions_are_free()
    ensures { (words : List (List ℕ)) (asked : Asked) → IsCommand words asked → AreFree (defs_of asked.items) }
{}

/// A law, with nothing to run: the word of each form, which `list` tells on its first line, is read as that form.
pub fn words_of_forms_are_read()
    ensures { (form : Form) → form_named (form_word form) ≡ Some form }
{}
