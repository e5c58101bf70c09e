//! Laws of sources and directives: a source has one text or one first fault, and a line's word is its directive.

ghost use Rattle.std.specs.Prelude.{◌≡◌, ◌≢◌, ◌↔◌, ◌⊎◌, ℕ, true, false, List, [], ◌∷◌, ◌++◌, Some};
ghost use Rattle.rz_lex.specs.Classes.{AreBlanks, is_blank, is_word_byte};
ghost use Rattle.rz_lex.specs.Extent.{are_word_bytes};
ghost use Rattle.rz_lex.specs.Printed.{begins_word};
ghost use Rattle.rz_pre_source.specs.Directive.{behind_hash, directive_in, has_parameters, named, starts_with, unblanked};
ghost use Rattle.rz_pre_source.specs.Source.{IsBadAt, IsTextOf};
ghost use Rattle.rz_pre_source.specs.declared.directive.Directive.TheVariants.{Empty, Other};

/// A law, with nothing to run: a source has at most one text, at most one first fault, and never both.
pub fn one_text()
    ensures text { (source text other : List ℕ) → IsTextOf source text → IsTextOf source other → text ≡ other }
    ensures fault { (source : List ℕ) (offset other : ℕ) → IsBadAt source offset → IsBadAt source other → offset ≡ other }
    ensures not_both { (source text : List ℕ) (offset : ℕ) → IsTextOf source text → IsBadAt source offset → ⊥ }
{}

/// A law, with nothing to run: each source has a text, or a first fault.
pub fn every_source_is_read()
    ensures { (source : List ℕ) → ((text : List ℕ) × IsTextOf source text) ⊎ ((offset : ℕ) × IsBadAt source offset) }
{}

/// A law, with nothing to run: a text stands after the `#` of a line exactly where the line is blanks, `#` and
/// that text. The text is the directive of its first word, whatever stands after the word; blanks alone are the
/// directive that does nothing, and where anything but a word stands first, the directive is none of the known.
/// A second word, after blanks, has parameters exactly where `(` stands directly after it.
pub fn directives_are_lines()
    ensures hash { (line text : List ℕ)
        → (behind_hash (unblanked line) ≡ Some text)
        ↔ ((blanks : List ℕ) × AreBlanks blanks × (line ≡ blanks ++ 35 ∷ text)) }
    ensures word { (blanks word after : List ℕ)
        → AreBlanks blanks → word ≢ [] → are_word_bytes word ≡ true → begins_word after ≡ false
        → directive_in (unblanked (blanks ++ word ++ after)) ≡ named word }
    ensures empty { (blanks : List ℕ)
        → AreBlanks blanks → directive_in (unblanked blanks) ≡ Empty }
    ensures unnamed { (blanks : List ℕ) (byte : ℕ) (after : List ℕ)
        → AreBlanks blanks → is_blank byte ≡ false → is_word_byte byte ≡ false
        → directive_in (unblanked (blanks ++ byte ∷ after)) ≡ Other }
    ensures parameters { (blanks word gap name after : List ℕ)
        → AreBlanks blanks → word ≢ [] → are_word_bytes word ≡ true → AreBlanks gap → gap ≢ []
        → name ≢ [] → are_word_bytes name ≡ true → begins_word after ≡ false
        → has_parameters (blanks ++ (word ++ (gap ++ (name ++ after)))) ≡ starts_with 40 after }
{}
