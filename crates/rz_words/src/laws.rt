//! Laws of words: each keyword and each word of an attribute is spelled in one way, and has its own role.

ghost use Rattle.std.specs.Prelude.{◌≡◌, ◌↔◌, ℕ, Bool, List, Some, true};
ghost use Rattle.std.specs.Str.{str_eq_ignore_ascii_case};
ghost use Rattle.rz_words.specs.declared.attribute.Attribute.{Attribute};
ghost use Rattle.rz_words.specs.declared.attribute.AttributeWord.{AttributeWord};
ghost use Rattle.rz_words.specs.declared.keyword.Keyword.{Keyword};
ghost use Rattle.rz_words.specs.declared.words.Role.TheVariants.{OtherName, Reserved};
ghost use Rattle.rz_words.specs.Attribute.{attribute_word, said_by, IsSaid};
ghost use Rattle.rz_words.specs.Keyword.{keyword_of, spelling};
ghost use Rattle.rz_words.specs.Words.{role_of};

/// A law, with nothing to run: a name is a keyword exactly where it is that keyword's spelling in whatever
/// case; no two keywords have one spelling; and each is reserved, as it is written in the table.
pub fn keywords_are_spelled()
    ensures keyword { (name : List ℕ) (keyword : Keyword)
        → (keyword_of name ≡ Some keyword) ↔ (str_eq_ignore_ascii_case name (spelling keyword) ≡ true) }
    ensures one { (one other : Keyword) → str_eq_ignore_ascii_case (spelling one) (spelling other) ≡ true → one ≡ other }
    ensures reserved { (keyword : Keyword) → role_of (spelling keyword) ≡ Reserved keyword }
{}

/// A law, with nothing to run: a name says something as an attribute word exactly where it is the word that
/// sets or clears a bit, in whatever case, and then it says that; and each such word may name what is no
/// label.
pub fn attribute_words_are_spelled()
    ensures word { (name : List ℕ) (word : AttributeWord) → (attribute_word name ≡ Some word) ↔ IsSaid name word }
    ensures other { (attribute : Attribute) (sets : Bool) → role_of (said_by attribute sets) ≡ OtherName }
{}
