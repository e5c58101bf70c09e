//! Laws of lines and tokens: one answer for each, and tokens that are written are cut again as they were.

ghost use Rattle.std.specs.Prelude.{◌≡◌, ◌⊎◌, ◌<◌, ◌≤◌, ◌^◌, ℕ, List, [], ◌∷◌, ◌++◌, false, length, None, Some, true};
ghost use Rattle.std.specs.List.{AllByRecursion};
ghost use Rattle.rz_core.specs.Decimal.{decimal_of};
ghost use Rattle.rz_core.specs.Quoted.{quoted};
ghost use Rattle.rz_core.specs.declared.fault.Fault.{Fault};
ghost use Rattle.rz_core.specs.declared.fault.Mark.{Mark};
ghost use Rattle.rz_lex.specs.Classes.{is_blank, is_digit, is_hex_digit};
ghost use Rattle.rz_lex.specs.Cutting.{Cuts, Next, Refuses};
ghost use Rattle.rz_lex.specs.Digits.{number_value};
ghost use Rattle.rz_lex.specs.Extent.{are_word_bytes};
ghost use Rattle.rz_lex.specs.Hex.{hex_value};
ghost use Rattle.rz_lex.specs.Joined.{joined};
ghost use Rattle.rz_lex.specs.Lexed.{Lexes, LexFails};
ghost use Rattle.rz_lex.specs.Lexeme.{AreLexed};
ghost use Rattle.rz_lex.specs.Lines.{HasLines};
ghost use Rattle.rz_lex.specs.Page.{lines_from, page, StandsOnPage};
ghost use Rattle.rz_lex.specs.Printed.{begins_word, goes_on, is_word, token_of, word_of, AreBytes};
ghost use Rattle.rz_lex.specs.Sign.{sign_text};
ghost use Rattle.rz_lex.specs.Spelled.{digits_of, SpellsBytes};
ghost use Rattle.rz_lex.specs.declared.joined.Placed.{Placed};
ghost use Rattle.rz_lex.specs.declared.sign.Sign.{Sign};
ghost use Rattle.rz_lex.specs.declared.token.Shape.TheVariants as shapes;
ghost use Rattle.rz_lex.specs.declared.token.Token.{Token};

/// A law, with nothing to run: a line has at most one list of tokens, at most one first fault, and never
/// both.
pub fn one_cut()
    ensures tokens { (mark : Mark) (line : List ℕ) (tokens others : List Token)
        → Cuts mark line tokens → Cuts mark line others → tokens ≡ others }
    ensures fault { (mark : Mark) (line : List ℕ) (fault other : Fault)
        → Refuses mark line fault → Refuses mark line other → fault ≡ other }
    ensures not_both { (mark : Mark) (line : List ℕ) (tokens : List Token) (fault : Fault)
        → Cuts mark line tokens → Refuses mark line fault → ⊥ }
{}

/// A law, with nothing to run: each line has a list of tokens or a first fault.
pub fn every_line_is_cut()
    ensures { (mark : Mark) (line : List ℕ)
        → ((tokens : List Token) × Cuts mark line tokens) ⊎ ((fault : Fault) × Refuses mark line fault) }
{}

/// A law, with nothing to run: each text has a list of tokens or a first fault.
pub fn every_text_is_lexed()
    ensures { (file : ℕ) (text : List Placed)
        → ((tokens : List Token) × Lexes file text tokens) ⊎ ((fault : Fault) × LexFails file text fault) }
{}

/// A law, with nothing to run: the tokens of a line are words of at most 255 bytes, numbers below 2^32,
/// literals of one to four bytes, texts and signs.
pub fn tokens_are_lexed()
    ensures { (mark : Mark) (line : List ℕ) (tokens : List Token) → Cuts mark line tokens → AreLexed tokens }
{}

/// A law, with nothing to run: a token that is written as its text (a word or number of at most 255 bytes, a literal of
/// one to four bytes) is the next token of a line that begins with it, for any text after it that does not go on with
/// it. Digits of a number below 2^32 have that number in each base, with whatever zeros before them, and digits of
/// bytes those bytes, with whatever blanks between. A line is the next token and the tokens of what follows; blanks in
/// front change nothing.
pub fn cut_back()
    ensures word { (mark : Mark) (word after : List ℕ)
        → is_word word ≡ true → length word ≤ 255 → begins_word after ≡ false
        → Next mark (word ++ after) (token_of mark (word_of word)) after }
    ensures number { (mark : Mark) (number : ℕ) (after : List ℕ)
        → number < 2 ^ 32 → begins_word after ≡ false
        → Next mark (decimal_of number ++ after) (token_of mark (shapes.Number number)) after }
    ensures spelled { (mark : Mark) (digit : ℕ) (digits after : List ℕ) (number : ℕ)
        → is_digit digit ≡ true → are_word_bytes digits ≡ true → length (digit ∷ digits) ≤ 255
        → number_value (digit ∷ digits) ≡ Some number → begins_word after ≡ false
        → Next mark ((digit ∷ digits) ++ after) (token_of mark (shapes.Number number)) after }
    ensures dollar { (mark : Mark) (digit : ℕ) (digits after : List ℕ) (number : ℕ)
        → is_hex_digit digit ≡ true → are_word_bytes digits ≡ true → length (36 ∷ digit ∷ digits) ≤ 255
        → number_value (36 ∷ digit ∷ digits) ≡ Some number → begins_word after ≡ false
        → Next mark ((36 ∷ digit ∷ digits) ++ after) (token_of mark (shapes.Number number)) after }
    ensures literal { (mark : Mark) (bytes after : List ℕ)
        → AreBytes bytes → 0 < length bytes → length bytes ≤ 4
        → Next mark (quoted 39 bytes ++ after) (token_of mark (shapes.Literal bytes)) after }
    ensures text { (mark : Mark) (bytes after : List ℕ)
        → AreBytes bytes
        → Next mark (quoted 34 bytes ++ after) (token_of mark (shapes.Text bytes)) after }
    ensures hex { (mark : Mark) (text bytes after : List ℕ)
        → hex_value text ≡ Some bytes
        → Next mark ((36 ∷ 34 ∷ (text ++ 34 ∷ [])) ++ after) (token_of mark (shapes.Text bytes)) after }
    ensures octal { (mark : Mark) (count number : ℕ) (after : List ℕ)
        → 0 < count → count ≤ 254 → number < 2 ^ 32 → number < 8 ^ count → begins_word after ≡ false
        → Next mark ((48 ∷ digits_of 8 count number) ++ after) (token_of mark (shapes.Number number)) after }
    ensures hexadecimal { (mark : Mark) (letter count number : ℕ) (after : List ℕ)
        → (letter ≡ 120) ⊎ (letter ≡ 88) → 0 < count → count ≤ 253 → number < 2 ^ 32 → number < 16 ^ count → begins_word after ≡ false
        → Next mark ((48 ∷ letter ∷ digits_of 16 count number) ++ after) (token_of mark (shapes.Number number)) after }
    ensures binary { (mark : Mark) (letter count number : ℕ) (after : List ℕ)
        → (letter ≡ 98) ⊎ (letter ≡ 66) → 0 < count → count ≤ 253 → number < 2 ^ 32 → number < 2 ^ count → begins_word after ≡ false
        → Next mark ((48 ∷ letter ∷ digits_of 2 count number) ++ after) (token_of mark (shapes.Number number)) after }
    ensures dollar_digits { (mark : Mark) (count number : ℕ) (after : List ℕ)
        → 0 < count → count ≤ 254 → number < 2 ^ 32 → number < 16 ^ count → begins_word after ≡ false
        → Next mark ((36 ∷ digits_of 16 count number) ++ after) (token_of mark (shapes.Number number)) after }
    ensures hex_bytes { (mark : Mark) (text bytes after : List ℕ)
        → AreBytes bytes → SpellsBytes text bytes
        → Next mark ((36 ∷ 34 ∷ (text ++ 34 ∷ [])) ++ after) (token_of mark (shapes.Text bytes)) after }
    ensures sign { (mark : Mark) (sign : Sign) (after : List ℕ)
        → goes_on (sign_text sign) after ≡ false
        → Next mark (sign_text sign ++ after) (token_of mark (shapes.Sign sign)) after }

    ensures empty { (mark : Mark) → Cuts mark [] [] }
    ensures token { (mark : Mark) (line after : List ℕ) (token : Token) (tokens : List Token)
        → Next mark line token after → Cuts mark after tokens → Cuts mark line (token ∷ tokens) }
    ensures blank { (mark : Mark) (blank : ℕ) (line : List ℕ) (tokens : List Token)
        → is_blank blank ≡ true → Cuts mark line tokens → Cuts mark (blank ∷ line) tokens }
{}

/// A law, with nothing to run: lines that are cut into tokens, none of which is a slash, are the logical lines
/// of the page on which they stand one below the other.
pub fn lines_of_page()
    ensures { (file first : ℕ) (lines : List (List ℕ)) → AllByRecursion StandsOnPage lines
        → HasLines file (joined first (page lines)) (lines_from file first lines) None }
{}
