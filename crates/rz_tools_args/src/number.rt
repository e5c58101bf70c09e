//! A number as an argument: in decimal, without a sign or a leading zero.

ghost use Rattle.std.specs.Prelude.{◌≡◌, ◌↔◌, ◌<◌, ◌^◌, ℕ, IfNone, IfSome, IsTrue};
ghost use Rattle.rz_core.specs.Decimal.{decimal_of};
ghost use Rattle.rz_tools_args.specs.Number.{BeginsAsDecimal};

/// The number that a word is the decimal of. `None` comes exactly if it is that of no number below 2^32.
pub fn number_told(word: &str) -> Option<u32>
    ensures some { IfSome result (λ number. word.now ≡ decimal_of number) }
    ensures none { IfNone result ((number : ℕ) → number < 2 ^ 32 → word.now ≡ decimal_of number → ⊥) }
{
    if begins_as_decimal(word.as_bytes()) {
        word.parse().ok()
    } else {
        None
    }
}

/// Whether the word is one digit, or begins with another digit than zero.
fn begins_as_decimal(word: &[u8]) -> bool
    ensures { IsTrue result ↔ BeginsAsDecimal word.now }
{
    matches!(word, [b'0'] | [b'1'..=b'9', ..])
}
