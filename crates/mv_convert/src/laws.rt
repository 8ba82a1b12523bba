//! Laws of conversions.

ghost use Rattle.std.specs.Prelude.{◌≡◌, ℕ, List};
ghost use Rattle.mv_command.specs.declared.conversion.Conversion.{Conversion};
ghost use Rattle.mv_convert.specs.Causes.{IsMemory, IsNotConverted};
ghost use Rattle.mv_convert.specs.Conversions.{IsConverted};
ghost use Rattle.mv_convert.specs.declared.error.ConvertError.{ConvertError};

/// A conversion makes one file of another, or there is one cause why it makes none.
pub fn one_answer()
    ensures made { (conversion : Conversion) (bytes a b : List ℕ) → IsConverted conversion bytes a → IsConverted conversion bytes b → a ≡ b }
    ensures error { (conversion : Conversion) (bytes : List ℕ) (a b : ConvertError) → IsNotConverted conversion bytes a → IsNotConverted conversion bytes b → (IsMemory a → ⊥) → (IsMemory b → ⊥) → a ≡ b }
    ensures either { (conversion : Conversion) (bytes made : List ℕ) (error : ConvertError) → IsConverted conversion bytes made → IsNotConverted conversion bytes error → IsMemory error }
{}
