//! Laws of what files hold, and of their faults.

ghost use Rattle.std.specs.Prelude.{◌≡◌, ℕ, List};
ghost use Rattle.mv_image.specs.Spelling.{Fields};
ghost use Rattle.mv_elf.specs.declared.fault.ElfError.{ElfError};
ghost use Rattle.mv_elf.specs.Faults.{Holds, FirstFault, IsMemory};

/// A file holds one image or has one first fault.
pub fn one_verdict()
    ensures image { (bytes : List ℕ) (a b : Fields) → Holds bytes a → Holds bytes b → a ≡ b }
    ensures fault { (bytes : List ℕ) (f g : ElfError) → FirstFault bytes f → FirstFault bytes g → (IsMemory f → ⊥) → (IsMemory g → ⊥) → f ≡ g }
    ensures either { (bytes : List ℕ) (a : Fields) (f : ElfError) → Holds bytes a → FirstFault bytes f → IsMemory f }
{}
