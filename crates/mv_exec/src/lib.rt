//! What there is to run of the bytes of an image file.
//!
//! `load` answers the image that the bytes spell, with the actions of the operator that a list of items is on it, exactly where the bytes spell
//! one and each item is an action (`specs/Loading.antt`). Where they spell none, the answer is the code of the first fault, 10, 11 or 12, with its offset: a word or a
//! byte is missing, a field breaks a rule, a byte follows the end. Where an item names no switch of the image, or has a value that isn't
//! one of its type, it is the number of the first such item. `read_image` answers the image alone. `one_answer`:
//! bytes and items have one such answer.
#![tactic(auto)]

ghost use Rattle.std.specs.Prelude.{◌≡◌, ℕ, List, All, IfErr, IfOk, IsTrue};
ghost use Rattle.mv_command.specs.declared.items.Item.{Item};
ghost use Rattle.mv_command.specs.Items.{Ascend};
ghost use Rattle.mv_image.specs.Faults.{Spells};
ghost use Rattle.mv_machine.specs.Actions.{fits_rows};
ghost use Rattle.mv_exec.specs.Loading.{IsLoaded, IsNotLoaded, IsNotRead, IsMemory};
ghost use Rattle.mv_exec.specs.declared.error.LoadError.{LoadError};
ghost use Rattle.mv_exec.specs.declared.loaded.Loaded.{Loaded};

mod error;
mod loaded;

pub use error::LoadError;
pub use loaded::Loaded;
use mv_actions::{ActionsError, actions_of_image};
use mv_command::Item;
use mv_image::{Image, ImageError, read};
use mv_num::list::List;
use std::alloc::Global;

/// The image that the bytes spell. An error is the first fault of the bytes, or want of memory.
pub fn read_image(alloc: Global, bytes: &[u8]) -> Result<Image, LoadError>
    ensures ok { IfOk result (λ image. Spells bytes.now image) }
    ensures err { IfErr result (λ error. IsNotRead bytes.now error) }
{
    match read(alloc, bytes) {
        Ok(image) => Ok(image),
        Err(ImageError::Truncated(offset)) => Err(LoadError::BadImage(10, offset)),
        Err(ImageError::BadField(offset)) => Err(LoadError::BadImage(11, offset)),
        Err(ImageError::Trailing(offset)) => Err(LoadError::BadImage(12, offset)),
        Err(ImageError::Memory(error)) => Err(LoadError::Memory(error)),
    }
}

/// The image that the bytes spell, and what the items do at its polls, which ascend. An error is the first fault of the bytes, or else the
/// first item that does nothing, or want of memory.
pub fn load(alloc: Global, bytes: &[u8], items: &List<Item>) -> Result<Loaded, LoadError>
    requires { Ascend 0 items.now }
    ensures ok { IfOk result (λ loaded. IsLoaded bytes.now items.now loaded) }
    ensures fit { IfOk result (λ loaded. All (λ action. IsTrue (fits_rows loaded.image.switches action)) loaded.actions.items) }
    ensures err { IfErr result (λ error. IsNotLoaded bytes.now items.now error) }
{
    let image = read_image(alloc, bytes)?;
    match actions_of_image(alloc, &image, items) {
        Ok(actions) => Ok(Loaded { image, actions }),
        Err(ActionsError::Refused(item)) => Err(LoadError::Refused(item)),
        Err(ActionsError::Memory(error)) => Err(LoadError::Memory(error)),
    }
}

/// Bytes and items have one answer: what is loaded of them, or why nothing is.
pub fn one_answer()
    ensures loaded { (bytes : List ℕ) (items : List Item) (a b : Loaded) → IsLoaded bytes items a → IsLoaded bytes items b → (a.image ≡ b.image) × (a.actions.items ≡ b.actions.items) }
    ensures error { (bytes : List ℕ) (items : List Item) (a b : LoadError) → IsNotLoaded bytes items a → IsNotLoaded bytes items b → (IsMemory a → ⊥) → (IsMemory b → ⊥) → a ≡ b }
    ensures either { (bytes : List ℕ) (items : List Item) (loaded : Loaded) (error : LoadError) → IsLoaded bytes items loaded → IsNotLoaded bytes items error → IsMemory error }
{}
