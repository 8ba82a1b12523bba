//! Numbers as text.

ghost use Rattle.std.specs.Prelude.{◌≡◌, ◌++◌, OnOk};
ghost use Rattle.std.specs.Fmt.{decimal};
ghost use Rattle.mv_num.specs.Kinds.{is_signed};
ghost use Rattle.mv_list.specs.Numbers.{address_text, value_text};

use std::alloc::{AllocError, Global};

/// Adds an address, in eight hexadecimal digits.
#[tactic(auto, unfolding(crate::specs::Numbers::address_text))]
pub fn push_address(alloc: Global, out: &mut Vec<u8>, address: u32) -> Result<(), AllocError>
    ensures { OnOk result (out.new.items ≡ out.old.items ++ address_text address) }
{
    let text = format!(in alloc; "0x{address:08x}")?;
    out.extend_from_slice(text.as_bytes())
}

/// Adds a number, in decimal.
pub(crate) fn push_number(alloc: Global, out: &mut Vec<u8>, number: usize) -> Result<(), AllocError>
    ensures { OnOk result (out.new.items ≡ out.old.items ++ decimal number) }
{
    let text = format!(in alloc; "{number}")?;
    out.extend_from_slice(text.as_bytes())
}

/// Whether the kind with this number has negative values.
fn is_signed(kind: u32) -> bool
    ensures { result ≡ is_signed kind }
{
    kind == 1 || kind == 3 || kind == 5
}

/// Adds the value of a word, by the number of its kind.
#[tactic(auto, unfolding(crate::specs::Numbers::value_text))]
pub(crate) fn push_value(
    alloc: Global,
    out: &mut Vec<u8>,
    kind: u32,
    word: u32,
) -> Result<(), AllocError>
    ensures { OnOk result (out.new.items ≡ out.old.items ++ value_text kind word) }
{
    if is_signed(kind) {
        let value = word.cast_signed();
        let text = format!(in alloc; "{value}")?;
        out.extend_from_slice(text.as_bytes())
    } else {
        let text = format!(in alloc; "{word}")?;
        out.extend_from_slice(text.as_bytes())
    }
}
