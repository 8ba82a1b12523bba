//! The words of the header, by what stands in them. Version 2 alone has those from `POINTERS` on.

/// What all images begin with.
pub(crate) const MAGIC: usize = 0;

/// 1 or 2.
pub(crate) const VERSION: usize = 1;

/// The address of the first instruction.
pub(crate) const ENTRY: usize = 2;

/// How many words of text there are.
pub(crate) const TEXT: usize = 3;

/// How many words of data.
pub(crate) const DATA: usize = 4;

/// How many switch rows.
pub(crate) const SWITCHES: usize = 5;

/// How many function rows.
pub(crate) const FUNCTIONS: usize = 6;

/// How many variant rows.
pub(crate) const VARIANTS: usize = 7;

/// How many guard rows.
pub(crate) const GUARDS: usize = 8;

/// How many site rows.
pub(crate) const SITES: usize = 9;

/// How many bytes the names have.
pub(crate) const NAMES: usize = 10;

/// 0.
pub(crate) const LAST: usize = 11;

/// How many pointer rows.
pub(crate) const POINTERS: usize = 12;

/// How many pointer site rows.
pub(crate) const POINTS: usize = 13;

/// How many target rows.
pub(crate) const TARGETS: usize = 14;

/// The address of the check stub, or 0 without pointer sites.
pub(crate) const CHECK: usize = 15;

/// What stands in the first, the bytes `MVI1`.
pub(crate) const SPELLED: u32 = 0x3149_564D;
