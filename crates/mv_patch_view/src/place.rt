//! Entries and sites.

/// Where a function shows.
#[derive(Clone, Copy)]
pub(crate) enum Place {
    /// Its entry, at this address.
    Entry(u32),
    /// A site of it, whose first word stands at this address.
    Site(u32),
}
