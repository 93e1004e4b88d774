//! What a caller does while it drives work. No value of this type is made by a running program.
use bay_core::Entry;

/// One deed of a caller, with the entry of its call where it made one.
pub enum Deed {
    /// It offered this item, which the pool stored.
    Stored(u64, Entry),
    /// It offered this item, for which there was no cell, and kept it.
    Refused(u64, Entry),
    /// It offered this item, for which it had no draw left, and kept it.
    Withheld(u64),
    /// It tried to take an item, and found none.
    Missed(Entry),
    /// It took this item out of the pool.
    Took(u64, Entry),
    /// It handled this item.
    Handled(u64),
}
