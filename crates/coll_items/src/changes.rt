//! Changes of a collection that were decided. Places are counted from 0 in what it holds before.

use arc_core::{Key, KeyWords, Side, Value};

/// An element that is put into a collection, which is of this kind.
#[derive(Drop)]
pub enum Insertion {
    /// A value at a place of a list, from which the element at this end is trimmed then, where one is named.
    IntoList {
        place: u32,
        trim: Option<Side>,
        value: Value,
    },
    /// A new value behind those of a set.
    IntoSet {
        value: Vec<u8>,
    },
    /// A new field with its value behind those of a map.
    IntoMap {
        field: Key,
        value: Value,
    },
    /// Another value for the field at a place of a map.
    OfField {
        place: u32,
        value: Value,
    },
}

/// Elements that are taken out of a collection, which is of this kind.
#[derive(Drop)]
pub enum Removal<'a> {
    /// Those of a list from a place to another, both too.
    FromList { low: u32, high: u32 },
    /// The value at a place of a set.
    FromSet { place: u32 },
    /// So many of the first values of a set, or all where there are fewer.
    FirstOfSet { number: u32 },
    /// The pairs of these fields of a map.
    FromMap { fields: &'a KeyWords<'a> },
    /// All pairs of a map.
    AllOfMap,
}
