//! Defines what is found where a SEQUENCE or SET is opened.

/// States whether the fields of a SEQUENCE or SET have one slot each.
#[derive(Clone, Copy)]
pub enum Opened {
    /// Their slots stand in the place of the opened one.
    Members,
    /// The name of a field stands at two entries: the place, in the list of names, of the first
    /// such field as the type lists its fields.
    Repeated(usize),
}
