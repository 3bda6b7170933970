// What the writer is given.

// The numbers of a heading, the dimensions, one byte each, and the records, one after the other.
#[derive(Clone, Copy)]
pub struct Given<'a> {
    pub categories: u8,
    pub start: u8,
    pub words: u16,
    pub rules: u16,
    pub dimensions: &'a [u8],
    pub records: &'a [u8],
}
