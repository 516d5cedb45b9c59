//! See docs/DECISIONS.md, "The fault of a text does not depend on the parser".

/// What is wrong with a text, and how many of its bytes are left from there on. With the number of bytes left, no
/// reader has to count its place.
#[derive(Clone, Copy)]
pub enum Fault {
    /// It has too many bytes.
    TooLong(usize),
    /// A number or a dot is missing here.
    Missing(usize),
    /// A number is too large.
    TooLarge(usize),
    /// These bytes are left after the end of the version.
    LeftOver(usize),
}
