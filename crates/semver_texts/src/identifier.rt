pub mod borrowed;
mod common_start;
pub mod copy;
mod display;
pub mod hash;
pub mod order;

/// One part of a prerelease or of a build, such as `alpha` and `1` in `1.2.3-alpha.1`.
///
/// `AlphaNumeric` can hold any text, even an empty one or `1`. It is compared and printed as it is.
///
/// # Source
///
/// SemVer 2.0.0, sections 9 and 10.
#[derive(Debug, Drop)]
pub enum Identifier {
    /// A number.
    Numeric(u64),
    /// Any other text.
    AlphaNumeric(String),
}
