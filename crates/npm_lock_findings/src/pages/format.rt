//! Formats for people.

/// How reports are written for people.
#[derive(Clone, Copy, Drop)]
pub enum PageFormat {
    /// A page for a browser.
    Html,
    /// A JUnit report, which Jenkins and GitLab read.
    Junit,
}
