//! How a report is written.

/// How a report is written.
#[derive(Clone, Copy, Drop)]
pub enum ReportFormat {
    /// A sentence a line.
    Text,
    /// A JSON object a line.
    Json,
}
