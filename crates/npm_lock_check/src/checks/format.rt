//! Formats.
use npm_lock_findings::{AnnotationFormat, PageFormat};
use npm_lock_reports::ReportFormat;

/// A format.
#[derive(Clone, Copy, Drop)]
pub enum Format {
    /// A line for each thing that is found.
    Report(ReportFormat),
    /// With the line and the column of each thing that is found.
    Annotations(AnnotationFormat),
    /// For people, with the same places.
    Pages(PageFormat),
}
