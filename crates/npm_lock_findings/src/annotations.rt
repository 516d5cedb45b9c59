//! The report of a lock file as findings, with the lines and columns of the members that they are about, as GitHub Actions and code
//! scanning read them.

mod format;
mod paths;
mod report_findings;
mod rules;

pub use format::{AnnotationFormat, push_findings};
pub use report_findings::findings_of;
pub(crate) use rules::most_severe;
pub use rules::refused_finding;
