//! The report of a lock file: what counts of what is found in it, and its lines.
//!
//! [`Omissions`] says which packages are left out, as `npm ci --omit` and `npm audit --omit` do; [`leave_out_omitted`] and
//! [`leave_out_unchecked`] remove what is found of them, and [`count_of`] counts them. [`Exceptions`] say which advisories do not
//! count for a package, which [`read_exceptions`] reads, and [`excepted_of`] lists them. [`counted_hits`] are the hits that count by both. [`has_no_advisory`] is
//! `true` for a file of advisories with none in it.
//!
//! See docs/DECISIONS.md, "Exceptions have a reason, and stand on standard error".
//!
//! [`Report`] has the mismatches and the problems, and prints their counts. [`things_of`] lists all that is found as one [`Thing`] each, in
//! the order in which it is told. A thing writes its sentence, for a [`Reading`], or its JSON object, and [`lines_of`] writes a line for
//! each, in a [`LineStyle`]. No text of a file divides a line.
#![tactic(auto)]

mod advisory_exceptions;
mod count;
mod excepted;
mod exception_sentence;
mod exceptions;
mod folder_name;
mod format;
mod hit_sentence;
mod hits;
mod indexed;
mod left;
mod left_out;
mod lines;
mod needed;
mod omissions;
mod piece;
mod problems;
mod read;
mod report;
mod sentence;
mod source_sentence;
mod style;
mod thing;
mod unread;
mod vague;
mod workspace;

pub use advisory_exceptions::{
    Date, Exception, ExceptionFault, ExceptionIndex, ExceptionsError, day_at, read_exceptions,
    read_file,
};
pub use count::count_of;
pub use excepted::{Excepted, excepted_of};
pub use exception_sentence::ExceptionSentence;
pub use exceptions::Exceptions;
pub use folder_name::FolderName;
pub use format::ReportFormat;
pub use hit_sentence::push_excepted_sentence;
pub use hits::{CountedHits, counted_hits};
pub use left::leave_out_excepted;
pub use left_out::{leave_out_hits, leave_out_problems, leave_out_sources, leave_out_unchecked};
pub use lines::lines_of;
pub use needed::left_out_but_needed;
pub use omissions::Omissions;
pub use piece::Reading;
pub use problems::leave_out_omitted;
pub use read::{count_read, has_no_advisory};
pub use report::Report;
pub use sentence::last_name;
pub use style::LineStyle;
pub use thing::{Thing, things_of};
pub use unread::{Unread, unread_json};
pub use vague::Vague;
