//! What is wrong with a call.

use npm_advisories::FaultKind;
use npm_packages::Fault as PackageFault;
use std::alloc::{AllocError, Global};

/// What is wrong with a call, or with one of its members.
#[derive(Clone, Copy, Drop)]
pub(crate) enum Fault {
    /// No call has this name.
    Call,
    /// The name or the text is not UTF-8.
    Utf8,
    /// A text is no JSON, or its values nest deeper than 127.
    Json,
    /// A value is no object.
    Object,
    /// The call has no such member.
    Unknown,
    /// The member is missing.
    Missing,
    /// It is no string.
    Text,
    /// It is neither `true` nor `false`.
    Mark,
    /// It is no list.
    List,
    /// It is no whole number, or a negative one.
    Count,
    /// It is no time, as `2024-03-01T12:00:00Z`.
    Time,
    /// It is no version, as `20.1.0`.
    Version,
    /// It is no day, as `2024-03-01`.
    Day,
    /// It is not one of the words that the member has.
    Word,
    /// A lock file is asked for without `flat`.
    NotFlat,
    /// A lock file is asked for, and a group is left out.
    Omits,
    /// A manifest has this fault.
    Manifest(PackageFault),
    /// A lock file has this fault.
    Lock(PackageFault),
    /// The lock file is of version 1, which the call does not read.
    OldLock,
    /// The advisories have this fault.
    Advisories(FaultKind),
}

impl Fault {
    /// Its name.
    pub(crate) fn name(self) -> &'static str {
        match self {
            Fault::Call => "no_call",
            Fault::Utf8 => "no_utf8",
            Fault::Json => "no_json",
            Fault::Object => "no_object",
            Fault::Unknown => "unknown_member",
            Fault::Missing => "missing_member",
            Fault::Text => "no_string",
            Fault::Mark => "no_boolean",
            Fault::List => "no_list",
            Fault::Count => "no_count",
            Fault::Time => "no_time",
            Fault::Version => "no_version",
            Fault::Day => "no_day",
            Fault::Word => "no_word",
            Fault::NotFlat => "not_flat",
            Fault::Omits => "omits",
            Fault::Manifest(_) => "invalid_manifest",
            Fault::Lock(_) | Fault::OldLock => "invalid_lock",
            Fault::Advisories(_) => "invalid_advisories",
        }
    }

    /// The name of the fault of a manifest or of a lock file.
    pub(crate) fn part(self) -> Option<&'static str> {
        match self {
            Fault::Manifest(fault) | Fault::Lock(fault) => Some(part_of(fault)),
            Fault::OldLock => Some(part_of(PackageFault::Version)),
            _ => None,
        }
    }

    /// A sentence for a person.
    pub(crate) fn sentence(self, alloc: Global) -> Result<String, AllocError> {
        match self {
            Fault::Manifest(fault) | Fault::Lock(fault) => fault.to_string(alloc),
            Fault::Advisories(kind) => kind.to_string(alloc),
            _ => String::from_str(alloc, self.words()),
        }
    }

    /// The sentence of a fault that has a fixed one.
    fn words(self) -> &'static str {
        match self {
            Fault::Call => "there is no such call",
            Fault::Utf8 => "the name or the text is not UTF-8",
            Fault::Json => "it is no JSON, or it is nested too deep",
            Fault::Object => "it is no object",
            Fault::Unknown => "the call has no such member",
            Fault::Missing => "the member is missing",
            Fault::Text => "it is no string",
            Fault::Mark => "it is neither true nor false",
            Fault::List => "it is no list",
            Fault::Count => "it is no whole number from 0 on",
            Fault::Time => "it is no time, as 2024-03-01T12:00:00Z",
            Fault::Version => "it is no version, as 20.1.0",
            Fault::Day => "it is no day, as 2024-03-01",
            Fault::Word => "it is none of the words that the member has",
            Fault::NotFlat => "it takes flat: without it dependencies of versions are not selected",
            Fault::Omits => "it takes no omit: a lock file has all groups",
            Fault::OldLock => "`lockfileVersion` is not 2 or 3",
            Fault::Manifest(_) | Fault::Lock(_) | Fault::Advisories(_) => "",
        }
    }
}

/// The name of a fault of a manifest or of a lock file.
fn part_of(fault: PackageFault) -> &'static str {
    match fault {
        PackageFault::Version => "version",
        PackageFault::Packages => "packages",
        PackageFault::Folder => "folder",
        PackageFault::Workspaces => "workspaces",
        PackageFault::Package => "package",
        PackageFault::Entry => "entry",
        PackageFault::Manifest => "manifest",
        PackageFault::Link => "link",
        PackageFault::PackageVersion => "package_version",
        PackageFault::Dependencies => "dependencies",
        PackageFault::Spec => "spec",
    }
}
