//! The members of a lock file that a finding is about, by their paths: npm's "package-lock.json", "packages" and "dependencies". The first
//! that is there counts.

use npm_lock::{Dependency, Kind, Mismatch, Problem, Source};
use npm_lock_reports::{Thing, Unread};
use npm_texts::rest_after;
use std::alloc::{AllocError, Global};

/// Returns the members of a thing.
pub(crate) fn paths_of<'a>(
    alloc: Global,
    thing: Thing<'a>,
) -> Result<Vec<Vec<&'a str>>, AllocError> {
    match thing {
        Thing::Mismatch(mismatch) => mismatch_paths(alloc, mismatch),
        Thing::Problem(problem) => problem_paths(alloc, problem),
        Thing::Hit(found) => package_paths(alloc, found.folder),
        Thing::Source(source) => source_paths(alloc, source),
        Thing::LeftOut(dependency) => dependency_paths(alloc, dependency),
        Thing::Unchecked(unchecked) => dependency_paths(alloc, &unchecked.dependency),
        Thing::Unread(unread) => unread_paths(alloc, unread),
    }
}

/// Returns the members of a mismatch.
fn mismatch_paths<'a>(
    alloc: Global,
    mismatch: &'a Mismatch,
) -> Result<Vec<Vec<&'a str>>, AllocError> {
    let group = mismatch.group.as_str();
    let folder = mismatch.from.as_str();
    let name = mismatch.name.as_str();
    let paths = member_paths(alloc, folder, group, name)?;
    Ok(paths)
}

/// Returns the members of a problem.
fn problem_paths<'a>(alloc: Global, problem: &'a Problem) -> Result<Vec<Vec<&'a str>>, AllocError> {
    let dependency = &problem.dependency;
    match problem.kind {
        Kind::Engine => engine_paths(alloc, dependency),
        _ => dependency_paths(alloc, dependency),
    }
}

/// Returns the range for Node of a package, and the package.
fn engine_paths<'a>(
    alloc: Global,
    dependency: &'a Dependency,
) -> Result<Vec<Vec<&'a str>>, AllocError> {
    member_paths(alloc, dependency.from.as_str(), "engines", "node")
}

/// Returns the members of the package whose source is suspicious.
fn source_paths<'a>(alloc: Global, source: &'a Source) -> Result<Vec<Vec<&'a str>>, AllocError> {
    package_paths(alloc, source.folder.as_str())
}

/// Returns the members of the package of what was not looked at.
fn unread_paths<'a>(alloc: Global, unread: &'a Unread) -> Result<Vec<Vec<&'a str>>, AllocError> {
    package_paths(alloc, unread.folder())
}

/// Returns the members of the package in a folder. In version 1 it has none in `packages`.
pub(crate) fn package_paths<'a>(
    alloc: Global,
    folder: &'a str,
) -> Result<Vec<Vec<&'a str>>, AllocError> {
    let mut paths = Vec::new(alloc);
    paths.push(package_path(alloc, folder)?)?;
    if let Some(rest) = rest_after(folder, "node_modules/") {
        paths.push(nested_path(alloc, rest)?)?;
    }
    Ok(paths)
}

/// Returns the members of a dependency: the name in a group of the package that asks, or in its `requires` in version 1, and that package.
/// Of several groups with the name npm takes the first of these.
fn dependency_paths<'a>(
    alloc: Global,
    dependency: &'a Dependency,
) -> Result<Vec<Vec<&'a str>>, AllocError> {
    let folder = dependency.from.as_str();
    let name = dependency.name.as_str();
    let mut paths = Vec::new(alloc);
    let groups = [
        "devDependencies",
        "optionalDependencies",
        "dependencies",
        "peerDependencies",
    ];
    for group in &groups {
        paths.push(member_path(alloc, folder, *group, name)?)?;
    }
    paths.push(package_path(alloc, folder)?)?;
    if let Some(rest) = rest_after(folder, "node_modules/") {
        let mut member = nested_path(alloc, rest)?;
        member.push("requires")?;
        member.push(name)?;
        paths.push(member)?;
        paths.push(nested_path(alloc, rest)?)?;
    }
    Ok(paths)
}

/// Returns the path of a name in a group of the package in a folder, and that of the package.
fn member_paths<'a>(
    alloc: Global,
    folder: &'a str,
    group: &'static str,
    name: &'a str,
) -> Result<Vec<Vec<&'a str>>, AllocError> {
    let mut paths = Vec::new(alloc);
    paths.push(member_path(alloc, folder, group, name)?)?;
    paths.push(package_path(alloc, folder)?)?;
    Ok(paths)
}

/// Returns the path of a name in a group of the package in a folder.
fn member_path<'a>(
    alloc: Global,
    folder: &'a str,
    group: &'static str,
    name: &'a str,
) -> Result<Vec<&'a str>, AllocError> {
    Vec::from_slice(alloc, &["packages", folder, group, name])
}

/// Returns the path of the package in a folder.
fn package_path<'a>(alloc: Global, folder: &'a str) -> Result<Vec<&'a str>, AllocError> {
    Vec::from_slice(alloc, &["packages", folder])
}

/// Returns the path in version 1 of the package in a folder, of which this is the text after the first `node_modules/`: `dependencies`,
/// `a`, `dependencies`, `@s/b` for `a/node_modules/@s/b`.
fn nested_path<'a>(alloc: Global, rest: &'a str) -> Result<Vec<&'a str>, AllocError> {
    let mut names = Vec::new(alloc);
    for name in rest.split("/node_modules/") {
        names.extend_from_slice(&["dependencies", name])?;
    }
    Ok(names)
}
