use crate::callers::checks::is_found;
use node_semver::Range;
use node_semver_callers::Failure;
use node_semver_callers::spared::{is_covered, least_spared};
use std::alloc::Global;

#[test]
fn finds_the_least_version_that_is_spared(rt: HostRuntime) {
    let alloc = rt.alloc();
    let advisory = ["<3.10.2", ">=4 <4.17.21", ">=5.0.0-0 <5.0.1"];
    assert!(rt; is_spared(alloc, "^4", &advisory, Some("4.17.21")));
    assert!(rt; is_spared(alloc, "^4.17.20", &[">=4.17.21", "<4.17.21"], None));
    assert!(rt; is_spared(alloc, "^4", &[], Some("4.0.0")));
}

#[test]
fn compares_cuts_with_all_ranges_together(rt: HostRuntime) {
    let alloc = rt.alloc();
    assert!(rt; is_answered(alloc, "^4.17.20", &[">=4.17.21", "<4.17.21"], true));
    assert!(rt; is_answered(alloc, "^4.17.20", &[">4.17.21", "<4.17.21"], false));
    assert!(rt; is_answered(alloc, "^4.17.20", &[], false));
}

fn ranges_of(alloc: Global, texts: &[&str]) -> Result<Vec<Range>, Failure> {
    let mut ranges = Vec::new(alloc);
    for text in texts {
        ranges.push(Range::parse(alloc, text)?)?;
    }
    Ok(ranges)
}

fn is_spared(alloc: Global, range: &str, advisory: &[&str], print: Option<&str>) -> bool {
    let Ok(range) = Range::parse(alloc, range) else {
        return false;
    };
    let Ok(advisory) = ranges_of(alloc, advisory) else {
        return false;
    };
    is_found(alloc, &least_spared(alloc, &range, &advisory), print)
}

fn is_answered(alloc: Global, range: &str, advisory: &[&str], covered: bool) -> bool {
    let Ok(range) = Range::parse(alloc, range) else {
        return false;
    };
    let Ok(advisory) = ranges_of(alloc, advisory) else {
        return false;
    };
    match is_covered(alloc, &range, &advisory) {
        Ok(answer) => answer == covered,
        Err(_) => false,
    }
}
