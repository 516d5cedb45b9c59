use crate::callers::checks::is_found;
use node_semver_callers::both::version_for_both;
use std::alloc::Global;

#[test]
fn finds_a_version_for_two_dependents(rt: HostRuntime) {
    assert!(rt; suits(rt.alloc(), "^2.0.0-rc.1", ">=1.5", Some("2.0.0")));
    assert!(rt; suits(rt.alloc(), "^16.8 || ^17", ">=16.14", Some("16.14.0")));
    assert!(rt; suits(rt.alloc(), "1 - 2", "3", None));
}

fn suits(alloc: Global, one: &str, other: &str, print: Option<&str>) -> bool {
    is_found(alloc, &version_for_both(alloc, one, other), print)
}
