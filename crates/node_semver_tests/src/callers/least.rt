use crate::callers::checks::is_found;
use node_semver_callers::least::least_allowed;
use std::alloc::Global;

#[test]
fn finds_the_least_version(rt: HostRuntime) {
    assert!(rt; is_least(rt.alloc(), ">1.0.0 <1.0.1-beta", Some("1.0.1-0")));
    assert!(rt; is_least(rt.alloc(), "<0.0.0", None));
}

fn is_least(alloc: Global, asked: &str, print: Option<&str>) -> bool {
    is_found(alloc, &least_allowed(alloc, asked), print)
}
