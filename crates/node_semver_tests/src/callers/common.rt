use crate::callers::checks::is_found;
use node_semver_callers::common::shared_range;
use std::alloc::Global;

#[test]
fn finds_what_is_shared(rt: HostRuntime) {
    let print = Some(">=16.14.0 <17.0.0-0||>=17.0.0 <18.0.0-0");
    assert!(rt; is_shared(rt.alloc(), "^16.8 || ^17", ">=16.14", print));
    assert!(rt; is_shared(rt.alloc(), "^16.8", "^17", None));
}

fn is_shared(alloc: Global, one: &str, other: &str, print: Option<&str>) -> bool {
    is_found(alloc, &shared_range(alloc, one, other), print)
}
