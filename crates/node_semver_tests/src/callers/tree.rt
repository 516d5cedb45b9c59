use crate::callers::checks::is_found;
use node_semver_callers::tree::unhit_range;
use std::alloc::Global;

#[test]
fn leaves_out_what_is_hit(rt: HostRuntime) {
    let print = Some(">=4.17.21 <5.0.0-0||>=5.0.0 <6.0.0-0");
    assert!(rt; is_unhit(rt.alloc(), (">=4", "^4.17 || ^5", "<4.17.21"), print));
    assert!(rt; is_unhit(rt.alloc(), ("^4", "^5", "foo"), None));
}

fn is_unhit(alloc: Global, texts: (&str, &str, &str), print: Option<&str>) -> bool {
    is_found(alloc, &unhit_range(alloc, texts.0, texts.1, texts.2), print)
}
