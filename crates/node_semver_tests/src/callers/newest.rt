use crate::callers::checks::is_found;
use node_semver::Range;
use node_semver_callers::newest::newest;
use std::alloc::Global;

#[test]
fn finds_the_newest_of_texts(rt: HostRuntime) {
    let texts = ["1.2.3", "latest", "1.10.0", "1.9.0", "2.0.0-rc.1"];
    assert!(rt; is_newest(rt.alloc(), "^1.2", &texts, Some("1.10.0")));
    assert!(rt; is_newest(rt.alloc(), "^3", &texts, None));
    assert!(rt; is_newest(rt.alloc(), "^1.2", &[], None));
}

fn is_newest(alloc: Global, range: &str, texts: &[&str], print: Option<&str>) -> bool {
    match &Range::parse(alloc, range) {
        Ok(range) => is_found(alloc, &newest(alloc, range, texts), print),
        Err(_) => false,
    }
}
