use node_semver::Version;
use node_semver_callers::wanted::is_wanted;
use std::alloc::Global;

#[test]
fn asks_for_versions_from_the_prerelease_on(rt: HostRuntime) {
    assert!(rt; is_answered(rt.alloc(), "1.9.0", true));
    assert!(rt; is_answered(rt.alloc(), "3.0.0", true));
    assert!(rt; is_answered(rt.alloc(), "1.2.4-rc.6", false));
}

fn is_answered(alloc: Global, version: &str, wanted: bool) -> bool {
    let Ok(version) = Version::parse(alloc, version) else {
        return false;
    };
    match is_wanted(alloc, "^1.2.3-rc.4 || >=3", &version) {
        Ok(answer) => answer == wanted,
        Err(_) => false,
    }
}
