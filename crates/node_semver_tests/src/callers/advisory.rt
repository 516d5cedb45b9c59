use node_semver::Version;
use node_semver_callers::advisory::versions_hit;
use std::alloc::Global;

#[test]
fn finds_what_is_hit(rt: HostRuntime) {
    assert!(rt; hits_first_and_last(rt.alloc(), "<3.10.2 || >=4 <4.17.21"));
}

// Returns `true` for the first and the last of three installed versions, and not the one between them.
fn hits_first_and_last(alloc: Global, advisory: &str) -> bool {
    let installed = [
        Version::new(alloc, 4, 17, 20),
        Version::new(alloc, 4, 17, 21),
        Version::new(alloc, 3, 10, 1),
    ];
    match &versions_hit(alloc, advisory, &installed) {
        Ok(hits) => match hits.as_slice() {
            [first, last] => **first == installed[0] && **last == installed[2],
            _ => false,
        },
        Err(_) => false,
    }
}
