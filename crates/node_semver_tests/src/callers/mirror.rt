use node_semver::Range;
use node_semver_callers::mirror::keep_mirrored;
use std::alloc::Global;

#[test]
fn keeps_the_versions_that_a_range_admits(rt: HostRuntime) {
    assert!(rt; keeps_first_and_last(rt.alloc(), "^1.2.3-rc.4 || >=3"));
}

// Returns `true` if the first and the last of five texts are kept.
fn keeps_first_and_last(alloc: Global, range: &str) -> bool {
    let texts = ["1.2.3-rc.5", "1.2.4-rc.6", "latest", "2.0.0", "3.0.0"];
    match (&Range::parse(alloc, range), Vec::from_slice(alloc, &texts)) {
        (Ok(range), Ok(mut texts)) => {
            keep_mirrored(range, &mut texts);
            texts.len() == 2 && texts[0] == "1.2.3-rc.5" && texts[1] == "3.0.0"
        }
        _ => false,
    }
}
