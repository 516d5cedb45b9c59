use node_semver_callers::lock_file::still_fits;
use std::alloc::Global;

#[test]
fn fits_until_the_manifest_asks_for_more(rt: HostRuntime) {
    assert!(rt; answers(rt.alloc(), "^4.17.20", Some(true)));
    assert!(rt; answers(rt.alloc(), "^4.18", Some(false)));
    assert!(rt; answers(rt.alloc(), "latest", None));
}

// `None` means an error.
fn answers(alloc: Global, asked: &str, fits: Option<bool>) -> bool {
    match &still_fits(alloc, asked, "4.17.21") {
        Ok(answer) => fits == Some(*answer),
        Err(_) => fits.is_none(),
    }
}
