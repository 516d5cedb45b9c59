use node_semver::Range;
use node_semver_callers::change::lets_in_nothing_new;
use std::alloc::Global;

#[test]
fn sees_a_new_major_and_no_new_cuts(rt: HostRuntime) {
    assert!(rt; is_answered(rt.alloc(), "^1.2.3", "^1.2.3 || ^2", false));
    assert!(rt; is_answered(rt.alloc(), "^1.2.3 || ^2", "^1.2.3", true));
    assert!(rt; is_answered(rt.alloc(), "1 || 2", "1 - 2", true));
}

fn is_answered(alloc: Global, old: &str, new: &str, nothing: bool) -> bool {
    let Ok(old) = Range::parse(alloc, old) else {
        return false;
    };
    let Ok(new) = Range::parse(alloc, new) else {
        return false;
    };
    match lets_in_nothing_new(alloc, &old, &new) {
        Ok(answer) => answer == nothing,
        Err(_) => false,
    }
}
