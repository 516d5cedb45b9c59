use crate::callers::checks::prints;
use node_semver_callers::package::range_of_member;
use serde_json::Value;
use std::alloc::Global;

const PACKAGE: &str = r#"{"chalk": "^4.1.2", "lodash": "latest", "semver": 7}"#;

#[test]
fn tells_where_a_member_is_refused(rt: HostRuntime) {
    let refused = "line 0, column 0: No valid ranges could be parsed";
    assert!(rt; tells(rt.alloc(), "chalk", None));
    assert!(rt; tells(rt.alloc(), "lodash", Some(refused)));
    assert!(rt; tells(rt.alloc(), "semver", Some("expected a string")));
}

fn tells(alloc: Global, name: &str, text: Option<&str>) -> bool {
    match &Value::from_str(alloc, PACKAGE) {
        Ok(package) => match package.get(name) {
            Some(member) => is_reported(alloc, member, text),
            None => false,
        },
        Err(_) => false,
    }
}

// `None` means that a range is read.
fn is_reported(alloc: Global, member: &Value, text: Option<&str>) -> bool {
    match &range_of_member(alloc, member) {
        Ok(_) => text.is_none(),
        Err(error) => prints(alloc, error, text),
    }
}
