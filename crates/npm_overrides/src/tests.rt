//! Each call with ample memory.

use crate::{Owner, Rules, asks_of, changed_of_root};
use serde_json::Value;
use std::alloc::Global;
use std::test::Fail;

/// The examples of npm's documentation, as the overrides of a root.
const OVERRIDES: &str =
    r#"{"overrides": {"baz": {"bar": {"foo": "1.0.0"}}, "foo": {".": "1.0.0", "bar": "1.5.0"}, "qux@2.0.0": {"foo": "1.1.0"}}}"#;

/// A package that asks for all of them.
const PACKAGE: &str =
    r#"{"dependencies": {"bar": "^1", "baz": "^1", "foo": "^2"}, "optionalDependencies": {"qux": "^2.0.0"}, "peerDependencies": {"zed": "1"}}"#;

/// What a package asks for where the rules of a root at a place count: each name, its spec and the place of the rules below.
fn asked_text<'d>(
    alloc: Global,
    root: &'d Value,
    package: &'d Value,
    place: usize,
) -> Result<String, Fail> {
    let rules = Rules::read(alloc, root)?;
    let asks = asks_of(alloc, &rules, package, Owner::Package, place, 9)?;
    let mut text = String::new(alloc);
    for ask in &asks {
        let name = ask.name;
        let spec = ask.spec;
        let below = ask.rules;
        let one = format!(in alloc; "{name} {spec} {below}, ")?;
        text.push_str(one.as_str())?;
    }
    Ok(text)
}

// The places: 1 is `qux@2.0.0`, 2 `baz`, 3 `foo`, 4 `foo` inside `qux`, 5 `bar` inside `baz`, 6 `bar` inside `foo`, 7 `foo` inside 5.
#[test]
fn the_nearest_rule_counts(rt: HostRuntime) -> Result<(), Fail> {
    let alloc = rt.alloc();
    let root = Value::from_str(alloc, OVERRIDES)?;
    let package = Value::from_str(alloc, PACKAGE)?;
    let rules = Rules::read(alloc, &root)?;
    assert_eq!(rt; rules.list.len(), 8);
    let at_root = asked_text(alloc, &root, &package, 0)?;
    assert_eq!(rt;
        at_root.as_str(),
        "bar ^1 0, baz ^1 2, foo 1.0.0 3, qux 2.0.0 1, zed 1 9, "
    );
    let below_foo = asked_text(alloc, &root, &package, 3)?;
    assert_eq!(rt;
        below_foo.as_str(),
        "bar 1.5.0 3, baz ^1 2, foo 1.0.0 3, qux 2.0.0 1, zed 1 9, "
    );
    let below_bar = asked_text(alloc, &root, &package, 5)?;
    assert_eq!(rt;
        below_bar.as_str(),
        "bar ^1 5, baz ^1 2, foo 1.0.0 5, qux 2.0.0 1, zed 1 9, "
    );
    Ok(())
}

#[test]
fn a_dependency_of_the_root_stays_the_same(rt: HostRuntime) -> Result<(), Fail> {
    let alloc = rt.alloc();
    let text =
        r#"{"dependencies": {"foo": "^1.0.0"}, "overrides": {"foo": "$foo", "bar": "$foo"}}"#;
    let root = Value::from_str(alloc, text)?;
    let rules = Rules::read(alloc, &root)?;
    let asks = asks_of(alloc, &rules, &root, Owner::Root, 0, 0)?;
    assert_eq!(rt; changed_of_root(&root, &asks).is_some(), false);
    let other = Value::from_str(alloc, r#"{"dependencies": {"foo": "^2"}}"#)?;
    assert_eq!(rt; changed_of_root(&other, &asks).is_some(), true);
    Ok(())
}

#[test]
fn a_long_manifest(rt: HostRuntime) -> Result<(), Fail> {
    let alloc = rt.alloc();
    let mut text = String::from_str(alloc, r#"{"dependencies": {"#)?;
    for number in 0..5000u32 {
        let one = format!(in alloc; "\"n{number}\": \"^1\", ")?;
        text.push_str(one.as_str())?;
    }
    text.push_str(r#""last": "^1"}, "overrides": {"last": "^1"}}"#)?;
    let root = Value::from_str(alloc, text.as_str())?;
    let rules = Rules::read(alloc, &root)?;
    let asks = asks_of(alloc, &rules, &root, Owner::Root, 0, 0)?;
    assert_eq!(rt; asks.len(), 5001);
    assert_eq!(rt; changed_of_root(&root, &asks).is_some(), false);
    Ok(())
}
