//! The example of the README and of the front page of `node_semver`.
use node_semver::{Range, SemverErrorKind, Version};
use std::test::Fail;

#[test]
fn reads_a_range_and_asks_it(rt: HostRuntime) -> Result<(), Fail> {
    let alloc = rt.alloc();
    let range = Range::parse(alloc, "^1.2.3-rc.4 || >=3")?;
    assert!(rt; range.satisfies(&Version::parse(alloc, "1.2.3-rc.5")?));
    assert!(rt; range.satisfies(&Version::parse(alloc, "3.0.0")?));
    assert!(rt; !range.satisfies(&Version::parse(alloc, "2.0.0")?));
    // A prerelease of a triple at no end.
    assert!(rt; !range.satisfies(&Version::parse(alloc, "1.2.4-rc.6")?));
    let print = format!(in alloc; "{range}")?;
    assert_eq!(rt; print.as_str(), ">=1.2.3-rc.4 <2.0.0-0||>=3.0.0");
    // A fault has a kind and a byte offset.
    let error = Version::parse(alloc, "1.2").err().ok_or("1.2 was read")?;
    assert_eq!(rt; error.kind(), &SemverErrorKind::Context("version"));
    assert_eq!(rt; error.offset(), 3);
    Ok(())
}
