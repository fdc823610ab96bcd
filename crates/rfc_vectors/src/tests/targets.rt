//! The paths of targets, by RFC 9112 section 3.2 and RFC 3986 section 3.
use auth_decide::{correspond, path_of};
use std::process::Abort;
use std::test::Fail;

/// In a line: a target, its path, and another target that corresponds to it.
const PATHS: &str = "/a/b?c=/d | /a/b | http://host/a/b?c=/d
http://host/a?b | /a | /a?b
HTTP://host | / | /
* | * | *
http://h?x/y | /y | /y";

#[test]
fn a_target_has_its_path(rt: HostRuntime) -> Result<(), Fail> {
    for row in PATHS.lines() {
        let mut parts = row.split(" | ");
        let target = parts.next().ok_or("no target")?.as_bytes();
        let path = parts.next().ok_or("no path")?.as_bytes();
        let other = parts.next().ok_or("no other target")?.as_bytes();
        assert_eq!(rt; path_of(target), path, "for {row}");
        assert!(rt; correspond(target, other), "for {row}");
        assert!(rt; !correspond(target, b"/b"), "for {row}");
    }
    Ok(())
}
