//! The text's length, and where it begins and ends.

use super::*;

#[test]
fn first_and_last_function(rt: HostRuntime) {
    let text = bundle_text();
    assert_eq!(rt; text.len(), 4140);
    assert_eq!(rt; text.lines().count(), 23);
    assert!(rt; text.starts_with("function map(f) { const out = [];"));
    assert!(rt; text.ends_with(" for (const f of list) f.apply(this, args); return true; }\n"));
    let functions = text
        .lines()
        .filter(|line| line.starts_with("function "))
        .count();
    assert_eq!(rt; functions, 23);
}
