//! Tests keys at their limits.

use super::made::{is_same, is_so};
use spa_model::{Key, KeyFault};
use std::process::Abort;

/// Checks that the text is a key, and that the key has the text and is equal to its copy.
fn is_key(rt: &(impl Abort + AllocGlobal), text: &str) {
    let key = Key::parse(rt.alloc(), text.as_bytes()).expect(rt, "a key");
    let copy = key.copy(rt.alloc()).expect(rt, "memory");
    is_so(rt, copy == key && key.as_str() == text, text);
}

/// Checks that the text is not a key.
fn is_bad(rt: &(impl Abort + AllocGlobal), text: &str) {
    let fault = Key::parse(rt.alloc(), text.as_bytes()).err();
    is_same(rt, &fault, &Some(KeyFault::BadKey), text);
}

/// Texts that are keys, and texts that are not.
const GOOD: &[&str] = &["a", "Z", "0", "-_.", "abcdefghijklmnop"];

const BAD: &[&str] = &["", "a b", "a,b", "abcdefghijklmnopq"];

#[test]
fn keys_have_their_form(rt: HostRuntime) {
    for good in GOOD {
        is_key(&rt, good);
    }
    for bad in BAD {
        is_bad(&rt, bad);
    }
}
