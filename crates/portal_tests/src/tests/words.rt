//! Tests codes, names and phases.

use crate::tests::readers::same;
use crate::tests::rows::{code, name};
use portal_core::{Code, CodeFault, Name, NameFault, Phase};
use std::process::Abort;

/// Checks that the text is a code, and that its copy is the same code.
fn is_code(rt: &(impl Abort + AllocGlobal), text: &str) {
    let parsed = code(rt, text);
    same(rt, parsed.as_str(), text);
    assert_eq!(rt; parsed.copy(rt.alloc()).expect(rt, "memory"), parsed);
}

#[test]
fn codes_have_their_form(rt: HostRuntime) {
    is_code(&rt, "ann-code");
    is_code(&rt, "0123456789-abcdefghijklmnopqrstuvwxyz-AZ");
    for text in [
        "",
        "ann-cod",
        "ann_code",
        "0123456789-abcdefghijklmnopqrstuvwxyz-ABZ",
    ] {
        let fault = Code::parse(rt.alloc(), text.as_bytes()).err();
        assert!(rt; fault == Some(CodeFault::BadCode), "{text}");
    }
}

/// Checks that the text is a name, and that its copy is the same name.
fn is_name(rt: &(impl Abort + AllocGlobal), text: &str) {
    let parsed = name(rt, text);
    same(rt, parsed.as_str(), text);
    assert_eq!(rt; parsed.copy(rt.alloc()).expect(rt, "memory"), parsed);
}

#[test]
fn names_have_their_form(rt: HostRuntime) {
    is_name(&rt, "A");
    is_name(&rt, "Roe, Bea");
    is_name(&rt, "Łukasz Żak");
    for text in ["", "a\nb", "a\u{7F}"] {
        let fault = Name::parse(rt.alloc(), text.as_bytes()).err();
        assert!(rt; fault == Some(NameFault::BadName), "{text}");
    }
}

#[test]
fn phases_have_their_words(rt: HostRuntime) {
    for (word, phase) in [
        (Phase::Setup.word(), Some(Phase::Setup)),
        (Phase::Choosing.word(), Some(Phase::Choosing)),
        (Phase::Ranking.word(), Some(Phase::Ranking)),
        (Phase::Published.word(), Some(Phase::Published)),
        ("setup", Some(Phase::Setup)),
        ("Setup", None),
    ] {
        assert!(rt; Phase::parse(word.as_bytes()) == phase, "{word}");
    }
}
