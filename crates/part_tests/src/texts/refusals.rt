//! What is said of each refusal.
use crate::claims::is;
use gate_types::deliveries::Refusal;
use gate_types::names::NoMemory;
use std::process::Abort;

/// Each refusal, with its status, word and text.
const ROWS: &[(Refusal, &str)] = &[
    (
        Refusal::BadJson,
        r#"400 bad-json {"code":"E1","error":"bad-json"}"#,
    ),
    (
        Refusal::BadDelivery,
        r#"422 bad-delivery {"code":"E2","error":"bad-delivery"}"#,
    ),
    (
        Refusal::WrongDoor,
        r#"404 wrong-door {"code":"E3","error":"wrong-door"}"#,
    ),
    (
        Refusal::IdReused,
        r#"409 id-reused {"code":"E4","error":"id-reused"}"#,
    ),
    (
        Refusal::UnknownChange,
        r#"404 unknown-change {"code":"E5","error":"unknown-change"}"#,
    ),
    (
        Refusal::UnknownRevision,
        r#"404 unknown-revision {"code":"E6","error":"unknown-revision"}"#,
    ),
    (
        Refusal::UnknownProject,
        r#"422 unknown-project {"code":"E7","error":"unknown-project"}"#,
    ),
    (
        Refusal::ProjectChanged,
        r#"409 project-changed {"code":"E8","error":"project-changed"}"#,
    ),
    (
        Refusal::Submitting,
        r#"409 submitting {"code":"E9","error":"submitting"}"#,
    ),
    (
        Refusal::NoOrder,
        r#"404 no-order {"code":"E10","error":"no-order"}"#,
    ),
    (
        Refusal::UnknownBuild,
        r#"404 unknown-build {"code":"E11","error":"unknown-build"}"#,
    ),
    (Refusal::Idle, r#"404 idle {"code":"E12","error":"idle"}"#),
    (
        Refusal::TooManyNeeds,
        r#"422 too-many-needs {"code":"E13","error":"too-many-needs"}"#,
    ),
    (
        Refusal::Exhausted,
        r#"507 exhausted {"code":"E14","error":"exhausted"}"#,
    ),
    (
        Refusal::Unavailable,
        r#"503 unavailable {"code":"E15","error":"unavailable"}"#,
    ),
];

fn has_row(rt: &(impl Abort + AllocGlobal), refusal: Refusal, wanted: &str) {
    let (status, word, text) = (refusal.status(), refusal.word(), refusal.text());
    let row = format!(in rt.alloc(); "{status} {word} {text}").expect(rt, "memory");
    is(rt, row.as_str(), wanted, "a refusal");
}

#[test]
fn refusals_have_their_rows(rt: HostRuntime) {
    for (refusal, wanted) in ROWS {
        has_row(&rt, *refusal, wanted);
    }
    assert!(rt; Refusal::from(NoMemory {}) == Refusal::Unavailable);
}
