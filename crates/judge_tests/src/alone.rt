//! Texts of values alone.

use std::alloc::Global;
use std::test::Fail;
use values_text::{RecError, read_values, write_values};

const STORE_BUFFERING: &str =
    r#"{"cores":[[{"a":0,"k":"S","w":1},{"a":1,"k":"L","r":0}],[{"a":1,"k":"S","w":1},{"a":0,"k":"L","r":0}]],"init":[0,0],"version":3}
"#;

/// Each kind of event, with its source and without, and final values.
const EACH_KIND: &str =
    r#"{"cores":[[{"a":0,"k":"R","r":7,"s":null,"w":1},{"a":0,"k":"R","r":1,"w":2},{"k":"F"}],[{"a":0,"k":"L","r":2,"s":1},{"a":0,"k":"C","r":2},{"a":0,"k":"C","r":2,"s":1}]],"final":[2,null],"init":[7,0],"version":3}
"#;

const OTHER_LAYOUT: &str = r#" {"version":3, "final":[null], "cores":[ [] ], "init":[4294967295]}"#;

const NO_FINAL_VALUE: &str = r#"{"cores":[[]],"init":[4294967295],"version":3}
"#;

/// Whether a text is read as values, and these are written as the other.
fn is_written_as(alloc: Global, text: &str, written: &str) -> bool {
    let Ok(values) = read_values(alloc, text.as_bytes()) else {
        return false;
    };
    let Ok(bytes) = write_values(alloc, &values) else {
        return false;
    };
    bytes.as_slice() == written.as_bytes()
}

#[test]
fn values_are_read_and_written(rt: HostRuntime) -> Result<(), Fail> {
    assert!(rt; is_written_as(rt.alloc(), STORE_BUFFERING, STORE_BUFFERING));
    assert!(rt; is_written_as(rt.alloc(), EACH_KIND, EACH_KIND));
    assert!(rt; is_written_as(rt.alloc(), OTHER_LAYOUT, NO_FINAL_VALUE));
    Ok(())
}

/// Texts, and their first refusals.
const REFUSED: &[(&str, RecError)] = &[
    ("{", RecError::NotJson),
    (r#"{"cores":[],"version":3}"#, RecError::Shape),
    (
        r#"{"cores":[],"init":[],"version":1,"writes":[]}"#,
        RecError::Shape,
    ),
    (
        r#"{"cores":[],"init":[4294967296],"version":3}"#,
        RecError::Shape,
    ),
    (
        r#"{"cores":[[{"a":0,"k":"S","s":null,"w":1}]],"init":[0],"version":3}"#,
        RecError::Shape,
    ),
    (r#"{"cores":[],"init":[],"version":2}"#, RecError::Version),
    (
        r#"{"cores":[],"final":[],"init":[0],"version":3}"#,
        RecError::Limits,
    ),
    (
        r#"{"cores":[[{"a":65536,"k":"S","w":1}]],"init":[0],"version":3}"#,
        RecError::Limits,
    ),
    (
        r#"{"cores":[[{"a":0,"k":"L","r":0},{"a":0,"k":"L","r":0,"s":65536}]],"init":[0],"version":3}"#,
        RecError::Source(1),
    ),
    (
        r#"{"cores":[[{"a":0,"k":"L","r":5},{"a":0,"k":"L","r":5,"s":null}]],"init":[0],"version":3}"#,
        RecError::Value(1),
    ),
];

fn is_refused(alloc: Global, text: &str, refusal: RecError) -> bool {
    match read_values(alloc, text.as_bytes()) {
        Ok(_) => false,
        Err(e) => e == refusal,
    }
}

#[test]
fn what_breaks_a_rule_is_refused(rt: HostRuntime) -> Result<(), Fail> {
    for (text, refusal) in REFUSED {
        assert!(rt; is_refused(rt.alloc(), *text, *refusal));
    }
    Ok(())
}
