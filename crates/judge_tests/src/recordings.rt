//! Recordings by the names that the field gives them.

use common::MAX_EVENTS;
use recorder::read_recording;
use recording::Recording;
use relations::Relation;
use std::alloc::Global;

pub const STORE_BUFFERING: &str = r#"{"version":1,"writes":[[0],[2]],"cores":[
    [{"k":"S","a":0,"w":1},{"k":"L","a":1,"r":0,"s":null}],
    [{"k":"S","a":1,"w":1},{"k":"L","a":0,"r":0,"s":null}]]}"#;

pub const STORE_BUFFERING_FENCED: &str = r#"{"version":1,"writes":[[0],[3]],"cores":[
    [{"k":"S","a":0,"w":1},{"k":"F"},{"k":"L","a":1,"r":0,"s":null}],
    [{"k":"S","a":1,"w":1},{"k":"F"},{"k":"L","a":0,"r":0,"s":null}]]}"#;

pub const BYPASSING: &str = r#"{"version":1,"writes":[[4,0],[3]],"cores":[
    [{"k":"S","a":0,"w":1},{"k":"L","a":0,"r":1,"s":0},{"k":"L","a":1,"r":0,"s":null}],
    [{"k":"S","a":1,"w":1},{"k":"S","a":0,"w":2}]]}"#;

pub const MESSAGE_PASSING: &str = r#"{"version":1,"writes":[[0],[1]],"cores":[
    [{"k":"S","a":0,"w":1},{"k":"S","a":1,"w":1}],
    [{"k":"L","a":1,"r":1,"s":1},{"k":"L","a":0,"r":0,"s":null}]]}"#;

/// Message passing, and a core that reads a store and then the value before it: the cycles `0 1 2 3`
/// and `4 5 6`.
pub const THREE_AND_FOUR: &str = r#"{"version":1,"writes":[[0],[1],[4]],"cores":[
    [{"k":"S","a":0,"w":1},{"k":"S","a":1,"w":1}],
    [{"k":"L","a":1,"r":1,"s":1},{"k":"L","a":0,"r":0,"s":null}],
    [{"k":"S","a":2,"w":1}],
    [{"k":"L","a":2,"r":1,"s":4},{"k":"L","a":2,"r":0,"s":null}]]}"#;

pub const OVERLOOKED_STORE: &str = r#"{"version":1,"writes":[[0]],"cores":[
    [{"k":"S","a":0,"w":1},{"k":"L","a":0,"r":0,"s":null}]]}"#;

pub const TWIN_SWAPS: &str = r#"{"version":1,"writes":[[0,1]],"cores":[
    [{"k":"R","a":0,"r":0,"s":null,"w":1}],
    [{"k":"R","a":0,"r":0,"s":null,"w":1}]]}"#;

pub const SELF_SOURCE: &str = r#"{"version":1,"writes":[[0]],"cores":[
    [{"k":"R","a":0,"r":1,"s":0,"w":1}]]}"#;

pub const TWO_CYCLES: &str = r#"{"version":1,"writes":[[0,2],[1,3]],"cores":[
    [{"k":"R","a":0,"r":0,"s":null,"w":1},{"k":"R","a":1,"r":0,"s":null,"w":1}],
    [{"k":"R","a":0,"r":0,"s":null,"w":1},{"k":"R","a":1,"r":0,"s":null,"w":1}]]}"#;

/// The recording of a text.
pub fn recording_of(alloc: Global, text: &str) -> Option<Recording> {
    read_recording(alloc, text.as_bytes()).ok()
}

/// The forced pairs of the recording of a text.
pub fn relation_of(alloc: Global, text: &str) -> Option<Relation> {
    let Some(recording) = recording_of(alloc, text) else {
        return None;
    };
    if recording.len() > MAX_EVENTS {
        return None;
    }
    Relation::of(alloc, &recording).ok()
}
