//! Scripts of which what is printed can't be written.

use examples_tables::full_writer::Full;
use mcgate_lines::status::WRITER;
use mcgate_replay::judging::USUAL_GENERATIONS;
use mcgate_replay::{Judging, run_replay};
use std::alloc::Global;

// The status of a script whose output is written where there is so much room.
fn status_in(alloc: Global, script: &str, room: usize) -> u8 {
    let mut out = Full { room };
    run_replay(alloc, Judging::Asked(USUAL_GENERATIONS), script, &mut out)
}

#[test]
fn writers_that_fail(rt: HostRuntime) {
    for room in 0..10 {
        assert_eq!(rt; status_in(rt.alloc(), "pool 1", room), WRITER);
        assert_eq!(rt; status_in(rt.alloc(), "", room), WRITER);
    }
}
