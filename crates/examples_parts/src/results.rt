//! The result of a call: a core with one client, whose get of `a` is command 1, its call out at server 0.

use crate::stage::{CoreStage, play, play_lines};
use std::alloc::Global;
use std::test::Fail;

fn texts() -> &'static str {
    r"Another core's ticket is refused, the call's own is taken, and only once; `close` has to wait, `reload` doesn't.
server: of scripts
open => 0
feed 0 get a\r\n => ok
poll 0 => call 1
forge 2 => no ticket
out => yes
close 0 => under way
reload server => 2
poll 0 => waiting
forge 1 => ok
forge 1 => no ticket
poll 0 => did 1
out => no"
}

#[test]
fn another_cores_ticket(rt: HostRuntime) -> Result<(), Fail> {
    play(rt.alloc(), texts())
}

// A server that is warmed up from itself: where a call of it fails, memory is wanted for the next one.
fn a_call_is_out() -> &'static str {
    r"open => 0
feed 0 get a\r\n => ok
poll 0 => call 1"
}

fn with_memory() -> &'static str {
    r"out => yes
closed 0 => no"
}

fn without() -> &'static str {
    r"out => no
closed 0 => yes
close 0 => ok"
}

// With memory the command goes on; without, it is over, and nothing is done for its client any more.
fn goes_on_or_breaks(stage: &mut CoreStage) -> Result<(), Fail> {
    play_lines(stage, "a call is out", a_call_is_out())?;
    if stage.takes_failure(1)? {
        play_lines(stage, "with memory", with_memory())
    } else {
        play_lines(stage, "without memory", without())
    }
}

#[test]
fn a_call_whose_result_wants_memory(rt: HostRuntime) -> Result<(), Fail> {
    on_a_stage(rt.alloc())
}

fn on_a_stage(alloc: Global) -> Result<(), Fail> {
    let mut stage = CoreStage::new(alloc, "warm-up of itself: of scripts")?;
    goes_on_or_breaks(&mut stage)
}
