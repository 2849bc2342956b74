//! Scripts that show nothing stale, whichever of their calls fails, and however.

use examples_tables::tables::{expanded, told};
use mcgate_replay::judging::USUAL_GENERATIONS;
use mcgate_replay::{Judging, run_replay};
use std::alloc::Global;
use std::process::Abort;
use std::test::Fail;

// What is printed of a script, with the status.
fn printed(alloc: Global, script: &str) -> Result<String, Fail> {
    let mut out = Vec::new(alloc);
    let judging = Judging::Asked(USUAL_GENERATIONS);
    let status = run_replay(alloc, judging, script, &mut out);
    told(alloc, status, out.as_slice())
}

// Scripts over accepted trees, each with the count of its commands. At `fail ..` stands the line by which one more call fails.
fn sessions() -> &'static str {
    r#"== done 2 commands
over A and B {"type":"OperationSelectorRoute","default_policy":{"type":"FailoverRoute","children":["PoolRoute|A","PoolRoute|B"]},"operation_policies":{"delete":{"type":"AllSyncRoute","children":["PoolRoute|A","PoolRoute|B"]}}}
hold 1 a 7
fail ..
> 0 delete a\r\n
> 0 get a\r\n
== done 2 commands
over A and B {"type":"OperationSelectorRoute","default_policy":{"type":"FailoverRoute","children":["PoolRoute|A","PoolRoute|B"]},"operation_policies":{"delete":{"type":"AllSyncRoute","children":["PoolRoute|A","PoolRoute|B"]}}}
hold 1 a 7
fail 2 before
fail ..
> 0 delete a\r\n
fail 1 before
> 0 get a\r\n
== done 2 commands
over A and B {"type":"OperationSelectorRoute","default_policy":{"type":"WarmUpRoute","cold":"PoolRoute|A","warm":"PoolRoute|B","exptime":0},"operation_policies":{"delete":{"type":"AllSyncRoute","children":["PoolRoute|A","PoolRoute|B"]}}}
hold 1 a 7
fail ..
> 0 mg a v\r\n
> 0 mg a v\r\n
== done 2 commands
over A and B {"type":"OperationSelectorRoute","default_policy":{"type":"WarmUpRoute","cold":"PoolRoute|A","warm":"PoolRoute|B","exptime":0},"operation_policies":{"delete":{"type":"AllSyncRoute","children":["PoolRoute|A","PoolRoute|B"]}}}
hold 1 a 7
fail 3 before
fail ..
> 0 mg a v\r\n
> 0 mg a v\r\n
== done 1 commands
over A and B {"type":"OperationSelectorRoute","default_policy":{"type":"FailoverRoute","children":["PoolRoute|A","PoolRoute|B"]},"operation_policies":{"delete":{"type":"AllSyncRoute","children":["PoolRoute|A","PoolRoute|B"]}}}
hold 1 a 7
fail ..
> 0 md a C9\r\n
"#
}

// Each way in which a call fails. No answer in these scripts has more than 21 bytes.
fn manners() -> &'static str {
    "before
after
junk
cut 0
cut 1
cut 2
cut 3
cut 4
cut 5
cut 6
cut 7
cut 8
cut 9
cut 10
cut 11
cut 12
cut 13
cut 14
cut 15
cut 16
cut 17
cut 18
cut 19
cut 20
cut 21"
}

// What is printed where the call of this number fails so.
fn printed_where(
    alloc: Global,
    front: &str,
    call: u32,
    manner: &str,
    back: &str,
) -> Result<String, Fail> {
    let mut script = expanded(alloc, front)?;
    writeln!(&mut script, "fail {} {}", call, manner)?;
    script.push_str(back)?;
    printed(alloc, script.as_str())
}

// It ran to its end, and showed nothing that was deleted.
fn is_fresh(printed: &str, done: &str) -> bool {
    match printed.split_once("done ") {
        Some((_, report)) => {
            printed.starts_with("0\n")
                && report.starts_with(done)
                && report.ends_with(" calls 0 stale\n")
        }
        None => false,
    }
}

// A script is fresh, whichever call fails so. The longest one has eight calls.
fn fresh_by<R: Abort + AllocGlobal>(rt: &R, session: &str, manner: &str) -> Result<(), Fail> {
    let (done, script) = session.split_once('\n').ok_or("no script")?;
    let (front, back) = script.split_once("fail ..\n").ok_or("nothing fails")?;
    for call in 1..9 {
        let got = printed_where(rt.alloc(), front, call, manner, back)?;
        assert!(rt;
            is_fresh(got.as_str(), done),
            "where call {call} fails {manner}: {got}"
        );
    }
    Ok(())
}

#[test]
fn nothing_is_stale_whatever_fails(rt: HostRuntime) -> Result<(), Fail> {
    for session in sessions().split("== done ").skip(1) {
        for manner in manners().lines() {
            fresh_by(&rt, session, manner)?;
        }
    }
    Ok(())
}
