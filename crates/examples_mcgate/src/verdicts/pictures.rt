//! Pictures of worked configurations, written out by hand.

use gate_check::Gap;
use gate_coverage::Deleting;
use gate_gaps::quoting::Quoted;
use gate_gaps::{Listed, WayStep, read_pools};
use gate_picture::{write_gap_picture, write_picture};
use mc_types::{Key, Op, ServerId};
use route_json::{Config, read_config};
use route_tree::Place;
use std::alloc::Global;
use std::test::Fail;

fn config(alloc: Global, text: &str) -> Result<Config, Fail> {
    match read_config(alloc, text) {
        Ok(config) => Ok(config),
        Err(_) => Err(Fail::from("no configuration")),
    }
}

fn failover_text() -> &'static str {
    r#"{"pools":{"A":{"servers":["a:1:2"]},"B":{"servers":["b:1","a:1"]}},"route":{"type":"FailoverRoute","children":["PoolRoute|A","PoolRoute|B"]}}"#
}

fn failover_lines() -> &'static str {
    r#"strict digraph mcgate {
  rankdir=LR;
  r0 [label="FailoverRoute"];
  r0 -> r1 [label="children[0]"];
  r1 [label="PoolRoute A\na:1", shape=box];
  r0 -> r2 [label="children[1]"];
  r2 [label="PoolRoute B\nb:1\na:1", shape=box];
}
"#
}

// The picture of the configuration of a text.
fn picture(alloc: Global, text: &str) -> Result<Vec<u8>, Fail> {
    let config = config(alloc, text)?;
    let pools = read_pools(alloc, text, config.servers())?;
    let mut out = Vec::new(alloc);
    write_picture(&config, &pools, &mut out)?;
    Ok(out)
}

// The picture of the configuration of a text with this gap, to which this way leads.
fn gap_picture(alloc: Global, text: &str, gap: &Gap, way: &[WayStep]) -> Result<Vec<u8>, Fail> {
    let config = config(alloc, text)?;
    let pools = read_pools(alloc, text, config.servers())?;
    let mut out = Vec::new(alloc);
    write_gap_picture(&config, &pools, gap, way, &mut out)?;
    Ok(out)
}

// The weight of a:1 is two slots in a row, which have one line.
#[test]
fn tree_without_marks(rt: HostRuntime) -> Result<(), Fail> {
    let out = picture(rt.alloc(), failover_text())?;
    assert_eq!(rt; out.as_slice(), failover_lines().as_bytes());
    Ok(())
}

fn selectors_text() -> &'static str {
    r#"{"pools":{"A":{"servers":["a:1"]},"B":{"servers":["b:1"]}},"route":{"type":"PrefixSelectorRoute","policies":{"x":"NullRoute","x\"\\":{"type":"OperationSelectorRoute","operation_policies":{"set":"ErrorRoute"},"default_policy":{"type":"WarmUpRoute","cold":"PoolRoute|A","warm":"PoolRoute|B","exptime":0}}},"wildcard":"PoolRoute|A"}}"#
}

fn selectors_lines() -> &'static str {
    r#"strict digraph mcgate {
  rankdir=LR;
  r0 [label="PrefixSelectorRoute"];
  r0 -> r1 [label="prefix x"];
  r1 [label="NullRoute"];
  r0 -> r2 [label="prefix x\"\\\\"];
  r2 [label="OperationSelectorRoute"];
  r2 -> r3 [label="set"];
  r3 [label="ErrorRoute"];
  r2 -> r4 [label="default"];
  r4 [label="WarmUpRoute"];
  r4 -> r5 [label="cold"];
  r5 [label="PoolRoute A\na:1", shape=box];
  r4 -> r6 [label="warm"];
  r6 [label="PoolRoute B\nb:1", shape=box];
  r0 -> r7 [label="wildcard"];
  r7 [label="PoolRoute A\na:1", shape=box];
  r0 [color=red];
  r0 -> r2 [label="prefix x\"\\\\", color=red];
  r2 [color=red];
  r2 -> r4 [label="default", color=red];
  r4 [color=red];
  r4 -> r6 [label="warm", color=red];
  r6 [color=red];
  r6 -> s1 [label="get", color=red];
  s1 [label="b:1 (pool B, place 1 of 1)\nnot cleared by md", shape=box, color=red, penwidth=2];
}
"#
}

// Whether this is the picture of the gap of a get and an md, at the keys of this prefix, from the warm side.
fn is_drawn(alloc: Global, prefix: Key) -> Result<bool, Fail> {
    let gap = Gap {
        place: Place {
            prefix: Some(prefix),
            residue: 0,
            modulus: 1,
        },
        server: ServerId::new(1),
        op: Op::Get,
        deleting: Deleting::Md,
    };
    let way = [WayStep::Default, WayStep::Warm];
    let out = gap_picture(alloc, selectors_text(), &gap, &way)?;
    Ok(out.as_slice() == selectors_lines().as_bytes())
}

#[test]
fn way_through_selectors(rt: HostRuntime) -> Result<(), Fail> {
    let Ok(prefix) = Key::read(b"x\"\\") else {
        return Err(Fail::from("no key"));
    };
    assert!(rt; is_drawn(rt.alloc(), prefix)?);
    Ok(())
}

// What a picture ends with, whose tree is a failover and whose gap's read goes to its second child.
fn second_child_lines() -> &'static str {
    r#"  r0 [color=red];
  r0 -> r2 [label="children[1]", color=red];
  r2 [color=red];
  r2 -> s1 [label="incr", color=red];
  s1 [label="b:1 (pool B, place 1 of 2)\nnot cleared by delete", shape=box, color=red, penwidth=2];
}
"#
}

#[test]
fn way_by_the_second_child(rt: HostRuntime) -> Result<(), Fail> {
    let gap = Gap {
        place: Place {
            prefix: None,
            residue: 0,
            modulus: 2,
        },
        server: ServerId::new(1),
        op: Op::Incr,
        deleting: Deleting::Delete,
    };
    let way = [WayStep::Child(Listed::Failover, 1)];
    let out = gap_picture(rt.alloc(), failover_text(), &gap, &way)?;
    assert!(rt; out.as_slice().ends_with(second_child_lines().as_bytes()));
    Ok(())
}

fn alike_text() -> &'static str {
    r#"{"pools":{"A":{"servers":["a:1"]},"B":{"servers":["b:1"]},"C":{"servers":["c:1"]},"D":{"servers":["d:1"]},"L":{"servers":["l:1","l:2","l:3","l:4","l:5","l:6","l:7","l:8","l:9"]},"M":{"servers":["l:1","l:2","l:3","l:4","l:5","l:6","l:7","l:8","l:9"]}},"route":{"type":"AllSyncRoute","children":["PoolRoute|A","PoolRoute|B","PoolRoute|C",{"type":"PrefixSelectorRoute","policies":{"1":"PoolRoute|A","2":"PoolRoute|B","3":"PoolRoute|C","4":"PoolRoute|D","5":"NullRoute"},"wildcard":"PoolRoute|L"},"PoolRoute|A","PoolRoute|B","PoolRoute|C","PoolRoute|D",{"type":"FailoverRoute","children":["PoolRoute|A","PoolRoute|B"]},{"type":"FailoverRoute","children":["PoolRoute|B","PoolRoute|A"]},{"type":"FailoverRoute","children":["PoolRoute|C","PoolRoute|D"]},{"type":"FailoverRoute","children":["PoolRoute|D","PoolRoute|C"]},{"type":"FailoverRoute","children":["PoolRoute|D","NullRoute"]},"AllSyncRoute|Pool|L"]}}"#
}

// Three in a row are drawn one by one, four as one; of a pool eight servers are named, and of a run eight pools or servers. Pools of the
// same slots are both named.
fn alike_lines() -> &'static str {
    r#"strict digraph mcgate {
  rankdir=LR;
  r0 [label="AllSyncRoute"];
  r0 -> r1 [label="children[0]"];
  r1 [label="PoolRoute A\na:1", shape=box];
  r0 -> r2 [label="children[1]"];
  r2 [label="PoolRoute B\nb:1", shape=box];
  r0 -> r3 [label="children[2]"];
  r3 [label="PoolRoute C\nc:1", shape=box];
  r0 -> r4 [label="children[3]"];
  r4 [label="PrefixSelectorRoute"];
  r4 -> r5 [label="prefix 1 and 3 more"];
  r5 [label="4 x PoolRoute\n A\n B\n C\n D", shape=box];
  r4 -> r9 [label="prefix 5"];
  r9 [label="NullRoute"];
  r4 -> r10 [label="wildcard"];
  r10 [label="PoolRoute L M\nl:1\nl:2\nl:3\nl:4\nl:5\nl:6\nl:7\nl:8\n..", shape=box];
  r0 -> r11 [label="children[4] and 3 more"];
  r11 [label="4 x PoolRoute\n A\n B\n C\n D", shape=box];
  r0 -> r15 [label="children[8] and 3 more"];
  r15 [label="4 x FailoverRoute"];
  r15 -> r16 [label="children[0]"];
  r16 [label="PoolRoute A\na:1", shape=box];
  r15 -> r17 [label="children[1]"];
  r17 [label="PoolRoute B\nb:1", shape=box];
  r0 -> r27 [label="children[12]"];
  r27 [label="FailoverRoute"];
  r27 -> r28 [label="children[0]"];
  r28 [label="PoolRoute D\nd:1", shape=box];
  r27 -> r29 [label="children[1]"];
  r29 [label="NullRoute"];
  r0 -> r30 [label="children[13]"];
  r30 [label="AllSyncRoute"];
  r30 -> r31 [label="children[0] and 8 more"];
  r31 [label="9 x Server\nl:1\nl:2\nl:3\nl:4\nl:5\nl:6\nl:7\nl:8\n..", shape=box];
}
"#
}

#[test]
fn alike_children(rt: HostRuntime) -> Result<(), Fail> {
    let out = picture(rt.alloc(), alike_text())?;
    assert_eq!(rt; out.as_slice(), alike_lines().as_bytes());
    Ok(())
}

// What a picture of this configuration ends with, whose gap's read goes to the second child of the third failover.
fn within_a_run_lines() -> &'static str {
    r#"  r0 [color=red];
  r0 -> r15 [label="children[10]", color=red];
  r15 [color=red];
  r15 -> r17 [label="children[1]", color=red];
  r17 [color=red];
  r17 -> s3 [label="get", color=red];
  s3 [label="d:1 (pool D, place 1 of 1)\nnot cleared by delete", shape=box, color=red, penwidth=2];
}
"#
}

#[test]
fn way_within_a_run(rt: HostRuntime) -> Result<(), Fail> {
    let gap = Gap {
        place: Place {
            prefix: None,
            residue: 0,
            modulus: 9,
        },
        server: ServerId::new(3),
        op: Op::Get,
        deleting: Deleting::Delete,
    };
    let way = [
        WayStep::Child(Listed::AllSync, 10),
        WayStep::Child(Listed::Failover, 1),
    ];
    let out = gap_picture(rt.alloc(), alike_text(), &gap, &way)?;
    assert!(rt; out.as_slice().ends_with(within_a_run_lines().as_bytes()));
    Ok(())
}

#[test]
fn quoted_bytes(rt: HostRuntime) -> Result<(), Fail> {
    let text = format!(in rt.alloc(); "{}", Quoted(b"a~\"\\\r\x7f\xff"))?;
    assert_eq!(rt; text.as_str(), "a~\\\"\\\\\\\\\\\\r\\\\x7f\\\\xff");
    Ok(())
}
