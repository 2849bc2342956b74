//! Numbers of a proxy, and the texts that tell them.

use std::alloc::{AllocError, Global};
use std::io;
use std::test::Fail;
use watch_admin::json::write_json;
use watch_admin::numbers::{
    CallNumbers, CauseNumbers, ClientNumbers, CommandNumbers, CommandTimes, ConfigNumbers,
    LimitNumbers, Numbers, ProcessNumbers, RefusalNumbers, ServerNumbers, SpanNumbers, families_of,
    families_with_lines,
};
use watch_admin::prometheus::write_prometheus;

fn metrics() -> &'static str {
    r#"# HELP mcgate_build_info The version that runs, and whether it was proved.
# TYPE mcgate_build_info gauge
mcgate_build_info{version="1",proved="true"} 1
# HELP mcgate_uptime_seconds For how long it has run.
# TYPE mcgate_uptime_seconds gauge
mcgate_uptime_seconds 61.005
# HELP mcgate_cpu_seconds_total Processor time that it used.
# TYPE mcgate_cpu_seconds_total counter
mcgate_cpu_seconds_total 0.120
# HELP mcgate_resident_memory_bytes Memory in use.
# TYPE mcgate_resident_memory_bytes gauge
mcgate_resident_memory_bytes 4096
# HELP mcgate_lost_lines_total Lines that could not be written to its outputs.
# TYPE mcgate_lost_lines_total counter
mcgate_lost_lines_total 1
# HELP mcgate_config_info The text in use, by its sum.
# TYPE mcgate_config_info gauge
mcgate_config_info{sha256="5f2d"} 1
# HELP mcgate_generation The configuration in use.
# TYPE mcgate_generation gauge
mcgate_generation 2
# HELP mcgate_reloads_total New texts of its file, by what became of them.
# TYPE mcgate_reloads_total counter
mcgate_reloads_total{verdict="accepted"} 3
mcgate_reloads_total{verdict="unchanged"} 4
mcgate_reloads_total{verdict="refused"} 5
# HELP mcgate_config_last_refused_timestamp_seconds When a text of its file was refused last, in seconds from the begin of 1970 on; 0 where none was.
# TYPE mcgate_config_last_refused_timestamp_seconds gauge
mcgate_config_last_refused_timestamp_seconds 1700000000.028
# HELP mcgate_clients Clients that are there.
# TYPE mcgate_clients gauge
mcgate_clients 6
# HELP mcgate_client_connections_total Clients that came; those refused were too many.
# TYPE mcgate_client_connections_total counter
mcgate_client_connections_total{verdict="accepted"} 7
mcgate_client_connections_total{verdict="refused"} 8
# HELP mcgate_accept_failures_total How often the system refused to accept a connection: too many descriptors were open, or no memory was left.
# TYPE mcgate_accept_failures_total counter
mcgate_accept_failures_total 31
# HELP mcgate_clients_closed_total Clients that are gone, by why they went.
# TYPE mcgate_clients_closed_total counter
mcgate_clients_closed_total{cause="ended"} 9
mcgate_clients_closed_total{cause="stalled"} 27
# HELP mcgate_client_bytes_total Bytes that came from clients, and that there were to send to them.
# TYPE mcgate_client_bytes_total counter
mcgate_client_bytes_total{direction="in"} 10
mcgate_client_bytes_total{direction="out"} 18446744073709551615
# HELP mcgate_bad_messages_total Messages of clients that were no valid commands, or had too large data, and were answered by an error.
# TYPE mcgate_bad_messages_total counter
mcgate_bad_messages_total 30
# HELP mcgate_commands_begun_total Commands that have begun, one for each key.
# TYPE mcgate_commands_begun_total counter
mcgate_commands_begun_total 68
# HELP mcgate_commands_total Commands that have ended, one for each key: with an item in the reply, as an acknowledged delete, with an error, or otherwise.
# TYPE mcgate_commands_total counter
mcgate_commands_total{op="get",reply="item"} 11
mcgate_commands_total{op="get",reply="acknowledged"} 12
mcgate_commands_total{op="get",reply="error"} 23
mcgate_commands_total{op="get",reply="other"} 13
# HELP mcgate_command_seconds How long commands took that have ended, from when they began, or came to wait for their key.
# TYPE mcgate_command_seconds histogram
mcgate_command_seconds_bucket{le="0.0001"} 10
mcgate_command_seconds_bucket{le="+Inf"} 18
mcgate_command_seconds_sum 2.000020
mcgate_command_seconds_count 18
# HELP mcgate_calls_made_total Calls of servers that commands have made.
# TYPE mcgate_calls_made_total counter
mcgate_calls_made_total 24
# HELP mcgate_calls_total Those that have ended, by what became of them, also where they failed at once.
# TYPE mcgate_calls_total counter
mcgate_calls_total{outcome="answered"} 25
mcgate_calls_total{outcome="failed"} 26
# HELP mcgate_server_up 1 where a connection to the server stands.
# TYPE mcgate_server_up gauge
mcgate_server_up{server="\"a\\:1?"} 1
# HELP mcgate_server_late 1 while answers of the server to calls that have failed are still to come.
# TYPE mcgate_server_late gauge
mcgate_server_late{server="\"a\\:1?"} 0
# HELP mcgate_server_unknown 1 while the server's name has led to no machine: its calls fail at once.
# TYPE mcgate_server_unknown gauge
mcgate_server_unknown{server="\"a\\:1?"} 1
# HELP mcgate_server_fails_at_once 1 while calls of the server fail at once, without being sent.
# TYPE mcgate_server_fails_at_once gauge
mcgate_server_fails_at_once{server="\"a\\:1?"} 1
# HELP mcgate_server_connections_total Connections to the server that stood.
# TYPE mcgate_server_connections_total counter
mcgate_server_connections_total{server="\"a\\:1?"} 14
# HELP mcgate_server_calls_out Calls at the server that wait for its answer.
# TYPE mcgate_server_calls_out gauge
mcgate_server_calls_out{server="\"a\\:1?"} 15
# HELP mcgate_server_failures_total Failures of the link to the server, by cause.
# TYPE mcgate_server_failures_total counter
mcgate_server_failures_total{server="\"a\\:1?",cause="closed"} 16
# HELP mcgate_server_call_limit_seconds How long a call to the server may take.
# TYPE mcgate_server_call_limit_seconds gauge
mcgate_server_call_limit_seconds{server="\"a\\:1?"} 1.000
# HELP mcgate_server_connect_limit_seconds How long a connection to the server may take to stand.
# TYPE mcgate_server_connect_limit_seconds gauge
mcgate_server_connect_limit_seconds{server="\"a\\:1?"} 60.020
# HELP mcgate_server_fail_limit After how many failures in a row calls of the server fail at once.
# TYPE mcgate_server_fail_limit gauge
mcgate_server_fail_limit{server="\"a\\:1?"} 21
# HELP mcgate_server_retry_seconds For how long they do, before one call tries it.
# TYPE mcgate_server_retry_seconds gauge
mcgate_server_retry_seconds{server="\"a\\:1?"} 0.022
# HELP mcgate_server_calls_made_total Calls of the server that commands have made.
# TYPE mcgate_server_calls_made_total counter
mcgate_server_calls_made_total{server="\"a\\:1?"} 66
# HELP mcgate_server_calls_total Calls of the server that have ended, by what became of them; those unsent have failed and never went out.
# TYPE mcgate_server_calls_total counter
mcgate_server_calls_total{server="\"a\\:1?",outcome="answered"} 18
mcgate_server_calls_total{server="\"a\\:1?",outcome="failed"} 19
mcgate_server_calls_total{server="\"a\\:1?",outcome="unsent"} 29
# HELP mcgate_calls_unplaced_total How often a call that was made, or answered, or has failed, is counted at no server, as memory was refused for that.
# TYPE mcgate_calls_unplaced_total counter
mcgate_calls_unplaced_total 67
# HELP mcgate_server_error_answers_total Answers of the server that were errors: ERROR, CLIENT_ERROR or SERVER_ERROR.
# TYPE mcgate_server_error_answers_total counter
mcgate_server_error_answers_total{server="\"a\\:1?"} 31
# HELP mcgate_server_call_seconds How long the server's answers took, from when the call went out.
# TYPE mcgate_server_call_seconds histogram
mcgate_server_call_seconds_bucket{server="\"a\\:1?",le="0.0001"} 10
mcgate_server_call_seconds_bucket{server="\"a\\:1?",le="+Inf"} 18
mcgate_server_call_seconds_sum{server="\"a\\:1?"} 3.004050
mcgate_server_call_seconds_count{server="\"a\\:1?"} 18
# HELP mcgate_scrapes_total Requests for these numbers that were answered before.
# TYPE mcgate_scrapes_total counter
mcgate_scrapes_total 17
"#
}

fn stats() -> &'static str {
    r#"{"mcgate_build_info":[{"version":"1","proved":"true","value":1}],
"mcgate_uptime_seconds":61.005,
"mcgate_cpu_seconds_total":0.120,
"mcgate_resident_memory_bytes":4096,
"mcgate_lost_lines_total":1,
"mcgate_config_info":[{"sha256":"5f2d","value":1}],
"mcgate_generation":2,
"mcgate_reloads_total":[{"verdict":"accepted","value":3},{"verdict":"unchanged","value":4},{"verdict":"refused","value":5}],
"mcgate_config_last_refused_timestamp_seconds":1700000000.028,
"mcgate_clients":6,
"mcgate_client_connections_total":[{"verdict":"accepted","value":7},{"verdict":"refused","value":8}],
"mcgate_accept_failures_total":31,
"mcgate_clients_closed_total":[{"cause":"ended","value":9},{"cause":"stalled","value":27}],
"mcgate_client_bytes_total":[{"direction":"in","value":10},{"direction":"out","value":18446744073709551615}],
"mcgate_bad_messages_total":30,
"mcgate_commands_begun_total":68,
"mcgate_commands_total":[{"op":"get","reply":"item","value":11},{"op":"get","reply":"acknowledged","value":12},{"op":"get","reply":"error","value":23},{"op":"get","reply":"other","value":13}],
"mcgate_command_seconds":{"le":[{"le":"0.0001","value":10},{"le":"+Inf","value":18}],"sum":[{"value":2.000020}],"n":[{"value":18}]},
"mcgate_calls_made_total":24,
"mcgate_calls_total":[{"outcome":"answered","value":25},{"outcome":"failed","value":26}],
"mcgate_server_up":[{"server":"\"a\\:1?","value":1}],
"mcgate_server_late":[{"server":"\"a\\:1?","value":0}],
"mcgate_server_unknown":[{"server":"\"a\\:1?","value":1}],
"mcgate_server_fails_at_once":[{"server":"\"a\\:1?","value":1}],
"mcgate_server_connections_total":[{"server":"\"a\\:1?","value":14}],
"mcgate_server_calls_out":[{"server":"\"a\\:1?","value":15}],
"mcgate_server_failures_total":[{"server":"\"a\\:1?","cause":"closed","value":16}],
"mcgate_server_call_limit_seconds":[{"server":"\"a\\:1?","value":1.000}],
"mcgate_server_connect_limit_seconds":[{"server":"\"a\\:1?","value":60.020}],
"mcgate_server_fail_limit":[{"server":"\"a\\:1?","value":21}],
"mcgate_server_retry_seconds":[{"server":"\"a\\:1?","value":0.022}],
"mcgate_server_calls_made_total":[{"server":"\"a\\:1?","value":66}],
"mcgate_server_calls_total":[{"server":"\"a\\:1?","outcome":"answered","value":18},{"server":"\"a\\:1?","outcome":"failed","value":19},{"server":"\"a\\:1?","outcome":"unsent","value":29}],
"mcgate_calls_unplaced_total":67,
"mcgate_server_error_answers_total":[{"server":"\"a\\:1?","value":31}],
"mcgate_server_call_seconds":{"le":[{"server":"\"a\\:1?","le":"0.0001","value":10},{"server":"\"a\\:1?","le":"+Inf","value":18}],"sum":[{"server":"\"a\\:1?","value":3.004050}],"n":[{"server":"\"a\\:1?","value":18}]},
"mcgate_scrapes_total":17,
"mcgate_config_last_refused":[{"line":"reload refused: too many places","value":1700000000.028}]}
"#
}

fn process(alloc: Global) -> Result<ProcessNumbers, AllocError> {
    Ok(ProcessNumbers {
        version: String::from_str(alloc, "1")?,
        proved: true,
        uptime_ms: 61_005,
        processor_ms: 120,
        resident_bytes: 4_096,
        lost_lines: 1,
    })
}

fn commands(alloc: Global) -> Result<Vec<CommandNumbers>, AllocError> {
    let mut commands = Vec::new(alloc);
    commands.push(CommandNumbers {
        op: "get",
        items: 11,
        acknowledged: 12,
        errors: 23,
        others: 13,
    })?;
    Ok(commands)
}

fn spans(alloc: Global) -> Result<Vec<SpanNumbers>, AllocError> {
    let mut spans = Vec::new(alloc);
    spans.push(SpanNumbers {
        most: String::from_str(alloc, "0.0001")?,
        count: 10,
    })?;
    spans.push(SpanNumbers {
        most: String::from_str(alloc, "+Inf")?,
        count: 8,
    })?;
    Ok(spans)
}

fn departures(alloc: Global) -> Result<Vec<CauseNumbers>, AllocError> {
    let mut departures = Vec::new(alloc);
    departures.push(CauseNumbers {
        cause: "ended",
        count: 9,
    })?;
    departures.push(CauseNumbers {
        cause: "stalled",
        count: 27,
    })?;
    Ok(departures)
}

fn servers(alloc: Global) -> Result<Vec<ServerNumbers>, AllocError> {
    let mut failures = Vec::new(alloc);
    failures.push(CauseNumbers {
        cause: "closed",
        count: 16,
    })?;
    let mut servers = Vec::new(alloc);
    servers.push(ServerNumbers {
        text: String::from_str(alloc, "\"a\\:1\n")?,
        limits: LimitNumbers {
            call_ms: 1_000,
            connect_ms: 60_020,
            failures: 21,
            retry_ms: 22,
        },
        is_up: true,
        is_late: false,
        is_unknown: true,
        fails_at_once: true,
        connections: 14,
        calls_out: 15,
        failures,
        made: 66,
        answered: 18,
        errors: 31,
        failed: 19,
        unsent: 29,
        timed: 18,
        answer_micros: 3_004_050,
        spans: spans(alloc)?,
    })?;
    Ok(servers)
}

fn numbers(alloc: Global) -> Result<Numbers, AllocError> {
    Ok(Numbers {
        process: process(alloc)?,
        config: ConfigNumbers {
            generation: 2,
            accepted: 3,
            unchanged: 4,
            refused: 5,
        },
        config_sum: String::from_str(alloc, "5f2d")?,
        refusal: Some(RefusalNumbers {
            line: String::from_str(alloc, "reload refused: too many places")?,
            at_ms: 1_700_000_000_028,
        }),
        clients: ClientNumbers {
            connected: 6,
            accepted: 7,
            refused: 8,
            bad_messages: 30,
            unaccepted: 31,
            read_bytes: 10,
            sent_bytes: u64::MAX,
        },
        departures: departures(alloc)?,
        begun: 68,
        commands: commands(alloc)?,
        command_times: CommandTimes {
            ended: 18,
            micros: 2_000_020,
            spans: spans(alloc)?,
        },
        calls: CallNumbers {
            made: 24,
            answered: 25,
            failed: 26,
            unplaced: 67,
        },
        servers: servers(alloc)?,
        scrapes: 17,
    })
}

fn metrics_of(alloc: Global) -> io::Result<Vec<u8>> {
    let mut text = Vec::new(alloc);
    let families = families_of(alloc, &numbers(alloc)?)?;
    write_prometheus(families.as_slice(), &mut text)?;
    Ok(text)
}

fn stats_of(alloc: Global) -> io::Result<Vec<u8>> {
    let mut text = Vec::new(alloc);
    let families = families_with_lines(alloc, &numbers(alloc)?)?;
    write_json(families.as_slice(), &mut text)?;
    Ok(text)
}

#[test]
fn numbers_as_texts(rt: HostRuntime) -> Result<(), Fail> {
    let text = metrics_of(rt.alloc())?;
    assert!(rt; text.as_slice() == metrics().as_bytes());
    let text = stats_of(rt.alloc())?;
    assert!(rt; text.as_slice() == stats().as_bytes());
    Ok(())
}
