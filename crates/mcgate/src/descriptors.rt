//! How many clients can be served with the descriptors that the process may have.

use libc::types::rlimit;
use libc::{RLIMIT_NOFILE, getrlimit};
use mcgate_ends::serve_job::ServeJob;
use mcgate_notes::events::{Field, LogEvent, Subject};
use mcgate_notes::lines::Lines;
use watch_admin::places::PLACES;

// So many descriptors are kept for what is neither a client nor a server of the configuration: the standard ones, the listener, what it
// waits with, the file that is read again, and servers that a reload brings.
const RESERVE: usize = 16;

// So many descriptors are kept for who asks for numbers, where it listens for them: as many as may be there, the listener, and what waits for them.
const WATCHING: usize = PLACES + 2;

// So many descriptors are kept for who tells it things, where it listens for them: as many as may be there, the listener, and what waits for them.
const CONTROLLING: usize = PLACES + 2;

// How many descriptors the process may have open, if the system tells.
fn most_descriptors() -> Option<usize> {
    let mut limit = rlimit {
        rlim_cur: 0,
        rlim_max: 0,
    };
    if getrlimit(RLIMIT_NOFILE, &mut limit) != 0 {
        return None;
    }
    usize::try_from(limit.rlim_cur).ok()
}

// How many are kept for what is neither a client nor a server.
fn rest_of(job: &ServeJob<'_>) -> usize {
    let watching = if job.metrics.is_some() { WATCHING } else { 0 };
    let controlling = if job.control.is_some() {
        CONTROLLING
    } else {
        0
    };
    RESERVE + watching + controlling
}

/// The job, with as many clients at once as there are descriptors for beside its servers'. Where those are fewer than wanted, a line on
/// standard error tells so.
pub fn within_descriptors<'a, R: Eprint>(
    rt: &R,
    lines: &mut Lines,
    job: ServeJob<'a>,
    servers: usize,
) -> ServeJob<'a> {
    let Some(most) = most_descriptors() else {
        return job;
    };
    let wanted = job.settings.clients;
    let rest = rest_of(&job);
    let settings = job.settings.within_descriptors(most, servers, rest);
    let clients = settings.clients;
    if clients < wanted {
        let line = format_args!(
            "mcgate: WARNING: {most} descriptors may be open (ulimit -n): {clients} clients are served at once, not {wanted}; {servers} are kept for servers, {rest} for the rest"
        );
        let fields = [
            Field::event("few_descriptors"),
            Field::count("descriptors", most as u64),
            Field::count("clients", clients as u64),
            Field::count("servers", servers as u64),
            Field::count("rest", rest as u64),
        ];
        lines.tell(rt, LogEvent::warn(Subject::Process, &fields), line);
    }
    ServeJob { settings, ..job }
}
