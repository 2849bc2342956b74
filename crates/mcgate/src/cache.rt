//! `mcgate cache`: one cache server over TCP.

use cache_tcp::CacheEnd;
use mcgate_args::cache_arguments::CacheJob;
use mcgate_args::details::Explaining;
use mcgate_ends::details::Details;
use mcgate_ends::ends::Stop;
use mcgate_lines::status::DONE;
use serve_wire::sockets::Sockets;
use std::io;
use std::net::Net;
use std::rt::Clock;

const MIB: usize = 1_048_576;

// How many bytes so many MiB are, if there is a bound.
fn bytes_of(memory_mb: Option<u32>) -> Option<usize> {
    match memory_mb {
        Some(count) => Some((count as usize).saturating_mul(MIB)),
        None => None,
    }
}

// Turns the server, as often as is asked.
fn turn_cache<R: Clock>(rt: &R, end: &mut CacheEnd<Sockets>, turns: Option<u32>) -> io::Result<()> {
    for _ in 0..turns.map_or(u64::MAX, u64::from) {
        end.turn(rt)?;
    }
    Ok(())
}

/// Listens, tells so, and serves. The answer is the exit status after the turns that were asked.
///
/// [`Stop::Device`] comes where it can't listen there, of which a line of detail says why, or where the system's wait or clock fails, and
/// [`Stop::Memory`] where memory was refused for the server itself.
pub fn serve_cache<R: Net + Clock + AllocGlobal + Eprint>(
    rt: &R,
    job: CacheJob<'_>,
    details: &mut Details,
) -> Result<u8, Stop> {
    let memory = bytes_of(job.memory_mb);
    let mut end = match CacheEnd::listen_within(rt, job.listen, job.settings, memory) {
        Ok(end) => end,
        Err(error) => {
            details.add_listen(rt.alloc(), job.listen, &error);
            return Err(Stop::from(error));
        }
    };
    let address = end.address()?;
    eprintln!(rt;
        "mcgate: cache on {address}, capacity {}",
        job.settings.capacity
    )?;
    turn_cache(rt, &mut end, job.turns)?;
    Ok(DONE)
}
