//! Where a proxy listens: at hosts and ports, at paths of the machine, and on a socket that it was given.

use crate::shared_port::{let_wait, listen_beside};
use mcgate_args::details::Explaining;
use mcgate_ends::details::Details;
use mcgate_ends::serve_job::ServeJob;
use mcgate_serve::look_ups::resolve;
use mio::net::TcpListener;
use serve_wire::sockets::Listener;
use std::alloc::{AllocError, Global};
use std::io;
use std::net::Net;
use std::os::fd::{AsFd, OwnedFd};
use std::rt::Files;
use watch_admin::control::paths::listen_at;

/// What a process was given when it began.
pub trait Given {
    /// Another descriptor of its standard input.
    fn given_input(&self) -> io::Result<OwnedFd>;
}

impl Given for HostRuntime {
    fn given_input(&self) -> io::Result<OwnedFd> {
        self.stdin().as_fd().try_clone_to_owned()
    }
}

/// What a text says of where to listen.
#[derive(Clone, Copy, PartialEq, Eq)]
pub enum ListenPlace<'a> {
    /// At a host and a port.
    Address(&'a str),
    /// At a path.
    Path(&'a str),
    /// On the socket that is standard input, which listens already.
    Input,
}

/// The place that a text names: `unix:PATH`, `fd:0`, or else a host and a port.
pub fn place_of(text: &str) -> ListenPlace<'_> {
    match text.strip_prefix("unix:") {
        Some(path) => ListenPlace::Path(path),
        None if text == "fd:0" => ListenPlace::Input,
        None => ListenPlace::Address(text),
    }
}

// Standard input as what listens, if it is a socket over TCP.
fn given_listener<R: Given>(rt: &R) -> io::Result<TcpListener> {
    let listener = std::net::TcpListener::from(rt.given_input()?);
    let _ = listener.local_addr()?;
    listener.set_nonblocking(true)?;
    Ok(TcpListener::from_std(listener))
}

// It listens at a host and a port.
fn tcp_listener_at<N: Net>(net: &N, text: &str, job: &ServeJob<'_>) -> io::Result<TcpListener> {
    let address = resolve(net, text)?;
    if job.reuse_port {
        return listen_beside(net, address, job.tcp_backlog);
    }
    let listener = TcpListener::bind(net, address)?;
    let_wait(&listener, job.tcp_backlog)?;
    Ok(listener)
}

// It listens where a text says.
fn listener_at<R: Files + Net + Given>(
    rt: &R,
    text: &str,
    job: &ServeJob<'_>,
) -> io::Result<Listener> {
    match place_of(text) {
        ListenPlace::Address(address) => Ok(Listener::Tcp(tcp_listener_at(rt, address, job)?)),
        ListenPlace::Path(path) => Ok(Listener::Unix(listen_at(rt, path, job.unix_mode)?)),
        ListenPlace::Input => Ok(Listener::Tcp(given_listener(rt)?)),
    }
}

// It listens where a text says. Where it can't, a line of detail says why.
fn listener_noting<R: Files + Net + Given + AllocGlobal>(
    rt: &R,
    text: &str,
    job: &ServeJob<'_>,
    details: &mut Details,
) -> io::Result<Listener> {
    match listener_at(rt, text, job) {
        Ok(listener) => Ok(listener),
        Err(error) => {
            details.add_listen(rt.alloc(), text, &error);
            Err(error)
        }
    }
}

// Adds where it listens, as the text says, or at a host and a port as the system does, which may have picked the port.
fn add_place(places: &mut String, text: &str, listener: &Listener) -> Result<(), AllocError> {
    if !places.is_empty() {
        places.push_str(",")?;
    }
    match listener.local_addr() {
        Ok(address) => write!(places, "{address}"),
        Err(_) => places.push_str(text),
    }
}

/// What listens, and where.
#[derive(Drop)]
pub struct Listening {
    pub listeners: Vec<Listener>,
    /// The places, with a comma between two. At a host and a port each has the port at which it listens.
    pub places: String,
}

impl Listening {
    // Nothing listens yet.
    fn new(alloc: Global) -> Listening {
        Listening {
            listeners: Vec::new(alloc),
            places: String::new(alloc),
        }
    }

    // It listens at this place, too.
    fn add<R: Files + Net + Given + AllocGlobal>(
        &mut self,
        rt: &R,
        text: &str,
        job: &ServeJob<'_>,
        details: &mut Details,
    ) -> io::Result<()> {
        let listener = listener_noting(rt, text, job, details)?;
        add_place(&mut self.places, text, &listener)?;
        Ok(self.listeners.push(listener)?)
    }

    /// It listens at each of the places that a job names, which have a comma between two. Where it can't at one of them, a line of
    /// detail says at which, and why.
    pub fn at<R: Files + Net + Given + AllocGlobal>(
        rt: &R,
        job: &ServeJob<'_>,
        details: &mut Details,
    ) -> io::Result<Listening> {
        let mut listening = Listening::new(rt.alloc());
        for text in job.listen.split(',') {
            listening.add(rt, text, job, details)?;
        }
        Ok(listening)
    }
}
