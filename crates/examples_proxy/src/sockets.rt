//! Real sockets on 127.0.0.1.

use examples_tables::playing::shown;
use examples_tables::tables::same;
use mc_types::Body;
use serve_wire::conn::{Conn, Got, Limits, Sent};
use serve_wire::sockets::Sockets;
use serve_wire::{Accepted, Connected, Report, Wire};
use std::alloc::Global;
use std::io::{Read, Write};
use std::net::{IpAddr, Ipv4Addr, SocketAddr, TcpListener, TcpStream};
use std::test::Fail;
use std::time::Duration;

const LIMITS: Limits = Limits {
    held: 64,
    unsent: 64,
};

// A connection's place among those that are open.
const SLOTS: usize = 16_777_216;

// 127.0.0.1, at a port that the system picks.
fn any_port() -> SocketAddr {
    SocketAddr::new(IpAddr::V4(Ipv4Addr::LOCALHOST), 0)
}

// That this is so.
fn holds(name: &str, is_so: bool) -> Result<(), Fail> {
    same(name, if is_so { "yes" } else { "no" }, "yes")
}

fn wait(wire: &mut Sockets) -> Result<usize, Fail> {
    Ok(wire.wait(Some(Duration::from_secs(1)))?)
}

// Who waits, now or soon, is accepted as this client.
fn accept(wire: &mut Sockets, client: usize) -> Result<usize, Fail> {
    for _ in 0..10 {
        if let Accepted::Peer(number) = wire.accept() {
            wire.admit(number, client)?;
            return Ok(number);
        }
        wait(wire)?;
    }
    Err("nobody came")?
}

// Waits until something is told of this client or server.
fn wait_for(wire: &mut Sockets, is_client: bool, number: usize) -> Result<(), Fail> {
    for _ in 0..10 {
        for at in 0..wait(wire)? {
            match wire.report(at) {
                Some(Report::Client(id, _)) if is_client && id == number => return Ok(()),
                Some(Report::Server(server, _)) if !is_client && server == number => return Ok(()),
                _ => {}
            }
        }
    }
    Err("nothing was told")?
}

// What a read gives, now or soon.
fn read(wire: &mut Sockets, end: &mut Conn) -> Result<Got, Fail> {
    for _ in 0..10 {
        match end.read_once(wire, 16)? {
            Got::Nothing => {}
            got => return Ok(got),
        }
        wait(wire)?;
    }
    Ok(Got::Nothing)
}

// These bytes come.
fn comes(alloc: Global, wire: &mut Sockets, end: &mut Conn, text: &str) -> Result<(), Fail> {
    holds("read", read(wire, end)? == Got::Bytes)?;
    let got = shown(alloc, end.held.as_slice())?;
    end.held.clear();
    same("came", got.as_str(), text)
}

// Three pieces go by one write.
fn send_pieces(alloc: Global, wire: &mut Sockets, end: &mut Conn) -> Result<(), Fail> {
    end.unsent.text.extend_from_slice(b"VALUE a 0 3\r\n")?;
    let body = Body::from_slice(alloc, b"abc")?;
    let mut last = end.unsent.new_text();
    last.extend_from_slice(b"\r\nEND\r\n")?;
    end.unsent.push_data(&body, last)?;
    holds("sent", end.send_parts(wire) == Sent::Bytes)?;
    holds("all went", end.unsent.is_empty())
}

fn take_pieces(alloc: Global, peer: &mut TcpStream) -> Result<(), Fail> {
    let mut room = [0; 23];
    peer.read_exact(&mut room)?;
    let got = shown(alloc, &room)?;
    same("taken", got.as_str(), r"VALUE a 0 3\r\nabc\r\nEND\r\n")
}

fn connected(rt: &HostRuntime, wire: &Sockets) -> Result<TcpStream, Fail> {
    Ok(TcpStream::connect(rt, wire.local_addr()?)?)
}

fn leave(_peer: TcpStream) {}

// A client asks, takes its reply, and leaves.
fn serve_client(rt: &HostRuntime, wire: &mut Sockets) -> Result<usize, Fail> {
    let mut peer = connected(rt, wire)?;
    let number = accept(wire, 7)?;
    let mut end = Conn::new(rt.alloc(), number, LIMITS);
    wait_for(wire, true, 7)?;
    peer.write_all(b"get a\r\n")?;
    comes(rt.alloc(), wire, &mut end, r"get a\r\n")?;
    send_pieces(rt.alloc(), wire, &mut end)?;
    take_pieces(rt.alloc(), &mut peer)?;
    leave(peer);
    holds("ended", read(wire, &mut end)? == Got::Ended)?;
    wire.close(number);
    Ok(number)
}

// The next one has the place of the one before it, and another number; the old number is nobody's.
fn serve_next(rt: &HostRuntime, wire: &mut Sockets, before: usize) -> Result<(), Fail> {
    let mut peer = connected(rt, wire)?;
    let number = accept(wire, 8)?;
    holds("place", number % SLOTS == before % SLOTS)?;
    holds("number", number != before)?;
    peer.write_all(b"x")?;
    wait_for(wire, true, 8)?;
    let mut old = Conn::new(rt.alloc(), before, LIMITS);
    holds("old", old.read_once(wire, 16)? == Got::Nothing)?;
    let mut end = Conn::new(rt.alloc(), number, LIMITS);
    comes(rt.alloc(), wire, &mut end, "x")
}

#[test]
fn clients_of_sockets(rt: HostRuntime) -> Result<(), Fail> {
    let mut wire = Sockets::listen(&rt, any_port())?;
    let before = serve_client(&rt, &mut wire)?;
    serve_next(&rt, &mut wire, before)
}

fn begun(rt: &HostRuntime, wire: &mut Sockets, text: &str) -> Result<usize, Fail> {
    match wire.connect(rt, 4, text.as_bytes()) {
        Connected::Begun(number) => Ok(number),
        _ => Err("no connection was begun")?,
    }
}

// A server is connected to once its text was looked up, and answers.
fn ask_server(rt: &HostRuntime, wire: &mut Sockets, host: &TcpListener) -> Result<(), Fail> {
    let text = format!(in rt.alloc(); "{}", host.local_addr()?)?;
    let early = wire.connect(rt, 4, text.as_bytes());
    holds("no address", early == Connected::NoAddress)?;
    wire.resolve(rt, text.as_bytes())?;
    let number = begun(rt, wire, text.as_str())?;
    let (mut peer, _) = host.accept()?;
    wait_for(wire, false, 4)?;
    holds("stands", wire.is_connected(number))?;
    let mut end = Conn::new(rt.alloc(), number, LIMITS);
    send_pieces(rt.alloc(), wire, &mut end)?;
    take_pieces(rt.alloc(), &mut peer)?;
    peer.write_all(b"END\r\n")?;
    comes(rt.alloc(), wire, &mut end, r"END\r\n")
}

#[test]
fn servers_of_sockets(rt: HostRuntime) -> Result<(), Fail> {
    let mut wire = Sockets::listen(&rt, any_port())?;
    let host = TcpListener::bind(&rt, "127.0.0.1:0")?;
    ask_server(&rt, &mut wire, &host)
}
