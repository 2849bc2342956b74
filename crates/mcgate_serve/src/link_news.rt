//! What happened to servers' links, and to clients that take nothing, is told.

ghost use Rattle.serve_proxy.specs.Ends.{Stay};

use crate::operating::Operating;
use crate::server_news::{ServerNews, tell_server};
use mc_types::ServerId;
use mcgate_notes::client_news::tell_stalled;
use route_json::addresses::Servers;
use serve_links::LinkNews;
use serve_proxy::Sockets;
use serve_wire::Wire;

// Whether the server of this number is still to be emptied before its first call.
fn flushes<W: Wire>(sockets: &Sockets<W>, at: usize) -> bool {
    match sockets.link(at) {
        Some(link) => link.flushes,
        None => false,
    }
}

impl Operating {
    /// Tells what happened to servers and clients. Where it can't be told nothing else is done.
    pub(crate) fn tell_news<R: Eprint, W: Wire>(
        &mut self,
        rt: &R,
        sockets: &mut Sockets<W>,
        servers: &Servers,
    )
        ensures { Stay W.history sockets.old sockets.new }
    {
        self.tell_links(rt, sockets, servers);
        self.tell_stalled(rt, sockets)
    }

    // Tells how many clients were closed, as they took nothing for too long.
    fn tell_stalled<R: Eprint, W: Wire>(&mut self, rt: &R, sockets: &mut Sockets<W>)
        ensures { Stay W.history sockets.old sockets.new }
    {
        if let Some(count) = sockets.next_stalled() {
            tell_stalled(rt, &mut self.lines, count);
        }
    }

    // Tells what happened to servers.
    fn tell_links<R: Eprint, W: Wire>(
        &mut self,
        rt: &R,
        sockets: &mut Sockets<W>,
        servers: &Servers,
    )
        ensures { Stay W.history sockets.old sockets.new }
    {
        for _ in 0..servers.len() {
            let Some((at, news)) = sockets.next_news() else {
                return;
            };
            self.tell_of(rt, sockets, servers, at, news);
        }
    }

    // Tells this of a server.
    fn tell_of<R: Eprint, W: Wire>(
        &mut self,
        rt: &R,
        sockets: &Sockets<W>,
        servers: &Servers,
        at: usize,
        news: LinkNews,
    ) {
        let Ok(number) = u32::try_from(at) else {
            return;
        };
        self.note_news(at, news, sockets.wire.last_millis());
        if !self.may_tell(at, news) {
            return;
        }
        let told = ServerNews {
            news,
            flushes: flushes(sockets, at),
        };
        if let Some(text) = servers.get(ServerId::new(number)) {
            tell_server(rt, &mut self.lines, text, told);
        }
    }

    // Whether this of a server is to be told: where lines have a time, that it is still down is
    // once a minute.
    fn may_tell(&mut self, at: usize, news: LinkNews) -> bool {
        match news {
            LinkNews::Opened | LinkNews::Back => {
                self.outages.note_up(at);
                true
            }
            LinkNews::Failed(_, _) | LinkNews::Late => {
                self.lines.tells_all() || self.outages.note_down(at, self.lines.now())
            }
        }
    }

    // This is kept of a server. The name of one whose connection failed is soon looked up again.
    fn note_news(&mut self, at: usize, news: LinkNews, now: u64) {
        self.seen.note_news(at, news, now);
        match news {
            LinkNews::Failed(_, _) => self.names.note_failed(at),
            LinkNews::Opened | LinkNews::Back | LinkNews::Late => {}
        }
    }
}
