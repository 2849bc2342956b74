//! Bytes of clients, what they ask for, and what answers them. In tables `⏎` is a line end.

use examples_tables::tables::unfolded;
use examples_tables::tellers::{Teller, wrong};
use std::alloc::{AllocError, Global};
use std::io;
use std::test::Fail;
use watch_admin::http::answers::{write_page, write_refusal};
use watch_admin::http::exchange::{Asking, Exchange};
use watch_admin::http::request::{AskedPage, Page, Refusal, what_is_asked};

// Bytes, and what they ask for, or the status of a refusal.
fn requests() -> &'static str {
    "GET /metrics HTTP/1.1⏎⏎ => metrics
GET /metrics HTTP/1.0⏎Host: a:1⏎Accept: */*⏎⏎ => metrics
⏎GET /stats.json HTTP/1.1⏎⏎and more => stats
 => unfinished
GET => unfinished
GET /metrics HTTP/1.1⏎ => unfinished
GET /metrics HTTP/1.1⏎Host: a:1⏎ => unfinished
GET / HTTP/1.1⏎⏎ => home
GET /config.json HTTP/1.1⏎⏎ => config
GET /index.html HTTP/1.1⏎⏎ => 404
GET /? HTTP/1.1⏎⏎ => 404
GET /metrics/ HTTP/1.1⏎⏎ => 404
GET /metrics?name=a HTTP/1.1⏎⏎ => 404
GET /Metrics HTTP/1.1⏎⏎ => 404
POST /metrics HTTP/1.1⏎⏎ => 405
HEAD /metrics HTTP/1.1⏎⏎ => 405
get /metrics HTTP/1.1⏎⏎ => 405
PUT / HTTP/1.1⏎⏎ => 405
GET /metrics HTTP/2.0⏎⏎ => 400
GET /metrics⏎⏎ => 400
 GET /metrics HTTP/1.1⏎⏎ => 400
GET /metrics HTTP/1.1⏎a b⏎⏎ => 400
GET /metrics HTTP/1.1⏎«64 h#: v⏎»⏎ => metrics
GET /metrics HTTP/1.1⏎«65 h#: v⏎»⏎ => 431
GET /«8186 a» => unfinished
GET /«8187 a» => 431
GET /«8200 a» => 431"
}

fn told_of(asked: AskedPage) -> &'static str {
    match asked {
        AskedPage::Unfinished => "unfinished",
        AskedPage::For(Page::Home) => "home",
        AskedPage::For(Page::Config) => "config",
        AskedPage::For(Page::Metrics) => "metrics",
        AskedPage::For(Page::Stats) => "stats",
        AskedPage::Refused(Refusal::Bad) => "400",
        AskedPage::Refused(Refusal::NotFound) => "404",
        AskedPage::Refused(Refusal::NotAllowed) => "405",
        AskedPage::Refused(Refusal::TooLarge) => "431",
    }
}

#[derive(Drop)]
struct OfRequests;

impl Teller for OfRequests {
    fn told(alloc: Global, example: &str) -> Result<String, AllocError> {
        let bytes = unfolded(alloc, example)?;
        String::from_str(alloc, told_of(what_is_asked(bytes.as_str().as_bytes())))
    }
}

#[test]
fn requests_ask(rt: HostRuntime) -> Result<(), Fail> {
    assert_eq!(rt; wrong::<OfRequests>(rt.alloc(), requests())?.as_str(), "");
    Ok(())
}

fn refusal_of(alloc: Global, refusal: Refusal) -> io::Result<Vec<u8>> {
    let mut bytes = Vec::new(alloc);
    write_refusal(refusal, &mut bytes)?;
    Ok(bytes)
}

fn page_of(alloc: Global, body: &[u8]) -> io::Result<Vec<u8>> {
    let mut bytes = Vec::new(alloc);
    write_page(Page::Stats, body, &mut bytes)?;
    Ok(bytes)
}

#[test]
fn answers_have_heads(rt: HostRuntime) -> Result<(), Fail> {
    let refused = refusal_of(rt.alloc(), Refusal::NotAllowed)?;
    let wanted =
        b"HTTP/1.1 405 Method Not Allowed\r\nAllow: GET\r\nContent-Type: text/plain\r\nContent-Length: 22\r\nConnection: close\r\n\r\n405 Method Not Allowed";
    assert!(rt; refused.as_slice() == wanted.as_slice());
    let page = page_of(rt.alloc(), b"{}\n")?;
    let wanted =
        b"HTTP/1.1 200 OK\r\nContent-Type: application/json\r\nContent-Length: 3\r\nConnection: close\r\n\r\n{}\n";
    assert!(rt; page.as_slice() == wanted.as_slice());
    Ok(())
}

// What is sent to a client of these bytes, which are taken in two parts.
fn sent_to(alloc: Global, first: &[u8], second: &[u8]) -> io::Result<usize> {
    let asking = Asking::new(alloc);
    if asking.room() < first.len() {
        return Ok(2);
    }
    match asking.take(alloc, first)? {
        Exchange::Asking(asking) => sent_after(alloc, asking, second),
        _ => Ok(1),
    }
}

fn sent_after(alloc: Global, asking: Asking, bytes: &[u8]) -> io::Result<usize> {
    if asking.room() < bytes.len() {
        return Ok(2);
    }
    match asking.take(alloc, bytes)? {
        Exchange::Waiting(waiting) => {
            let mut sent = Vec::new(alloc);
            waiting.answer(alloc, b"x")?.send(&mut sent)?;
            Ok(sent.len())
        }
        _ => Ok(3),
    }
}

#[test]
fn requests_come_in_parts(rt: HostRuntime) -> Result<(), Fail> {
    let count = sent_to(rt.alloc(), b"GET /metr", b"ics HTTP/1.1\r\n\r\n")?;
    assert_eq!(rt; count, 114);
    Ok(())
}
