//! What a request asks for.

ghost use Rattle.std.specs.Prelude.{codes};
ghost use Rattle.httparse.specs.Grammar.{HasNoRequest};
ghost use Rattle.watch_admin.specs.HttpRequests.{AsksPage, AsksBy};

use httparse::spans::{EMPTY_HEADER_SPAN, parse_request};
use httparse::{Error, Status};

/// A page that there is.
#[derive(Clone, Copy, PartialEq, Eq)]
pub enum Page {
    /// `/`: the numbers for people, by a script that reads them.
    Home,
    /// `/config.json`: what says the configuration in use.
    Config,
    /// `/metrics`: the numbers in Prometheus' text format.
    Metrics,
    /// `/stats.json`: the numbers in JSON.
    Stats,
}

/// Why a request is answered by no page.
#[derive(Clone, Copy, PartialEq, Eq)]
pub enum Refusal {
    /// It is none.
    Bad,
    /// There is no such page.
    NotFound,
    /// Its method isn't GET.
    NotAllowed,
    /// Its head is too long, or has too many fields.
    TooLarge,
}

/// What the bytes of a client ask for.
#[derive(Clone, Copy, PartialEq, Eq)]
pub enum AskedPage {
    /// More bytes may make them a request.
    Unfinished,
    For(Page),
    Refused(Refusal),
}

/// A request's head has fewer bytes.
pub const MOST_BYTES: usize = 8_192;

/// A request has no more fields.
pub const MOST_FIELDS: usize = 64;

// What a GET of this path asks for.
fn page_at(path: &[u8]) -> AskedPage
    ensures { AsksBy (codes "GET") path.now result }
{
    if path == b"/".as_slice() {
        AskedPage::For(Page::Home)
    } else if path == b"/config.json".as_slice() {
        AskedPage::For(Page::Config)
    } else if path == b"/metrics".as_slice() {
        AskedPage::For(Page::Metrics)
    } else if path == b"/stats.json".as_slice() {
        AskedPage::For(Page::Stats)
    } else {
        AskedPage::Refused(Refusal::NotFound)
    }
}

// What a request of this method and path asks for.
fn asked_by(method: &[u8], path: &[u8]) -> AskedPage
    ensures { AsksBy method.now path.now result }
{
    if method == b"GET".as_slice() {
        page_at(path)
    } else {
        AskedPage::Refused(Refusal::NotAllowed)
    }
}

// What bytes ask for that are no request so far.
fn unfinished(bytes: &[u8]) -> AskedPage
    requires { HasNoRequest bytes.now }
    ensures { AsksPage bytes.now result }
{
    if bytes.len() < MOST_BYTES {
        AskedPage::Unfinished
    } else {
        AskedPage::Refused(Refusal::TooLarge)
    }
}

/// What the bytes that a client has sent so far ask for.
pub fn what_is_asked(bytes: &[u8]) -> AskedPage
    ensures { AsksPage bytes.now result }
{
    let mut headers = [EMPTY_HEADER_SPAN; MOST_FIELDS];
    match parse_request(bytes, &mut headers) {
        Ok(Status::Complete(head)) => asked_by(head.method.of(bytes), head.path.of(bytes)),
        Ok(Status::Partial) => unfinished(bytes),
        Err(Error::TooManyHeaders) => AskedPage::Refused(Refusal::TooLarge),
        Err(_) => AskedPage::Refused(Refusal::Bad),
    }
}
