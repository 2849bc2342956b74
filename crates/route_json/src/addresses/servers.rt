//! A set of addresses that numbers them.

ghost use Rattle.std.specs.Prelude.{◌≡◌, ◌<◌, [], ◌∷◌, ◌++◌, IfOk, IfSome, OnErr, length, option_map, slice_get, nat_eq, position, false, is_some};
ghost use Rattle.std.specs.List.{list_any};
ghost use Rattle.std.specs.Str.{bytes_eq};
ghost use Rattle.route_json.specs.NumberedServers.{AreServers};
ghost use Rattle.route_json.specs.ServerNames.{have_epochs, epoch_is_over};

use crate::addresses::name::{address_in, are_some_in_epochs, is_named};
use indexmap::IndexSet;
use mc_types::ServerId;
use std::alloc::{AllocError, Global};
use std::marker::Model;

/// The most servers that there may be, so that a `ServerId` has room for each.
pub const MAX_SERVERS: usize = 4_294_967_295;

/// The servers of a configuration: their names, none of them twice, whose place is the `ServerId`. A server that takes
/// another epoch has another name.
#[derive(Drop)]
pub struct Servers {
    set: IndexSet<String>,
}

impl Model for Servers {
    ghost use Rattle.route_json.specs.NumberedServers.{Addresses, texts, AreServers};

    ghost Value = { Addresses };

    ghost view = { λ s. texts s.set.keys };

    ghost invariant = { λ s. AreServers (texts s.set.keys) };
}

impl Servers {
    /// No servers. It takes no memory.
    pub fn new(alloc: Global) -> Servers
        ensures { result ≡ [] }
    {
        Servers {
            set: IndexSet::new(alloc),
        }
    }

    /// How many servers there are, at most 4,294,967,295. No name stands twice.
    pub fn len(&self) -> usize
        ensures len { result ≡ length self.now }
        ensures servers { AreServers self.now }
    {
        self.set.len()
    }

    /// Whether there are none.
    pub fn is_empty(&self) -> bool
        ensures { result ≡ nat_eq (length self.now) 0 }
    {
        self.len() == 0
    }

    /// The name of a server.
    pub fn get(&self, server: ServerId) -> Option<&str>
        ensures { option_map (λ s. s.now) result ≡ slice_get self.now server }
    {
        self.set
            .get_index(server.number() as usize)
            .map(|text| text.as_str())
    }

    /// Whether one of them has an epoch.
    pub fn have_epochs(&self) -> bool
        ensures { result ≡ have_epochs self.now }
    {
        are_some_in_epochs(self.set.as_slice())
    }

    /// Whether the epoch of a server is over: a server of a later number has its address.
    pub fn is_over(&self, server: ServerId) -> bool
        ensures { result ≡ epoch_is_over self.now server }
    {
        match self.get(server) {
            Some(name) => {
                let (_, later) = self.set.as_slice().split_at(server.number() as usize + 1);
                is_named(address_in(name), later)
            }
            None => false,
        }
    }

    /// The server of a name, if it is one of these.
    pub fn find(&self, address: &str) -> Option<ServerId>
        ensures found { result ≡ position (bytes_eq address.now) self.now }
        ensures known { is_some result ≡ list_any (bytes_eq address.now) self.now }
        ensures below { IfSome result (λ n. n < length self.now) }
    {
        match self.set.get_index_of(address) {
            Some(index) => Some(ServerId::new(index as u32)),
            None => None,
        }
    }

    /// Puts a name last that is none of these yet, and gives its number. The only error is running out of memory, and nothing
    /// has changed then.
    pub fn push(&mut self, alloc: Global, address: &str) -> Result<ServerId, AllocError>
        requires new { list_any (bytes_eq address.now) self.old ≡ false }
        requires room { length self.old < MAX_SERVERS }
        ensures number { IfOk result (λ n. n ≡ length self.old) }
        ensures last { IfOk result (λ n. self.new ≡ self.old ++ address.now ∷ []) }
        ensures err { OnErr result (self.new ≡ self.old) }
    {
        let index = self.set.len();
        self.set.insert(String::from_str(alloc, address)?)?;
        Ok(ServerId::new(index as u32))
    }

    /// These servers once more. The only error is running out of memory.
    pub fn copy(&self, alloc: Global) -> Result<Servers, AllocError>
        ensures { IfOk result (λ servers. servers ≡ self.now) }
    {
        let mut set = IndexSet::new(alloc);
        for text in self.set.as_slice() {
            set.insert(String::from_str(alloc, text.as_str())?)?;
        }
        Ok(Servers { set })
    }
}
