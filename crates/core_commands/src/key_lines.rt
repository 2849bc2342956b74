//! The lines of keys: clients whose next command waits for its key.

ghost use Rattle.std.specs.Prelude.{◌≡◌, [], false, position, IfOk, OnOk, OnErr};
ghost use Rattle.core_commands.specs.Lines.{is_place, is_in_way, is_behind, is_standing, others, joined};

use crate::claim::Claim;
use mc_types::Key;
use std::alloc::{AllocError, Global};
use std::marker::Model;

/// A client that stands in the line of a key, and what its command will claim of it.
#[derive(Clone, Copy)]
pub struct Standing {
    pub key: Key,
    pub client: usize,
    pub claim: Claim,
}

/// The lines of all keys in one list: clients in the order in which they came. It is empty as long as nobody waits.
#[derive(Drop)]
pub struct KeyLines {
    standing: Vec<Standing>,
}

impl Model for KeyLines {
    ghost use Rattle.std.specs.Prelude.{List};
    ghost use Rattle.core_commands.specs.declared.key_lines.Standing.{Standing};

    ghost Value = { List Standing };

    ghost view = { λ l. l.standing.items };
}

impl Standing {
    // Whether by this the client stands in the line of the key.
    fn is_place(&self, client: usize, key: &Key) -> bool
        ensures { result ≡ is_place client key.now self.now }
    {
        self.client == client && self.key == *key
    }

    // Whether what this standing client claims of the key is in the way of this claim.
    fn is_in_way(&self, key: &Key, claim: Claim) -> bool
        ensures { result ≡ is_in_way key.now claim self.now }
    {
        self.key == *key
            && ((claim.clears && self.claim.copies) || (claim.copies && self.claim.clears))
    }
}

fn place_of(client: usize, key: &Key, standing: &Vec<Standing>) -> Option<usize>
    ensures { result ≡ position (is_place client key.now) standing.now.items }
{
    standing.iter().position(|it| it.is_place(client, key))
}

// Whether one who stands before the client is in the way, by looking at each of them.
fn any_before(client: usize, key: &Key, claim: Claim, standing: &[Standing]) -> bool
    ensures { result ≡ is_behind client key.now claim standing.now }
{
    for it in standing {
        if it.is_place(client, key) {
            return false;
        }
        if it.is_in_way(key, claim) {
            return true;
        }
    }
    false
}

// Whether one of those that stand is the client.
fn any_of(client: usize, standing: &[Standing]) -> bool
    ensures { result ≡ is_standing client standing.now }
{
    standing.iter().any(|it| it.client == client)
}

impl KeyLines {
    /// Nobody waits. It takes no memory.
    pub fn new(alloc: Global) -> KeyLines
        ensures { result ≡ [] }
    {
        KeyLines {
            standing: Vec::new(alloc),
        }
    }

    /// Whether a client stands in the line of this key, before this one if it stands there, whose claim is in the way of this one. It
    /// takes no memory, and looks at nobody for a command that claims nothing.
    pub fn is_behind(&self, client: usize, key: &Key, claim: Claim) -> bool
        ensures { result ≡ is_behind client key.now claim self.now }
    {
        if !claim.clears && !claim.copies {
            return false;
        }
        any_before(client, key, claim, self.standing.as_slice())
    }

    /// The client stands in the line of this key: where it stood there, in its place, or else at the end. It tells whether that changed
    /// anything. The only error is running out of memory: then it stands in no line.
    pub fn join(&mut self, client: usize, key: &Key, claim: Claim) -> Result<bool, AllocError>
        ensures ok { OnOk result (self.new ≡ joined (record { claim = claim; client = client; key = key.now }) self.old) }
        ensures same { IfOk result (λ changed. changed ≡ false → self.new ≡ self.old) }
        ensures err { OnErr result (self.new ≡ others client self.old) }
    {
        let it = Standing {
            key: *key,
            client,
            claim,
        };
        match place_of(client, key, &self.standing) {
            Some(place) => {
                let is_same = self.standing[place].claim == claim;
                self.standing[place] = it;
                Ok(!is_same)
            }
            None => {
                self.leave(client);
                self.standing.push(it)?;
                Ok(true)
            }
        }
    }

    /// Whether the client stands in a line. It takes no memory.
    pub fn is_standing(&self, client: usize) -> bool
        ensures { result ≡ is_standing client self.now }
    {
        any_of(client, self.standing.as_slice())
    }

    /// The client stands in no line any more. It takes no memory.
    pub fn leave(&mut self, client: usize)
        ensures { self.new ≡ others client self.old }
    {
        self.standing.retain(|it| it.client != client);
    }
}
