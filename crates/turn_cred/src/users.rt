//! A table of users.

ghost use Rattle.std.specs.Prelude.{◌≡◌, OnOk, OnErr};
ghost use Rattle.std.specs.FinMap as map;
ghost use Rattle.turn_cred.specs.Shared.{lasting};

use crate::handler::AuthHandler;
use crate::key::Key;
use std::alloc::{AllocError, Allocator, Global};
use std::collections::BTreeMap;
use std::marker::Model;

/// The keys of users by their names.
#[derive(Drop)]
pub struct Users<A: Allocator = Global> {
    alloc: A,
    keys: BTreeMap<Vec<u8, A>, [u8; 16], A>,
}

impl<A: Allocator> Model for Users<A> {
    ghost use Rattle.turn_cred.specs.Users.{KeyMap, key_map, key_map_code};

    ghost Value = { KeyMap };

    ghost coded = { key_map_code };

    ghost view = { λ u. key_map u.keys.entries };
}

impl<A: Allocator + Copy> Users<A> {
    /// No users.
    pub fn new(alloc: A) -> Users<A>
        ensures { result ≡ map.empty }
    {
        Users {
            alloc,
            keys: BTreeMap::new(alloc),
        }
    }

    /// Gives a user a key, in place of any that the name has. After an `Err` the users are as before.
    ///
    /// ```rust
    /// let mut users = Users::new(alloc);
    /// users.add(b"alice", generate_auth_key(b"alice", b"example.org", b"wonder"))?;
    /// assert!(rt; users.key(b"alice", b"example.org").is_some());
    /// assert!(rt; users.key(b"bob", b"example.org").is_none());
    /// ```
    pub fn add(&mut self, name: &[u8], key: [u8; 16]) -> Result<(), AllocError>
        ensures ok { OnOk result (self.new ≡ map.insert self.old name.now key) }
        ensures err { OnErr result (self.new ≡ self.old) }
    {
        let name = Vec::from_slice(self.alloc, name)?;
        self.keys.insert(name, key)?;
        Ok(())
    }
}

impl<A: Allocator> AuthHandler for Users<A> {
    ghost key_of = { λ users name _. lasting (map.get users name) };

    /// The key of the name, whatever the realm.
    fn key(&self, username: &[u8], _realm: &[u8]) -> Option<Key> {
        let bytes = self.bytes_of(username)?;
        Some(Key {
            bytes,
            expiry: None,
        })
    }
}

impl<A: Allocator> Users<A> {
    fn bytes_of(&self, username: &[u8]) -> Option<[u8; 16]>
        ensures { result ≡ map.get self.now username.now }
    {
        self.keys.get(username).copied()
    }
}
