//! Which allocations end.

ghost use Rattle.std.specs.Prelude.{◌≡◌, ◌&&◌, IfOk, filter, map, nat_lt};
ghost use Rattle.std.specs.FinMap as fin;
ghost use Rattle.turn_ending.specs.Chosen.{is_chosen, is_whose, shown, shown_entry};

use std::alloc::{AllocError, Allocator, Global};
use turn_table::{Entry, Table};
use turn_types::{Endpoint, FiveTuple, Moment};

/// Whose allocations end.
#[derive(Clone, Copy)]
pub enum Whose<'a> {
    /// Those of a user, by the bytes of the name.
    User(&'a [u8]),
    /// Those of a client's address, one for each address of the server that it uses.
    Client(Endpoint),
}

/// An allocation that is to end.
#[derive(Drop)]
pub struct Chosen<A: Allocator = Global> {
    /// Whose it is.
    pub five_tuple: FiveTuple,
    /// The name of the user who made it, in bytes.
    pub user: Vec<u8, A>,
    /// The relayed port.
    pub port: u16,
}

/// Whether an allocation is one of these.
fn is_whose<A: Allocator + Copy>(whose: Whose<'_>, five_tuple: FiveTuple, entry: &Entry<A>) -> bool
    ensures { result ≡ is_whose whose.entry five_tuple entry.now.entry }
{
    match whose {
        Whose::User(name) => entry.user() == name,
        Whose::Client(client) => five_tuple.client.ip == client.ip
            && five_tuple.client.port == client.port,
    }
}

/// The allocations of a table that are live at a moment and are some of these, in the order of the table.
pub fn chosen_of<A: Allocator + Copy>(
    alloc: A,
    table: &Table<A>,
    whose: Whose<'_>,
    moment: Moment,
) -> Result<Vec<Chosen<A>, A>, AllocError>
    ensures { IfOk result (λ chosen. map shown chosen.items
        ≡ map shown_entry (filter (is_chosen whose.entry moment) (fin.entries table.now.contents.entries))) }
{
    let mut chosen = Vec::new(alloc);
    for (five_tuple, entry) in table.entries() {
        if moment.seconds() < entry.expiry() && is_whose(whose, five_tuple, entry) {
            chosen.push(Chosen {
                five_tuple,
                user: Vec::from_slice(alloc, entry.user())?,
                port: entry.port(),
            })?;
        }
    }
    Ok(chosen)
}
