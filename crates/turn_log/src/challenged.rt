//! The five-tuples that were challenged.

ghost use Rattle.std.specs.Prelude.{◌≡◌, ◌≢◌, ◌<◌, ◌↔◌, IsTrue, None, Some, replicate, set, true};
ghost use Rattle.turn_log.specs.Logged.{IsNoted, place_of};

use turn_types::FiveTuple;

/// How many five-tuples are noted at most.
const PLACES: usize = 256;

/// The five-tuples to which a 401 went and since then no success. Each has a place of 256, by its addresses, and a place has the last
/// one: so under a flood some are forgotten, and the next 401 of such a client counts as its first.
#[derive(Clone, Copy, Debug)]
pub struct Challenged {
    places: [Option<FiveTuple>; PLACES],
}

/// The place of a five-tuple.
fn place_of(five_tuple: FiveTuple) -> usize
    ensures value { result ≡ place_of five_tuple }
    ensures range { result < 256 }
{
    let FiveTuple { client, server } = five_tuple;
    let sum = u64::from(client.ip)
        + u64::from(client.port)
        + (u64::from(server.ip) + u64::from(server.port));
    (sum % PLACES as u64) as usize
}

impl Challenged {
    /// No client was challenged.
    pub fn new() -> Challenged
        ensures { result.places ≡ replicate 256 None }
    {
        Challenged {
            places: [None; PLACES],
        }
    }

    /// Notes a 401 to a client that showed no credentials, by which it gets the realm and a nonce. Whether the client had one before,
    /// since when it had no success: then the log has a line of this one.
    pub fn note(&mut self, five_tuple: FiveTuple) -> bool
        ensures before { IsTrue result ↔ IsNoted self.old.places five_tuple }
        ensures noted { self.new.places ≡ set self.old.places (place_of five_tuple) (Some five_tuple) }
    {
        let place = place_of(five_tuple);
        let is_noted = self.places[place] == Some(five_tuple);
        self.places[place] = Some(five_tuple);
        is_noted
    }

    /// Forgets a client at a success.
    pub fn forget(&mut self, five_tuple: FiveTuple)
        ensures forgotten { IsNoted self.old.places five_tuple → self.new.places ≡ set self.old.places (place_of five_tuple) None }
        ensures others { ¬ (IsNoted self.old.places five_tuple) → self.new ≡ self.old }
    {
        let place = place_of(five_tuple);
        if self.places[place] == Some(five_tuple) {
            self.places[place] = None;
        }
    }
}
