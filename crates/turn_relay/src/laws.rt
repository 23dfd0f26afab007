//! What holds of the definitions in specs/. Each law is a clause of a function that does nothing.

ghost use Rattle.std.specs.Prelude.{◌≡◌, ◌≤◌, ◌↔◌, ℕ, List, Option, Some};
ghost use Rattle.std.specs.FinMap as fin;
ghost use Rattle.turn_codec.specs.Channel.{EncodesChannelData};
ghost use Rattle.turn_codec.specs.Grammar.{Content, Encodes};
ghost use Rattle.turn_relay.specs.FromClient.{PeerData, SendsToPeer};
ghost use Rattle.turn_relay.specs.FromPeer.{ClientData, SendsToClient};
ghost use Rattle.turn_relay.specs.Laws.{IsRelayed, IsSentBy, IsSentOver};
ghost use Rattle.turn_history.specs.Fitting.{IsFitting};
ghost use Rattle.turn_history.specs.History.{History, clock};
ghost use Rattle.turn_history.specs.Laws.{events_of};
ghost use Rattle.turn_types.specs.declared.limits.Bounds.{Bounds};
ghost use Rattle.turn_history.specs.Table.{Entry, table};
ghost use Rattle.turn_types.specs.declared.address.Endpoint.{Endpoint};
ghost use Rattle.turn_types.specs.declared.address.FiveTuple.{FiveTuple};

/// What a client's datagram sends, and what a peer's datagram at the relayed port of a live allocation sends, depend
/// on the events of that client's five-tuple alone.
pub fn sends_by_own_events()
    ensures client { (h g : History) (t : ℕ) (f : FiveTuple) (bytes : List ℕ) (o : Option PeerData) →
        events_of f h ≡ events_of f g →
        (SendsToPeer (table h t) f bytes o ↔ SendsToPeer (table g t) f bytes o) }
    ensures peer { (b : Bounds) (h g : History) (t : ℕ) (f : FiveTuple) (e : Entry) (from : Endpoint) (payload : List ℕ) (o : Option ClientData) →
        IsFitting b h → IsFitting b g → clock h ≤ t → clock g ≤ t → events_of f h ≡ events_of f g →
        fin.get (table h t).entries f ≡ Some e →
        (SendsToClient (table h t) e.port from payload o ↔ SendsToClient (table g t) e.port from payload o) }
{}

/// A peer's datagram sends one thing.
pub fn relayed_in_one_way()
    ensures { (b : Bounds) (h : History) (t port : ℕ) (from : Endpoint) (payload : List ℕ) (o p : Option ClientData) →
        IsFitting b h → clock h ≤ t →
        SendsToClient (table h t) port from payload o → SendsToClient (table h t) port from payload p → o ≡ p }
{}

/// What is sent, by the events of a history: the DATA of a message goes to a peer whose address has a permission, the
/// payload of channel data to the peer that the channel is bound to, and a peer's datagram to the client whose
/// relayed port it came to, where the peer's address has a permission.
pub fn sends_as_permitted()
    ensures message { (b : Bounds) (h : History) (t : ℕ) (f : FiveTuple) (bytes : List ℕ) (m : Content) (d : PeerData) →
        IsFitting b h → Encodes bytes m → SendsToPeer (table h t) f bytes (Some d) → IsSentBy h t f m d }
    ensures channel_data { (b : Bounds) (h : History) (t : ℕ) (f : FiveTuple) (bytes : List ℕ) (number : ℕ) (payload : List ℕ) (d : PeerData) →
        IsFitting b h → clock h ≤ t → EncodesChannelData bytes number payload →
        SendsToPeer (table h t) f bytes (Some d) → IsSentOver h t f number payload d }
    ensures peer { (b : Bounds) (h : History) (t port : ℕ) (from : Endpoint) (payload : List ℕ) (d : ClientData) →
        IsFitting b h → clock h ≤ t → SendsToClient (table h t) port from payload (Some d) → IsRelayed h t port from payload d }
{}
