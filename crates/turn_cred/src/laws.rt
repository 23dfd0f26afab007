//! Laws over the definitions.

ghost use Rattle.std.specs.FinMap as map;
ghost use Rattle.std.specs.Prelude.{None, Some, ◌≡◌, ◌↔◌, ◌≤◌, ◌<◌, ◌+◌, ◌^◌, IsTrue, ℕ, List, false, length};
ghost use Rattle.std.specs.List.{All};
ghost use Rattle.std.specs.Option.{option_map_or};
ghost use Rattle.turn_types.specs.declared.address.Endpoint.{Endpoint as Client};
ghost use Rattle.turn_codec.specs.Grammar.{Datagram};
ghost use Rattle.turn_cred.specs.Credential.{Policy, Keys, has_expired, verdict};
ghost use Rattle.turn_cred.specs.Credential.Verdict.{Passed};
ghost use Rattle.turn_cred.specs.Names.{HasExpiry, IsSharedKey};
ghost use Rattle.turn_cred.specs.Nonce.{nonce_of, Holds, is_fresh};
ghost use Rattle.turn_cred.specs.Passed.{NonceHolds, IsSentBy};
ghost use Rattle.turn_cred.specs.Shared.{Sources, expiry_of, key_in, lasting, shared_key};
ghost use Rattle.turn_cred.specs.Users.{KeyMap};
ghost use Rattle.turn_cred.specs.declared.key.Key.{Key};
ghost use Rattle.turn_types.specs.Profile.{nonce_lifetime};

/// The nonce of a second holds for its client from that second on, for 3,600 seconds, and at no other moment.
pub fn holds_for_an_hour()
    ensures { (secret : List ℕ) (s t : ℕ) (client : Client) → s < 2 ^ 64 → t < 2 ^ 64 →
        Holds secret (nonce_of secret s client) client t ↔ ((s ≤ t) × (t < s + nonce_lifetime)) }
{}

/// The test in the table of credentials is the one of the nonce.
pub fn freshness_is_decided()
    ensures { (secret nonce : List ℕ) (client : Client) (t : ℕ) →
        IsTrue (is_fresh secret nonce client t) ↔ Holds secret nonce client t }
{}

/// What it means that a request passes: the user sent it.
pub fn passed_is_sent_by_the_user()
    // A request passes exactly when the user sent it.
    ensures exactly { (p : Policy) (keys : Keys) (d : Datagram) (client : Client) (t : ℕ) (user : List ℕ) (key : Key) →
        (verdict p keys d client t ≡ Passed user key) ↔ IsSentBy p keys d client t user key }
    // The user's name is in its range, where the attributes' values are bytes.
    ensures range { (p : Policy) (keys : Keys) (d : Datagram) (client : Client) (t : ℕ) (user : List ℕ) (key : Key) →
        All (λ a. All (λ x. x < 256) a.value) d.content.attributes → verdict p keys d client t ≡ Passed user key →
        (1 ≤ length user) × (length user ≤ p.name_bytes) × All (λ x. x < 256) user }
    // It passes alike at every moment at which its nonce holds.
    ensures again { (p : Policy) (keys : Keys) (d : Datagram) (client : Client) (t u : ℕ) (user : List ℕ) (key : Key) →
        verdict p keys d client t ≡ Passed user key → NonceHolds p d client u → verdict p keys d client u ≡ Passed user key }
{}

/// A name has an expiry time exactly where it is that number's decimal numeral, without a sign or a leading zero, and then nothing or a
/// colon and anything. The time is from 1 up to 2^40 - 3601.
pub fn names_have_their_expiry()
    ensures { (name : List ℕ) (expiry : ℕ) → (expiry_of name ≡ Some expiry) ↔ HasExpiry name expiry }
{}

/// The key of a name is given by the name, the realm, and one source: a user's own key, or the secret.
pub fn keys_are_of_their_names()
    // Under a secret it is given by the secret, the name and the realm alone.
    ensures shared { (secret name realm : List ℕ) (key : Key) → (shared_key secret name realm ≡ Some key) ↔ IsSharedKey secret name realm key }
    // A user's own key goes first, whatever the secret, and never expires.
    ensures own { (sources : Sources) (name realm bytes : List ℕ) → map.get sources.users name ≡ Some bytes →
        key_in sources name realm ≡ Some (record { bytes = bytes; expiry = None }) }
    // All other names have the key under the secret, whatever the users.
    ensures others { (users : KeyMap) (secret name realm : List ℕ) → map.get users name ≡ None →
        key_in (record { users = users; secret = Some secret }) name realm ≡ shared_key secret name realm }
{}

/// Without a secret the keys are the users' own, and never expire.
pub fn no_secret_no_change()
    ensures keys { (users : KeyMap) (name realm : List ℕ) →
        key_in (record { users = users; secret = None }) name realm ≡ lasting (map.get users name) }
    ensures lasting { (users : KeyMap) (name realm : List ℕ) (t : ℕ) →
        option_map_or (has_expired t) (key_in (record { users = users; secret = None }) name realm) false ≡ false }
{}
