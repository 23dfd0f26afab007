//! Laws over the grammar.

ghost use Rattle.std.specs.Prelude.{◌≡◌, ◌++◌, ◌<◌, ◌^◌, Some, List, ℕ, length};
ghost use Rattle.std.specs.List.{All};
ghost use Rattle.turn_types.specs.declared.address.Endpoint.{Endpoint};
ghost use Rattle.turn_types.specs.declared.address.Addr.TheVariants.{V4};
ghost use Rattle.turn_codec.specs.Address.{xor_value, address_of};
ghost use Rattle.turn_codec.specs.Grammar.{Content, Encodes};

/// Bytes encode at most one message, and no encoding of a message is a proper prefix of another's.
pub fn one_message()
    ensures { (a b x y : List ℕ) (m n : Content) → Encodes a m → Encodes b n → a ++ x ≡ b ++ y → (a ≡ b) × (m ≡ n) }
{}

/// Of a message that bytes encode, the transaction id has twelve bytes, and each value is bytes.
pub fn values_are_bytes()
    ensures { (bytes : List ℕ) (m : Content) → All (λ x. x < 256) bytes → Encodes bytes m →
        (length m.tx ≡ 12) × All (λ x. x < 256) m.tx × All (λ a. All (λ x. x < 256) a.value) m.attributes }
{}

/// The value of an XOR address attribute names the address that it was made of.
pub fn address_again()
    ensures { (e : Endpoint) (tx : List ℕ) → e.ip < 2 ^ 32 → e.port < 2 ^ 16 →
        address_of (xor_value e) tx ≡ Some (record { ip = V4 e.ip; port = e.port }) }
{}
