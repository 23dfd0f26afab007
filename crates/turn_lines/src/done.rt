//! What a success is of.

ghost use Rattle.std.specs.Prelude.{◌≡◌};
ghost use Rattle.turn_lines.specs.Done.{done_of, ends};

/// What a success is of.
#[derive(Clone, Copy, Debug, PartialEq, Eq)]
pub(crate) enum Done {
    /// An Allocate.
    Allocate,
    /// A Refresh, after which the allocation goes on.
    Refresh,
    /// A Refresh that ends the allocation.
    End,
    /// A CreatePermission or a ChannelBind.
    Peers,
}

/// Whether the success of a Refresh has a lifetime of 0 as its first attribute. A server's begin with it.
fn ends(bytes: &[u8]) -> bool
    ensures { result ≡ ends bytes.now }
{
    bytes.len() >= 28
        && (bytes[20] == 0 && bytes[21] == 13)
        && (bytes[24] == 0 && bytes[25] == 0 && bytes[26] == 0 && bytes[27] == 0)
}

/// What a success is of, as a server sends it to one of the four requests whose responses are logged.
pub(crate) fn done_of(bytes: &[u8]) -> Done
    ensures { result ≡ done_of bytes.now }
{
    match bytes {
        [1, 3, ..] => Done::Allocate,
        [1, 4, ..] => {
            if ends(bytes) {
                Done::End
            } else {
                Done::Refresh
            }
        }
        _ => Done::Peers,
    }
}
