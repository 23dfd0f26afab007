//! Texts that name an export.

ghost use Rattle.std.specs.Prelude.{◌≡◌, ◌≢◌, ◌↔◌, ◌<◌, ◌∷◌, ◌++◌, ℕ, List, All, IfSome, IsTrue, MatchBool, MatchOption, codes};
ghost use Rattle.turn_nbd.specs.Names.{Begins, IsHost, IsPlain, IsUri, Names};

use std::net::{Ipv4Addr, SocketAddrV4};
use turn_types::Endpoint;

/// The port that is registered for NBD.
const PORT: u16 = 10_809;

/// Where the server of an export accepts connections.
#[derive(Clone, Copy, Debug)]
pub enum Place<'t> {
    /// A Unix socket with this path.
    Unix(&'t str),
    /// An address of TCP.
    Tcp(Endpoint),
}

/// An export: its name, which may be empty, and where its server is.
#[derive(Clone, Copy, Debug)]
pub struct Export<'t> {
    /// The name by which the server knows it.
    pub name: &'t str,
    /// Where its server is.
    pub place: Place<'t>,
}

// Whether a text begins with this one.
fn begins(text: &str, front: &str) -> bool
    ensures { MatchBool result (Begins front.now text.now) (Begins front.now text.now → ⊥) }
{
    after(text, front).is_some()
}

// What follows this front of a text.
fn after<'t>(text: &'t str, front: &str) -> Option<&'t str>
    ensures { MatchOption result ((rest : List ℕ) → text.now ≢ front.now ++ rest) (λ rest. text.now ≡ front.now ++ rest.now) }
{
    match text.strip_prefix(front) {
        Some(rest) => Some(rest),
        None => None,
    }
}

// What is before and after the first such character, which is one of ASCII.
fn cut(text: &str, mark: char) -> Option<(&str, &str)>
    requires { mark < 128 }
    ensures { IfSome result (λ x. text.now ≡ x.0.now ++ mark ∷ x.1.now) }
{
    match text.split_once(mark) {
        Some(parts) => Some(parts),
        None => None,
    }
}

// Whether no byte has a meaning of its own in a URI, or ends a path.
fn is_plain(text: &str) -> bool
    ensures { IsTrue result ↔ All IsPlain text.now }
{
    text.as_bytes().iter().all(|byte| *byte != 0 && *byte != b'#' && *byte != b'%' && *byte != b'?')
}

// The address of a server, of which the port may be left out.
fn host(text: &str) -> Option<Endpoint>
    ensures { IfSome result (λ at. IsHost text.now at) }
{
    if let Ok(at) = text.parse::<SocketAddrV4>() {
        return Some(Endpoint {
            ip: at.ip().to_bits(),
            port: at.port(),
        });
    }
    match text.parse::<Ipv4Addr>() {
        Ok(address) => Some(Endpoint {
            ip: address.to_bits(),
            port: PORT,
        }),
        Err(_) => None,
    }
}

// The export that "NAME?socket=/PATH" names after its scheme.
fn unix(text: &str) -> Option<Export<'_>>
    ensures { IfSome result (λ e. Names (codes "nbd+unix:///" ++ text.now) e.name.now e.place) }
{
    let (name, query) = cut(text, '?')?;
    let path = after(query, "socket=")?;
    if !is_plain(name) || !is_plain(path) || !begins(path, "/") {
        return None;
    }
    Some(Export {
        name,
        place: Place::Unix(path),
    })
}

// The export that "IP:PORT/NAME" names after its scheme.
fn tcp(text: &str) -> Option<Export<'_>>
    ensures { IfSome result (λ e. Names (codes "nbd://" ++ text.now) e.name.now e.place) }
{
    let (server, name) = cut(text, '/')?;
    let at = host(server)?;
    if !is_plain(name) {
        return None;
    }
    Some(Export {
        name,
        place: Place::Tcp(at),
    })
}

/// Whether a word names an export, well-formed or not, and no file: it begins with a scheme of NBD.
pub fn is_uri(text: &str) -> bool
    ensures { MatchBool result (IsUri text.now) (IsUri text.now → ⊥) }
{
    if begins(text, "nbd:") {
        return true;
    }
    if begins(text, "nbd+") {
        return true;
    }
    if begins(text, "nbds:") {
        return true;
    }
    begins(text, "nbds+")
}

impl<'t> Export<'t> {
    /// The export that a text names: `nbd+unix:///NAME?socket=/PATH`, or `nbd://IP:PORT/NAME`, where port 10809 may be left out. The name may
    /// be empty. There is no other query, and nothing is percent-encoded: a text with a percent sign names none.
    pub fn parse(text: &'t str) -> Option<Export<'t>>
        ensures { IfSome result (λ e. Names text.now e.name.now e.place) }
    {
        if let Some(rest) = after(text, "nbd+unix:///") {
            return unix(rest);
        }
        let rest = after(text, "nbd://")?;
        tcp(rest)
    }
}
