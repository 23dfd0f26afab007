//! How often a second had lines about the same.

ghost use Rattle.std.specs.Prelude.{◌≡◌, ◌≤◌, [], length};
ghost use Rattle.turn_log.specs.Counting.{counted, is_same, number_of, ordinal, place_in, room_in};

use crate::cause::Cause;
use arrayvec::ArrayVec;
use std::marker::Model;

/// What a line may be about.
#[derive(Clone, Copy, Debug, Default)]
pub enum About {
    /// A commit that took long.
    #[default]
    Commit,
    /// An Allocate that was repeated, for which nothing is written to the store.
    Repeat,
    /// An error, with its code.
    Error(u16),
}

/// What a line says that is no success.
#[derive(Clone, Copy, Debug, Default)]
pub struct Subject {
    /// The IPv4 address of the client, or 0.
    pub ip: u32,
    /// What it is about.
    pub about: About,
    /// Why credentials didn't pass, where they didn't.
    pub cause: Option<Cause>,
}

/// How often a subject came in a second.
#[derive(Clone, Copy, Debug, Default)]
pub struct Counted {
    /// What it is.
    pub subject: Subject,
    /// How often it came.
    pub count: u64,
}

/// What comes of a line.
#[derive(Clone, Copy, Debug, PartialEq, Eq)]
pub enum Room {
    /// It is written.
    Written,
    /// It is counted with other lines of the second, of which the next one has the count.
    Repeated,
    /// There is no room for it. It is counted by what it is about.
    LeftOut,
}

fn ordinal(cause: Option<Cause>) -> u8
    ensures { result ≡ ordinal cause }
{
    match cause {
        None => 0,
        Some(Cause::Realm) => 1,
        Some(Cause::Unknown) => 2,
        Some(Cause::Integrity) => 3,
        Some(Cause::Expired) => 4,
    }
}

fn number_of(about: About) -> u32
    ensures { result ≡ number_of about }
{
    match about {
        About::Commit => 0,
        About::Repeat => 1,
        About::Error(code) => 2 + u32::from(code),
    }
}

impl Subject {
    fn is_same(&self, other: &Subject) -> bool
        ensures { result ≡ is_same self.now other.now }
    {
        self.ip == other.ip
            && number_of(self.about) == number_of(other.about)
            && ordinal(self.cause) == ordinal(other.cause)
    }
}

/// The place of a subject.
fn place_in(counts: &[Counted], subject: &Subject) -> Option<usize>
    ensures { result ≡ place_in counts.now subject.now }
{
    counts.iter().position(|c| c.subject.is_same(subject))
}

/// How often each of some subjects came.
#[derive(Debug, Drop)]
pub(crate) struct Counts<const N: usize> {
    counts: ArrayVec<Counted, N>,
}

impl<const N: usize> Model for Counts<N> {
    ghost use Rattle.std.specs.Prelude.{List};
    ghost use Rattle.turn_log.specs.declared.counts.Counted.{Counted};

    ghost Value = { List Counted };

    ghost view = { λ c. c.counts.items };
}

impl<const N: usize> Counts<N> {
    pub(crate) fn new() -> Counts<N>
        ensures { result ≡ [] }
    {
        Counts {
            counts: ArrayVec::new(),
        }
    }

    /// Counts a subject. One that is new finds no room where there are `N`.
    pub(crate) fn count(&mut self, subject: Subject) -> Room
        ensures counted { self.new ≡ counted N self.old subject }
        ensures room { result ≡ room_in N self.old subject }
    {
        if let Some(place) = place_in(self.counts.as_slice(), &subject) {
            let listed = self.counts.as_mut_slice();
            listed[place].count = listed[place].count.saturating_add(1);
            return Room::Repeated;
        }
        if self.counts.is_full() {
            return Room::LeftOut;
        }
        self.counts.push(Counted { subject, count: 1 });
        Room::Written
    }

    pub(crate) fn as_slice(&self) -> &[Counted]
        ensures { result.now ≡ self.now }
    {
        self.counts.as_slice()
    }
}
