//! Users, secrets and checkers: refused growths, and what a checker remembers, on which no verdict depends.

ghost use Rattle.std.specs.FinMap as map;
ghost use Rattle.turn_cred.specs.Shared.{lasting};

use super::requests::refresh;
use failing_alloc::FailingAlloc;
use std::alloc::{Allocator, Global};
use std::cell::Cell;
use std::test::Fail;
use turn_codec::Message;
use turn_cred::{AuthHandler, Checker, Key, SharedSecret, Users, Verdict};
use turn_types::{Endpoint, Limits, Moment, ServerConfig, Settings};

#[test]
fn secret_is_copied_where_there_is_memory(rt: HostRuntime) {
    let refusing = FailingAlloc::new(rt.alloc(), 0);
    assert!(rt; SharedSecret::new(&refusing, b"a secret").is_err() && refusing.has_refused());
    refusing.arm(1);
    assert!(rt; SharedSecret::new(&refusing, b"a secret").is_ok());
}

/// The key of a name, which never expires.
fn key_in<A: Allocator>(users: &Users<A>, name: &[u8]) -> Option<[u8; 16]> {
    match users.key(name, b"any realm") {
        Some(key) if key.expiry.is_none() => Some(key.bytes),
        _ => None,
    }
}

/// Whether a key is added to a name that has one only where the number is odd. A refusal leaves the users as they were.
fn is_added(
    users: &mut Users<&FailingAlloc<Global>>,
    refusing: &FailingAlloc<Global>,
    number: u8,
) -> bool {
    let (name, key) = ([b'a', number / 2], [number; 16]);
    let before = key_in(users, &name);
    if before.is_some() != (number % 2 == 1) {
        return false;
    }
    if users.add(&name, key).is_err() {
        let is_left = refusing.has_refused() && key_in(users, &name) == before;
        if !is_left || users.add(&name, key).is_err() {
            return false;
        }
    }
    key_in(users, &name) == Some(key)
}

/// Makes forty additions where the growth after so many is refused, and says whether one was.
fn are_refused(alloc: Global, served: u64) -> Result<bool, Fail> {
    let refusing = FailingAlloc::new(alloc, served);
    let mut users = Users::new(&refusing);
    for number in 0..40u8 {
        if !is_added(&mut users, &refusing, number) {
            return Err(Fail::new("an addition"));
        }
    }
    for name in 0..20u8 {
        if key_in(&users, &[b'a', name]) != Some([2 * name + 1; 16]) {
            return Err(Fail::new("a last key"));
        }
    }
    Ok(refusing.has_refused())
}

#[test]
fn a_refused_growth_leaves_the_users(rt: HostRuntime) -> Result<(), Fail> {
    for served in 0..=40u64 {
        assert!(rt; are_refused(rt.alloc(), served)?);
    }
    for served in 41..256u64 {
        if !are_refused(rt.alloc(), served)? {
            return Ok(());
        }
    }
    Err("some growth is always refused")?
}

/// Users, and how often one was asked for.
#[derive(Drop)]
struct Counting {
    users: Users,
    asked: Cell<u64>,
}

impl AuthHandler for Counting {
    ghost key_of = { λ c name _. lasting (map.get c.users name) };

    fn key(&self, username: &[u8], realm: &[u8]) -> Option<Key> {
        self.asked.set(self.asked.get().wrapping_add(1));
        self.users.key(username, realm)
    }
}

/// The key of the user of a number.
fn key_of(user: u16) -> [u8; 16] {
    u128::from(user).to_be_bytes()
}

/// How many users are known.
const KNOWN: u16 = 300;

/// The users of the first numbers.
fn known_users(alloc: Global) -> Result<Counting, Fail> {
    let mut users = Users::new(alloc);
    for user in 0..KNOWN {
        users.add(&user.to_be_bytes(), key_of(user))?;
    }
    Ok(Counting {
        users,
        asked: Cell::new(0),
    })
}

/// The realm is `example.org`, and the secret is zeros.
fn config(alloc: Global) -> Result<ServerConfig, Fail> {
    let settings = Settings {
        realm: b"example.org",
        secret: [0; 32],
        relay: 0,
        quota: 2,
        denied: &[],
        limits: Limits::MAX,
    };
    Ok(ServerConfig::new(alloc, settings)?)
}

/// A checker of these users that remembers by an allocator of its own.
fn checker<A: Allocator + Copy>(alloc: Global, inner: A) -> Result<Checker<Counting, A>, Fail> {
    match Checker::new(inner, &config(alloc)?, known_users(alloc)?) {
        Ok(checker) => Ok(checker),
        Err(_) => Err(Fail::new("a checker")),
    }
}

/// 192.0.2.1:32853.
const CLIENT: Endpoint = Endpoint {
    ip: 0xC000_0201,
    port: 32853,
};

/// Whether a request of a user passes.
fn passes<A: Allocator + Copy>(
    alloc: Global,
    checker: &mut Checker<Counting, A>,
    user: u16,
) -> Result<bool, Fail> {
    let bytes = refresh(alloc, &user.to_be_bytes(), &key_of(user))?;
    let message = Message::parse(&bytes)?;
    let second = Moment::new(1000).ok_or("a moment")?;
    let verdict = checker.check(&message, CLIENT, second);
    Ok(matches!(verdict, Verdict::Passed { .. }))
}

/// Asks for users in turn, twice. Those who are known pass.
fn ask<A: Allocator + Copy>(
    alloc: Global,
    checker: &mut Checker<Counting, A>,
    first: u16,
    end: u16,
) -> Result<(), Fail> {
    for _ in 0..2u8 {
        for user in first..end {
            if passes(alloc, checker, user)? != (user < KNOWN) {
                return Err(Fail::new("a verdict"));
            }
        }
    }
    Ok(())
}

/// Users who are asked for in turn, twice, and how often the handler is: it knows the users below 300.
const ASKED: [(u16, u16, u64); 6] = [
    (0, 1, 1),
    (0, 256, 256),
    (44, 300, 256),
    (0, 257, 514),
    (0, 300, 600),
    (300, 310, 20),
];

/// How often the handler is asked.
fn asked(alloc: Global, first: u16, end: u16) -> Result<u64, Fail> {
    let mut checker = checker(alloc, alloc)?;
    ask(alloc, &mut checker, first, end)?;
    Ok(checker.into_handler().asked.get())
}

#[test]
fn the_last_256_known_users_are_remembered(rt: HostRuntime) -> Result<(), Fail> {
    for (first, end, calls) in &ASKED {
        assert_eq!(rt; asked(rt.alloc(), *first, *end)?, *calls);
    }
    Ok(())
}

/// Asks for some users where the growth after so many is refused, and says whether one was. Who is remembered takes no
/// memory.
fn is_refused(alloc: Global, served: u64) -> Result<bool, Fail> {
    let refusing = FailingAlloc::new(alloc, u64::MAX);
    let mut checker = checker(alloc, &refusing)?;
    refusing.arm(served);
    ask(alloc, &mut checker, 0, 4)?;
    let was_refused = refusing.has_refused();
    refusing.arm(0);
    ask(alloc, &mut checker, 0, 4)?;
    if refusing.has_refused() {
        return Err(Fail::new("memory"));
    }
    Ok(was_refused)
}

#[test]
fn a_refused_growth_is_made_up_for(rt: HostRuntime) -> Result<(), Fail> {
    for served in 0..32u64 {
        if !is_refused(rt.alloc(), served)? {
            assert!(rt; served > 4);
            return Ok(());
        }
    }
    Err("some growth is always refused")?
}

/// Makes a checker, and returns its handler, and whether it was refused: a refusal returns the handler too.
fn handler_of(
    refusing: &FailingAlloc<Global>,
    config: &ServerConfig,
    handler: Counting,
) -> (Counting, bool) {
    match Checker::new(refusing, config, handler) {
        Ok(checker) => (checker.into_handler(), false),
        Err(refused) => (refused.value, true),
    }
}

/// Makes a checker where the growth after so many is refused, says whether one was, and makes another with its handler.
fn is_checker_refused(alloc: Global, served: u64) -> Result<bool, Fail> {
    let config = config(alloc)?;
    let refusing = FailingAlloc::new(alloc, served);
    let (handler, is_refused) = handler_of(&refusing, &config, known_users(alloc)?);
    if is_refused != refusing.has_refused() {
        return Err(Fail::new("a refusal"));
    }
    refusing.arm(u64::MAX);
    let (handler, is_refused_again) = handler_of(&refusing, &config, handler);
    if is_refused_again || key_in(&handler.users, &[0, 1]) != Some(key_of(1)) {
        return Err(Fail::new("a handler"));
    }
    Ok(is_refused)
}

#[test]
fn a_refused_growth_returns_the_handler(rt: HostRuntime) -> Result<(), Fail> {
    assert!(rt; is_checker_refused(rt.alloc(), 0)?);
    assert!(rt; !is_checker_refused(rt.alloc(), 1)?);
    Ok(())
}
