//! Each growth of memory refused in turn: how much a decision and a datagram take.

use failing_alloc::FailingAlloc;
use std::alloc::Global;
use std::process::Abort;
use test_requests::{FIRST, ID, PEER_ENDPOINT, five_tuple};
use test_servers::Scenario;
use turn_codec::{AttributeType, Message};
use turn_config::Configured;
use turn_cred::Checker;
use turn_relay::{ToClient, from_client, from_peer};
use turn_rules::{ClientMessage, Decision, Tableless, assess, decide, reply_without_table};
use turn_table::Table;
use turn_types::{Moment, ServerConfig};

/// A server at second 1000.
const OPENED: &[u8] = b"limits 8 4 4 8 8
format 4096
expect opened clock 0
at 1000
raw 192.0.2.3:40000 -";

fn has_fingerprint(rt: &impl Abort, reply: &[u8]) -> bool {
    let message = Message::parse(reply).expect(rt, "a message");
    message.find(AttributeType::FINGERPRINT).is_some()
}

/// What is decided about a request: whether there is an act, and whether the reply has a FINGERPRINT.
fn found(rt: &impl Abort, decided: &Decision<&FailingAlloc<Global>>) -> (bool, bool) {
    match &decided.reply {
        Some(reply) => (decided.act.is_some(), has_fingerprint(rt, reply)),
        None => panic!(rt; "no reply"),
    }
}

/// What is decided about a request at a table's moment, or `None` where a growth is refused, after which the next call
/// answers it.
fn decided(
    rt: &impl Abort,
    refusing: &FailingAlloc<Global>,
    table: &Table,
    config: &ServerConfig,
    request: &ClientMessage<'_>,
    port: Option<u16>,
) -> Option<(bool, bool)> {
    let assess = || assess(table, config, request, true);
    match decide(refusing, table, config, request, assess(), port) {
        Ok(decided) => {
            assert!(rt; refusing.left() == 0);
            Some(found(rt, &decided))
        }
        Err(_) => {
            assert!(rt; refusing.has_refused());
            let again = decide(refusing, table, config, request, assess(), port);
            assert!(rt; again.expect(rt, "memory").reply.is_some());
            None
        }
    }
}

/// How many growths that takes, and what is decided. Each growth is refused once, which gives an error and is answered at
/// the next call.
fn growths_with(
    rt: &impl Abort,
    alloc: Global,
    table: &Table,
    config: &ServerConfig,
    request: &ClientMessage<'_>,
    port: Option<u16>,
) -> (u64, (bool, bool)) {
    let refusing = FailingAlloc::new(alloc, u64::MAX);
    for served in 0..8u64 {
        refusing.arm(served);
        if let Some(found) = decided(rt, &refusing, table, config, request, port) {
            return (served, found);
        }
    }
    panic!(rt; "some growth is always refused");
}

/// The outcome of the credential check of a message of the first client at a moment, and what it is of.
fn checked<'a>(
    rt: &impl Abort,
    alloc: Global,
    configured: Configured<'_>,
    message: Message<'a>,
    moment: Moment,
) -> (ServerConfig, ClientMessage<'a>) {
    let Configured {
        config,
        credentials,
        ..
    } = configured;
    let verdict = match Checker::new(alloc, &config, credentials) {
        Ok(mut checker) => checker.check(&message, FIRST, moment),
        Err(_) => panic!(rt; "memory"),
    };
    let request = ClientMessage {
        message,
        five_tuple: five_tuple(FIRST),
        verdict: Some(verdict),
    };
    (config, request)
}

/// The same for the request of a line.
fn growths(
    rt: &impl Abort,
    alloc: Global,
    scenario: &Scenario,
    line: &[u8],
    port: Option<u16>,
) -> (u64, (bool, bool)) {
    let configured = scenario.configured().expect(rt, "a configuration");
    let datagram = scenario.datagram(line).expect(rt, "a datagram");
    let table = scenario.server().expect(rt, "a server").table();
    let message = Message::parse(&datagram.bytes).expect(rt, "a message");
    let (config, request) = checked(rt, alloc, configured, message, table.moment());
    growths_with(rt, alloc, table, &config, &request, port)
}

/// Alice's requests in their order, what each gets, the port that it has, and the growths of a decision: one for the reply, and one
/// for a user's name or a list of addresses. A token takes none.
const DECISIONS: [(&[u8], &[u8], Option<u16>, u64); 6] = [
    (
        b"ask 192.0.2.1:32853 alice 0102030405060708090a0b0c allocate transport=17",
        b"expect client 192.0.2.1:32853 success allocate 0102030405060708090a0b0c port=50000 life=600",
        Some(50000),
        2,
    ),
    (
        b"ask 192.0.2.1:32853 alice 0102030405060708090a0b0c refresh",
        b"expect client 192.0.2.1:32853 success refresh 0102030405060708090a0b0c life=600",
        None,
        1,
    ),
    (
        b"ask 192.0.2.1:32853 alice 0102030405060708090a0b0c permit peer=203.0.113.5:7000 peer=203.0.113.6:7000",
        b"expect client 192.0.2.1:32853 success permit 0102030405060708090a0b0c",
        None,
        2,
    ),
    (
        b"ask 192.0.2.1:32853 alice 0102030405060708090a0b0c bind chan=4000 peer=203.0.113.5:7000",
        b"expect client 192.0.2.1:32853 success bind 0102030405060708090a0b0c",
        None,
        1,
    ),
    (
        b"ask 192.0.2.1:32853 alice 0102030405060708090a0b0c refresh life=0",
        b"expect client 192.0.2.1:32853 success refresh 0102030405060708090a0b0c life=0",
        None,
        1,
    ),
    (
        b"ask 192.0.2.1:32853 alice 0102030405060708090a0b0c allocate transport=17 even+",
        b"expect client 192.0.2.1:32853 success allocate 0102030405060708090a0b0c port=50000 life=600 token=c351d574b15a49fa",
        Some(50000),
        2,
    ),
];

fn play_decisions(rt: &impl Abort, alloc: Global, scenario: &mut Scenario) {
    scenario.play_all(b"commit\nexpect committed 0");
    for (place, (line, reply, port, count)) in DECISIONS.iter().enumerate() {
        let is_right = growths(rt, alloc, scenario, line, *port) == (*count, (true, false));
        let lines: [&[u8]; 4] = [line, b"commit", reply, b"expect committed 1"];
        if !is_right || !lines.iter().all(|line| scenario.play(line)) {
            panic!(rt; "decision {place}");
        }
    }
}

#[test]
fn decision_takes_the_memory_of_the_reply_and_the_act(rt: HostRuntime) {
    let alloc = rt.alloc();
    let mut scenario = Scenario::begin(alloc, alloc, OPENED).expect(&rt, "a server");
    play_decisions(&rt, alloc, &mut scenario);
}

/// Alice's Refresh with the nonce of second 1000 and a FINGERPRINT, by Python's modules hmac, hashlib and zlib.
const FINGERPRINTED: &[u8] =
    b"raw 192.0.2.1:32853 000400902112a4420102030405060708090a0b0c00060005616c6963650000000014000b6578616d706c652e6f7267000015\
    0050303030303030303030303030303365383637623436316161363039343466663264353361613233376236343037633161\
    6236373739633534386532393739373662336265643037383430353639343839000800143a63c1c81ccf1e57978c0a02f6cb\
    1130279839d080280004bcc1fc4b";

#[test]
fn refusal_takes_the_memory_of_the_reply(rt: HostRuntime) {
    let alloc = rt.alloc();
    let scenario = Scenario::begin(alloc, alloc, OPENED).expect(&rt, "a server");
    assert_eq!(rt;
        growths(&rt, alloc, &scenario, FINGERPRINTED, None),
        (1, (false, true))
    );
}

/// A Binding, which is answered alike over every table.
const BINDING: &[u8] =
    b"\x00\x01\x00\x00\x21\x12\xa4\x42\x01\x02\x03\x04\x05\x06\x07\x08\x09\x0a\x0b\x0c";

/// Whether there is memory for the reply to a request.
fn is_replied(
    rt: &impl Abort,
    refusing: &FailingAlloc<Global>,
    config: &ServerConfig,
    request: &ClientMessage<'_>,
    moment: Moment,
) -> bool {
    match reply_without_table(refusing, config, request, moment) {
        Ok(Tableless::Reply(Some(_))) => true,
        Ok(_) => panic!(rt; "no reply"),
        Err(_) => false,
    }
}

fn reply_with_one_growth(rt: &impl Abort, alloc: Global, scenario: &Scenario) {
    let Configured { config, .. } = scenario.configured().expect(rt, "a configuration");
    let moment = scenario.server().expect(rt, "a server").table().moment();
    let message = Message::parse(BINDING).expect(rt, "a message");
    let request = ClientMessage {
        message,
        five_tuple: five_tuple(FIRST),
        verdict: None,
    };
    let refusing = FailingAlloc::new(alloc, 0);
    assert!(rt; !is_replied(rt, &refusing, &config, &request, moment));
    assert!(rt; refusing.has_refused());
    refusing.arm(1);
    assert!(rt; is_replied(rt, &refusing, &config, &request, moment) && refusing.left() == 0);
}

#[test]
fn reply_without_a_table_takes_its_memory(rt: HostRuntime) {
    let alloc = rt.alloc();
    let scenario = Scenario::begin(alloc, alloc, OPENED).expect(&rt, "a server");
    reply_with_one_growth(&rt, alloc, &scenario);
}

/// The text "hello" to and from 203.0.113.5:7000.
const SEND: &[u8] =
    b"\x00\x16\x00\x18\x21\x12\xa4\x42\x01\x02\x03\x04\x05\x06\x07\x08\x09\x0a\x0b\x0c\
    \x00\x12\x00\x08\x00\x01\x3a\x4a\xea\x12\xd5\x47\
    \x00\x13\x00\x05hello\x00\x00\x00";

const INDICATION: &[u8] =
    b"\x00\x17\x00\x18\x21\x12\xa4\x42\x01\x02\x03\x04\x05\x06\x07\x08\x09\x0a\x0b\x0c\
    \x00\x12\x00\x08\x00\x01\x3a\x4a\xea\x12\xd5\x47\
    \x00\x13\x00\x05hello\x00\x00\x00";

const CHANNEL_DATA: &[u8] = b"\x40\x00\x00\x05hello";

/// The client's datagram, or `None` after an allocation failure.
fn written<'a>(
    rt: &impl Abort,
    refusing: &'a FailingAlloc<Global>,
    out: &ToClient<'_>,
) -> Option<Vec<u8, &'a FailingAlloc<Global>>> {
    match out.channel {
        Some(_) => assert!(rt; out.bytes.len() <= 65503),
        None => assert!(rt; out.bytes.len() <= 65468),
    }
    match out.write(refusing, ID) {
        Ok(bytes) => Some(bytes),
        Err(_) => None,
    }
}

/// A peer's "hello" is checked without memory, and written as these bytes with one growth, after which all memory is
/// served. Data of a client takes none.
fn write_at_once(
    rt: &impl Abort,
    refusing: &FailingAlloc<Global>,
    table: &Table<&FailingAlloc<Global>>,
    wanted: &[u8],
) {
    refusing.arm(0);
    let Some(out) = from_peer(table, 50000, PEER_ENDPOINT, b"hello") else {
        panic!(rt; "no datagram");
    };
    let sent = from_client(table, five_tuple(FIRST), SEND).expect(rt, "a payload");
    assert!(rt; refusing.left() == 0 && sent.bytes == b"hello".as_slice());
    assert!(rt; written(rt, refusing, &out).is_none() && refusing.has_refused());
    refusing.arm(1);
    let bytes = written(rt, refusing, &out).expect(rt, "memory");
    assert_eq!(rt; bytes.as_slice(), wanted);
    assert!(rt; refusing.left() == 0);
    refusing.arm(u64::MAX);
}

/// An allocation and a permission.
const PERMITTED: &[u8] = b"commit
expect committed 0
ask 192.0.2.1:32853 alice 0102030405060708090a0b0c allocate
ask 192.0.2.1:32853 alice 0102030405060708090a0b0c permit peer=203.0.113.5:7000
commit
expect client 192.0.2.1:32853 success allocate 0102030405060708090a0b0c port=50000 life=600
expect client 192.0.2.1:32853 success permit 0102030405060708090a0b0c
expect committed 2";

/// A channel.
const BOUND: &[u8] =
    b"ask 192.0.2.1:32853 alice 0102030405060708090a0b0c bind chan=4000 peer=203.0.113.5:7000";

/// A server over memory that may be refused.
type Refused<'a> = Scenario<&'a FailingAlloc<Global>>;

/// Plays lines, after which peers' data is written at once as these bytes.
fn write_after(
    rt: &impl Abort,
    refusing: &FailingAlloc<Global>,
    scenario: &mut Refused<'_>,
    lines: &[u8],
    wanted: &[u8],
) {
    assert!(rt; scenario.play_all(lines));
    let table = scenario.server().expect(rt, "a server").table();
    write_at_once(rt, refusing, table, wanted);
}

#[test]
fn peers_data_takes_the_memory_of_the_datagram(rt: HostRuntime) {
    let refusing = FailingAlloc::new(rt.alloc(), u64::MAX);
    let mut scenario = Scenario::begin(rt.alloc(), &refusing, OPENED).expect(&rt, "a server");
    write_after(&rt, &refusing, &mut scenario, PERMITTED, INDICATION);
    write_after(&rt, &refusing, &mut scenario, BOUND, CHANNEL_DATA);
}
