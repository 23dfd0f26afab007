//! Datagrams that are cut, or one of whose bits is flipped.

use std::alloc::Global;
use std::process::Abort;
use test_requests::{FIRST, five_tuple};
use test_servers::{Datagram, Scenario, Source};
use turn_codec::Message;
use turn_step::Outgoing;
use turn_types::{Class, Method};

/// One act a batch, in areas of the min size of version 1.
const OPENED: &[u8] = b"limits 2 1 1 1 8
format1 238
expect opened clock 0
at 1000";

/// Alice's Allocate with the nonce of second 1000; its HMACs are those of another program.
const REQUEST: &[u8] =
    b"raw 192.0.2.1:32853 000300902112a4420102030405060708090a0b0c001900041100000000060005616c6963650000000014000b6578616d706c652e\
    6f726700001500503030303030303030303030303033653836376234363161613630393434666632643533616132333762363430\
    376331616236373739633534386532393739373662336265643037383430353639343839000800142e8b21b3d028a40d856c10c6\
    e9597ba44aa87efa";

/// The table and the store are as at first: an open gate, version 1, generation 1, an empty snapshot, a closed gate.
const UNCHANGED: &[u8] = b"fail 18446744073709551615
picked
table
expect live 0
disk 64 a50100000000000000010000000c00000000000000000000000000";

/// The success of the Allocate, by port 50000 for 600 seconds, with an HMAC-SHA1 of another program.
const ALLOCATED: &[u8] = b"commit
expect client 192.0.2.1:32853 success allocate 0102030405060708090a0b0c port=50000 life=600
bytes 010300382112a4420102030405060708090a0b0c001600080001e242e721c043000d000400000258002000080001a147e112a643\
    000800145ff505a059dfbd61700a6f8cc0be22a6d88f1648
expect committed 1";

/// Whether a response is the success of a Binding request, or an error of another one.
fn is_response(rt: &impl Abort, bytes: &[u8], is_binding: bool) -> bool {
    let message = Message::parse(bytes).expect(rt, "a message");
    match message.class() {
        Class::Success => is_binding && message.method() == Method::BINDING,
        Class::Error => !is_binding && message.method() != Method::BINDING,
        _ => false,
    }
}

/// Whether what goes out is nothing or an error, or, for a Binding request, its success.
fn is_harmless(rt: &impl Abort, outs: &[Outgoing], is_binding: bool) -> bool {
    match outs {
        [] => !is_binding,
        [
            Outgoing::ToClient {
                five_tuple: to,
                bytes,
            },
        ] => *to == five_tuple(FIRST) && is_response(rt, bytes, is_binding),
        _ => false,
    }
}

/// Submits bytes of the client, whose commit makes no device call, and returns what is handed out.
fn sent(rt: &impl Abort, scenario: &mut Scenario, bytes: Vec<u8>) -> Vec<Outgoing> {
    let source = Source::Client(FIRST);
    assert!(rt; scenario.submit(&Datagram { source, bytes }) == Some(Ok(())));
    let server = scenario.server_mut().expect(rt, "a server");
    server.disk().fail_call(1);
    match server.commit() {
        Ok(outs) => outs,
        Err(_) => panic!(rt; "a refused commit"),
    }
}

/// Whether the Allocate that ends before a byte is dropped.
fn is_cut_dropped(
    rt: &impl Abort,
    alloc: Global,
    scenario: &mut Scenario,
    request: &[u8],
    place: usize,
) -> bool {
    let bytes = Vec::from_slice(alloc, request.get(..place).expect(rt, "a place")).expect(
        rt, "memory",
    );
    sent(rt, scenario, bytes).is_empty()
}

/// Whether the Allocate with a bit flipped is harmless. The second bit of the second byte makes it a Binding request, which
/// needs no credentials.
fn is_flip_harmless(
    rt: &impl Abort,
    alloc: Global,
    scenario: &mut Scenario,
    request: &[u8],
    place: usize,
    bit: u32,
) -> bool {
    let mut bytes = Vec::from_slice(alloc, request).expect(rt, "memory");
    if let Some(byte) = bytes.get_mut(place) {
        *byte ^= 1u8.wrapping_shl(bit);
    }
    let outs = sent(rt, scenario, bytes);
    is_harmless(rt, &outs, (place, bit) == (1, 1))
}

/// The same of each bit of a byte.
fn are_flips_harmless(
    rt: &impl Abort,
    alloc: Global,
    scenario: &mut Scenario,
    request: &[u8],
    place: usize,
) -> bool {
    for bit in 0..8u32 {
        if !is_flip_harmless(rt, alloc, scenario, request, place, bit) {
            return false;
        }
    }
    true
}

/// Cuts and flips each byte, after which the server is as at first, but for the clock, and goes on.
fn try_all(rt: &impl Abort, alloc: Global, scenario: &mut Scenario) {
    let request = scenario.datagram(REQUEST).expect(rt, "a datagram").bytes;
    for place in 0..request.len() {
        let is_cut = is_cut_dropped(rt, alloc, scenario, &request, place);
        if !is_cut || !are_flips_harmless(rt, alloc, scenario, &request, place) {
            panic!(rt; "place {place}");
        }
    }
    assert!(rt; scenario.play_all(UNCHANGED));
    assert!(rt; scenario.play(REQUEST) && scenario.play_all(ALLOCATED));
}

#[test]
fn each_front_and_each_flipped_bit_of_a_request_leads_to_no_act(rt: HostRuntime) {
    let alloc = rt.alloc();
    let mut scenario = Scenario::begin(alloc, alloc, OPENED).expect(&rt, "a server");
    try_all(&rt, alloc, &mut scenario);
}
