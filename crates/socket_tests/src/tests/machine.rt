//! Which addresses the kernel's list says are the machine's. The lists are written by hand, in the form that `fib_trie_seq_show` of
//! Linux prints: a node after `+--`, a leaf after `|--`, and below that a line for each route from its address.

use failing_alloc::FailingAlloc;
use std::test::Fail;
use turn_sockets::MachineAddresses;

/// One interface with 192.0.2.2/24 and 198.51.100.128/25, and 203.0.113.0/24 as a local route.
const LIST: &str = "Main:
  +-- 0.0.0.0/0 3 0 5
     |-- 0.0.0.0
        /0 universe UNICAST
     |-- 192.0.2.0
        /24 link UNICAST
Local:
  +-- 0.0.0.0/0 3 0 5
     +-- 127.0.0.0/8 2 0 2
        +-- 127.0.0.0/31 1 0 0
           |-- 127.0.0.0
              /8 host LOCAL
           |-- 127.0.0.1
              /32 host LOCAL
        |-- 127.255.255.255
           /32 link BROADCAST
     |-- 192.0.2.2
        /32 host LOCAL
     |-- 192.0.2.255
        /32 link BROADCAST
     |-- 198.51.100.128
        /25 link UNICAST
        /32 host LOCAL
     |-- 203.0.113.0
        /24 host LOCAL tos=16
";

/// Addresses, and whether they are the machine's by that list.
const ADDRESSES: [(u32, bool); 14] = [
    (0x7F00_0001, true),
    (0x7F01_0203, true),
    (0x7FFF_FFFF, true),
    (0x8000_0000, false),
    (0xC000_0202, true),
    (0xC000_0201, false),
    (0xC000_02FF, false),
    (0xC633_6480, true),
    (0xC633_6481, false),
    (0xCB00_7100, true),
    (0xCB00_71FF, true),
    (0xCB00_7200, false),
    (0xCB00_70FF, false),
    (0, false),
];

#[test]
fn an_address_with_a_local_route_is_the_machines(rt: HostRuntime) -> Result<(), Fail> {
    let machine = MachineAddresses::parse(rt.alloc(), LIST)?;
    for (ip, is_its_own) in ADDRESSES {
        assert!(rt; machine.has(ip) == is_its_own);
    }
    Ok(())
}

/// Lists that say nothing of the machine: malformed ones, and a route before any address.
const REFUSED: [&str; 9] = [
    "",
    "/32 host LOCAL\n",
    "|-- 192.0.2.2\n",
    "|-- 192.0.2.2\n/33 host LOCAL\n",
    "|-- 192.0.2.2\n/-1 host LOCAL\n",
    "|-- 192.0.2.2\n32 host LOCAL\n",
    "|-- 192.0.2.2\n/32 host local\n",
    "|-- 192.0.2.256\n/32 host LOCAL\n",
    "|-- 192.0.2.2\n|-- 192.0.2.256\n/32 host LOCAL\n",
];

#[test]
fn a_list_without_a_local_route_is_an_error(rt: HostRuntime) {
    for text in REFUSED {
        assert!(rt; MachineAddresses::parse(rt.alloc(), text).is_err());
    }
}

#[test]
fn each_address_is_the_machines_where_all_are_local(rt: HostRuntime) -> Result<(), Fail> {
    let machine = MachineAddresses::parse(rt.alloc(), "|-- 0.0.0.0\n/0 host LOCAL\n")?;
    assert!(rt; machine.has(0));
    assert!(rt; machine.has(0xFFFF_FFFF));
    Ok(())
}

/// A list of so many addresses.
fn list_of(rt: &HostRuntime, count: u16) -> Result<String, Fail> {
    let mut list = String::new(rt.alloc());
    for number in 0..count {
        let [high, low] = number.to_be_bytes();
        let lines = format!(in rt.alloc(); "|-- 10.0.{high}.{low}\n/32 host LOCAL\n")?;
        list.push_str(&lines)?;
    }
    Ok(list)
}

#[test]
fn a_machine_has_at_most_512_prefixes(rt: HostRuntime) -> Result<(), Fail> {
    let most = list_of(&rt, 512)?;
    assert!(rt; MachineAddresses::parse(rt.alloc(), &most)?.has(0x0A00_01FF));
    let more = list_of(&rt, 513)?;
    assert!(rt; MachineAddresses::parse(rt.alloc(), &more).is_err());
    Ok(())
}

#[test]
fn a_refused_growth_is_an_error(rt: HostRuntime) {
    let refusing = FailingAlloc::new(rt.alloc(), 0);
    assert!(rt; MachineAddresses::parse(&refusing, LIST).is_err());
}

#[test]
fn the_system_lists_the_loopback_and_no_address_of_documents(rt: HostRuntime) -> Result<(), Fail> {
    let machine = MachineAddresses::read(rt.alloc(), &rt)?;
    assert!(rt; machine.has(0x7F00_0001));
    assert!(rt; !machine.has(0xCB00_7105));
    Ok(())
}
