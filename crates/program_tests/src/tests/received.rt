//! What a client got.

use super::talks::Talk;

/// How many datagrams of each kind: successes of Refreshes, Data indications, and successes of Bindings.
#[derive(Clone, Copy, PartialEq, Eq)]
pub struct Received {
    refreshes: u8,
    pub data: u8,
    bindings: u8,
    others: u8,
}

pub fn got(refreshes: u8, data: u8, bindings: u8) -> Received {
    Received {
        refreshes,
        data,
        bindings,
        others: 0,
    }
}

/// What a client has got by now.
pub fn receive_all(talk: &mut Talk<'_>) -> Received {
    let mut all = got(0, 0, 0);
    for _ in 0..80u8 {
        let Ok(bytes) = talk.client().receive() else {
            return all;
        };
        match bytes {
            [1, 4, ..] => all.refreshes = all.refreshes.wrapping_add(1),
            [0, 0x17, ..] => all.data = all.data.wrapping_add(1),
            [1, 1, ..] => all.bindings = all.bindings.wrapping_add(1),
            _ => all.others = all.others.wrapping_add(1),
        }
    }
    all
}
