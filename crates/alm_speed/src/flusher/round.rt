//! A batch of requests on its way.

use alm_flush_tests::parts::Parts;
use alm_store::Store;
use alm_types::{Request, Verdict};

/// These requests pass through in one batch: how many receipts came, those of accepted actions twice.
pub fn round<K: Store>(parts: &mut Parts<K>, asked: &[Request]) -> u64 {
    send(parts, asked);
    take(parts, asked);
    let _ = parts.seal();
    let _ = parts.store(8);
    release(parts, asked);
    receive(parts, asked)
}

fn send<K: Store>(parts: &mut Parts<K>, asked: &[Request]) {
    for request in asked {
        let _ = parts.send(request.slot, request.want.action());
    }
}

fn take<K: Store>(parts: &mut Parts<K>, asked: &[Request]) {
    for request in asked {
        let _ = parts.take(request.slot);
    }
}

fn release<K: Store>(parts: &mut Parts<K>, asked: &[Request]) {
    for _reply in 0..asked.len() {
        let _ = parts.flusher.release();
    }
    let _ = parts.flusher.give_back();
}

fn receive<K: Store>(parts: &mut Parts<K>, asked: &[Request]) -> u64 {
    let mut sum = 0u64;
    for request in asked {
        sum = match parts.receive(request.slot) {
            Some(receipt) => match receipt.verdict {
                Verdict::Accepted(_) => sum.wrapping_add(2),
                Verdict::Refused(..) => sum.wrapping_add(1),
            },
            None => sum,
        };
    }
    sum
}
