//! A board may be shared by threads, and a seat sent to one. This proves it here, before a crate above starts a thread.
use crate::board::Board;
use crate::seats::ClaimSeat;

fn is_shared<T: Send + Sync>() {}

fn is_sent<T: Send>() {}

#[allow(dead_code)]
fn cross_threads() {
    is_shared::<Board>();
    is_sent::<ClaimSeat>();
}
