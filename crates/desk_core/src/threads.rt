//! Desks, events and replies may be sent to a thread. This proves it here, before a crate above starts one.

use crate::{Desk, Event, Logged, Reply};

fn is_sent<T: Send>() {}

#[allow(dead_code)]
fn cross_threads() {
    is_sent::<Desk>();
    is_sent::<Event>();
    is_sent::<Logged>();
    is_sent::<Reply>();
}
