//! What was found may be sent to another thread, and a worker's slot too. This proves it here, before a thread is started.

use crate::frontier::Found;
use crate::workers::Slot;

fn is_sent<T: Send>() {}

#[allow(dead_code)]
fn cross_threads() {
    is_sent::<Found>();
    is_sent::<Slot>();
}
