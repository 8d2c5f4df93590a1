//! What a share of the probes came to may be sent to another thread. This proves it here, before one is started.

use crate::Shot;

fn is_sent<T: Send>() {}

#[allow(dead_code)]
fn cross_threads() {
    is_sent::<Shot>();
    is_sent::<Vec<Shot>>();
}
