//! A field may be sent to another thread. This proves it here, before a crate above starts one.

use crate::Field;

fn is_sent<T: Send>() {}

#[allow(dead_code)]
fn cross_threads() {
    is_sent::<Field>();
}
