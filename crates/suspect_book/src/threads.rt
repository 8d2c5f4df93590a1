//! A book may be sent to a thread. This proves it here, before a crate above starts one.

use crate::Book;

fn is_sent<T: Send>() {}

#[allow(dead_code)]
fn cross_threads() {
    is_sent::<Book>();
}
