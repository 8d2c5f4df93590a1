//! Classes may be shared by threads and sent to one, and what they grow to. This proves it here, before a crate above starts a thread.

use crate::{Class, Grown};

fn is_shared<T: Send + Sync>() {}

#[allow(dead_code)]
fn cross_threads() {
    is_shared::<Class>();
    is_shared::<Grown>();
}
