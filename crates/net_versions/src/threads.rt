//! Networks that change and their pins may be sent to a thread. This proves it here, before a crate above starts one.

use crate::{Change, Pin, Versions};

fn is_shared<T: Send + Sync>() {}

#[allow(dead_code)]
fn cross_threads() {
    is_shared::<Change>();
    is_shared::<Pin>();
    is_shared::<Versions>();
}
