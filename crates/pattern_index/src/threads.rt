//! An index may be shared by threads. This proves it here, before a thread is started.

use crate::index::PatternIndex;

fn is_shared<T: Sync>() {}

#[allow(dead_code)]
fn cross_threads() {
    is_shared::<PatternIndex>();
}
