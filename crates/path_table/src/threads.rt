//! Entries and tables may be shared by threads and sent to one. This proves it here, before a crate above starts a thread.

use crate::{Entry, Table, Touched};

fn is_shared<T: Send + Sync>() {}

#[allow(dead_code)]
fn cross_threads() {
    is_shared::<Entry>();
    is_shared::<Table>();
    is_shared::<Touched>();
}
