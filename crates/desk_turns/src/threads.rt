//! A shared desk may be shared by threads, and a pass sent to one. This proves it here, before a crate above starts a thread.
use crate::{Pass, SharedDesk};

fn is_shared<T: Send + Sync>() {}

fn is_sent<T: Send>() {}

#[allow(dead_code)]
fn cross_threads() {
    is_shared::<SharedDesk>();
    is_sent::<Pass>();
}
