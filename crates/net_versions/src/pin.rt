use net_types::Network;
use std::sync::Arc;

/// A network as it was at some version. Later changes don't reach it.
#[derive(Drop)]
pub struct Pin {
    pub version: u32,
    pub net: Arc<Network>,
}
