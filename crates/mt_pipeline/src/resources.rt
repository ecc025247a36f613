//! What a server keeps from one turn to the next.
use mt_flow::Store;
use mt_ledger::Shares;

/// The mappings and the ports of a server.
#[derive(Drop)]
pub(crate) struct Resources {
    pub store: Store,
    pub shares: Shares,
}
