//! The chains of one zone.
use crate::ChainRecords;
use std::sync::Arc;

#[derive(Drop)]
pub(crate) enum ZoneChains {
    Bare,
    One(Arc<ChainRecords>),
    Two {
        newer: Arc<ChainRecords>,
        older: Arc<ChainRecords>,
    },
}
