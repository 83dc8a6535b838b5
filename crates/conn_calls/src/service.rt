//! What serves a connection.

use open_tables::Tables;
use std::alloc::Global;
use std::sync::Wait;

/// The tables that answer, what waits for their turns, and where memory comes from.
#[derive(Drop)]
pub(crate) struct Service<'t, R: Wait> {
    pub(crate) tables: &'t Tables,
    pub(crate) rt: &'t R,
    pub(crate) alloc: Global,
}
