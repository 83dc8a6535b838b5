//! Names of projects and read streams, and the nodes of sessions that these can be.

ghost use Rattle.std.specs.Prelude.{◌≡◌, ◌<◌, length, IfOk, IfSome};
ghost use Rattle.resource_names.specs.Project.{project_name_of};
ghost use Rattle.resource_names.specs.Read.{read_name_of as read_stream_named};
ghost use Rattle.call_names.specs.Nodes.{node_of};

use open_tables::Tables;
use outside::Memory;
use resource_names::{NameFault, ProjectName, ReadName, ReadPlace};
use std::alloc::Global;

/// The project that a text names, if it names one.
pub fn project_of(alloc: Global, text: &str) -> Result<Option<ProjectName>, Memory>
    ensures { IfOk result (λ name. name ≡ project_name_of text.now) }
{
    match ProjectName::parse(alloc, text) {
        Ok(name) => Ok(Some(name)),
        Err(NameFault::BadName) => Ok(None),
        Err(NameFault::Memory) => Err(Memory),
    }
}

/// The read stream that a text names, if it names one.
pub fn read_name_of(alloc: Global, text: &str) -> Result<Option<ReadName>, Memory>
    ensures { IfOk result (λ name. name ≡ read_stream_named text.now) }
{
    match ReadName::parse(alloc, text) {
        Ok(name) => Ok(Some(name)),
        Err(NameFault::BadName) => Ok(None),
        Err(NameFault::Memory) => Err(Memory),
    }
}

/// The node of a session that a name can be: None where it is none, or where there is no table at its place. Whether its
/// table has such a session and node is the table's to say.
pub fn node_of(tables: &Tables, name: &ReadName) -> Option<ReadPlace>
    ensures node { result ≡ node_of (length tables.now) name.now }
    ensures within { IfSome result (λ node. node.table < length tables.now) }
{
    let node = name.place()?;
    if tables.has_place(node.table) {
        Some(node)
    } else {
        None
    }
}
