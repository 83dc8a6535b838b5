//! What a commit comes to before its table is asked.

ghost use Rattle.std.specs.Prelude.{IfOk};
ghost use Rattle.call_read.specs.Deciding.{Decides};

use crate::streams::{hindrance, streams_of};
use call_names::{find, table_of};
use open_tables::Tables;
use outside::Memory;
use std::alloc::Global;
use table_model::{Refs, Why};
use write_msgs::BatchCommitWriteStreamsRequest;

/// What a commit comes to before its table is asked.
#[derive(Drop)]
pub(crate) enum Decided {
    /// It is refused for this cause.
    Refused(Why),
    /// The table at this place is asked to commit these streams, those of the request in its order.
    Asks { place: u32, streams: Refs },
}

/// Decides on a commit. It is refused, in this order: `BadName` where the parent or a stream is no name, `NoTable`,
/// `NoStreams`, `OtherTable`, `Twice` where two streams that no table has are one text.
pub(crate) fn decide(
    alloc: Global,
    tables: &Tables,
    request: &BatchCommitWriteStreamsRequest,
) -> Result<Decided, Memory>
    ensures { IfOk result (λ decided. Decides tables.now request.now decided) }
{
    let texts = request.write_streams.texts();
    let Some(table) = table_of(alloc, request.parent.text())? else {
        return Ok(Decided::Refused(Why::BadName));
    };
    let Some(streams) = streams_of(alloc, &table, texts)? else {
        return Ok(Decided::Refused(Why::BadName));
    };
    let Some(place) = find(alloc, tables, &table)? else {
        return Ok(Decided::Refused(Why::NoTable));
    };
    if let Some(cause) = hindrance(alloc, texts, &streams)? {
        return Ok(Decided::Refused(cause));
    }
    Ok(Decided::Asks {
        place,
        streams: streams.refs,
    })
}
