//! What a CreateReadSession call comes to before its table is asked.

ghost use Rattle.std.specs.Prelude.{◌≡◌, IfOk};
ghost use Rattle.table_model.specs.Rules.{first_refusal};
ghost use Rattle.call_plans.specs.Sessions.{session_rules};
ghost use Rattle.call_read.specs.Choosing.{Wants};

use crate::choosing::{Chosen, choose};
use crate::snapshots::{has_bad_time, snapshot_in};
use call_names::{find, project_of, table_of};
use call_plans::AVRO;
use column_types::{Fields, Pred};
use open_tables::Tables;
use outside::Memory;
use read_msgs::ReadSession;
use resource_names::ProjectName;
use std::alloc::Global;
use table_model::Why;

/// A session that is to be begun.
#[derive(Drop)]
pub(crate) struct Wanted {
    pub project: ProjectName,
    /// The place of its table.
    pub place: u32,
    /// Its columns.
    pub fields: Fields,
    /// The restriction that its rows meet.
    pub pred: Pred,
    /// The moment of its snapshot, in microseconds since 1970-01-01, where one is asked for.
    pub snapshot: Option<i64>,
}

/// What a request comes to before its table is asked.
#[derive(Drop)]
pub(crate) enum Wanting {
    /// It is refused for this cause.
    Refused(Why),
    /// Its table is asked to begin this session.
    Asks(Wanted),
}

/// Why a session can't be had, before its rows are looked at: `BadFormat`, `BadTime` or `NegativeCount`, the first that
/// holds.
fn hindrance(session: &ReadSession, count: i32) -> Option<Why>
    ensures { result ≡ first_refusal (session_rules session.now count) }
{
    if session.data_format != AVRO {
        return Some(Why::BadFormat);
    }
    if has_bad_time(session) {
        return Some(Why::BadTime);
    }
    if count < 0 {
        return Some(Why::NegativeCount);
    }
    None
}

/// Decides on a session. It is refused, in this order: `BadName` where the parent or the table is no name, `NoTable`,
/// `BadFormat`, `BadTime`, `NegativeCount`, `UnknownColumn` for a selected field, and what refuses the restriction.
pub(crate) fn want(
    alloc: Global,
    tables: &Tables,
    session: &ReadSession,
    parent: &str,
    count: i32,
) -> Result<Wanting, Memory>
    ensures { IfOk result (Wants tables.now session.now parent.now count) }
{
    let Some(project) = project_of(alloc, parent)? else {
        return Ok(Wanting::Refused(Why::BadName));
    };
    let Some(table) = table_of(alloc, session.table.text())? else {
        return Ok(Wanting::Refused(Why::BadName));
    };
    let Some(place) = find(alloc, tables, &table)? else {
        return Ok(Wanting::Refused(Why::NoTable));
    };
    if let Some(cause) = hindrance(session, count) {
        return Ok(Wanting::Refused(cause));
    }
    let spec = tables.spec(place);
    match choose(alloc, &spec.schema, session)? {
        Chosen::Refused(cause) => Ok(Wanting::Refused(cause)),
        Chosen::Rows { fields, pred } => Ok(Wanting::Asks(Wanted {
            project,
            place,
            fields,
            pred,
            snapshot: snapshot_in(session),
        })),
    }
}
