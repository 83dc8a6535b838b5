//! A look at a node of a read session.

ghost use Rattle.std.specs.Prelude.{◌≡◌, ◌≤◌, ◌≤ℤ◌, length, IfOk};
ghost use Rattle.std.specs.Arc.{arc_value};
ghost use Rattle.row_groups.specs.Places.{joined};
ghost use Rattle.read_cursor.specs.Lease.{IsReadable};
ghost use Rattle.table_model.specs.declared.limits.TheConstants.{LATEST_READING};
ghost use Rattle.table_model.specs.Sessions.{expiry_of};

use outside::Memory;
use read_cursor::Lease;
use read_sessions::Session;
use row_groups::Spine;
use split_tree::Interval;
use std::sync::Arc;
use table_model::SESSION_LIFETIME;

/// A node of a read session.
#[derive(Clone, Copy, Debug, PartialEq, Eq)]
pub struct Key {
    /// The number of the session, from 1.
    pub session: u32,
    /// The number of the node in its session, from 0.
    pub node: u32,
}

/// What a look tells of a node.
#[derive(Drop)]
pub struct Held {
    /// The rows that are visible, of which the node reads those of its interval, with the session's restriction and columns.
    pub lease: Lease,
    /// From when on it can't be read, in microseconds since 1970-01-01.
    pub expires: i64,
    /// The moment of the history, in microseconds since 1970-01-01.
    pub moment: i64,
}

/// What is held of an interval of a session's rows, where the spine has these.
pub(crate) fn hold(
    spine: Arc<Spine>,
    session: &Session,
    interval: Interval,
    latest: i64,
) -> Result<Held, Memory>
    requires rises { interval.from ≤ interval.upto }
    requires within { interval.upto ≤ length (joined (arc_value spine)) }
    requires readable { IsReadable (joined (arc_value spine)) session.now.pred session.now.fields }
    requires early { session.now.moment ≤ℤ LATEST_READING }
    ensures lease { IfOk result (λ held. held.lease ≡ record { groups = arc_value spine; lo = interval.from; hi = interval.upto; roots = session.now.nodes.roots; pred = session.now.pred; fields = session.now.fields }) }
    ensures times { IfOk result (λ held. (held.expires ≡ expiry_of session.now.moment) × (held.moment ≡ latest)) }
{
    let pred = Arc::try_clone(session.pred())?;
    let fields = Arc::try_clone(session.fields())?;
    let roots = session.roots();
    Ok(Held {
        lease: Lease::of(spine, interval.from, interval.upto, roots, pred, fields),
        expires: session.moment() + SESSION_LIFETIME,
        moment: latest,
    })
}
