//! The write streams of one commit.

ghost use Rattle.std.specs.Prelude.{◌≡◌, ◌||◌, not, length, IfOk};
ghost use Rattle.call_plans.specs.Names.{is_one_table};
ghost use Rattle.call_plans.specs.Twice.{repeats};
ghost use Rattle.call_read.specs.Streams.{ReadsStreams, hindrance, unknown_among};

use call_names::{name_of, ref_of};
use outside::{Memory, Text};
use resource_names::TableName;
use std::alloc::Global;
use std::collections::BTreeSet;
use table_model::{Refs, StreamRef, Why};

/// The write streams of one commit, as the command of its table names them.
#[derive(Drop)]
pub(crate) struct Streams {
    /// The streams, in the order of the request.
    pub refs: Refs,
    /// Whether one is another table's.
    pub has_other_table: bool,
}

/// Whether two names are of one table.
fn is_one_table(a: &TableName, b: &TableName) -> bool
    ensures { result ≡ is_one_table a.now b.now }
{
    a.project.text() == b.project.text()
        && a.dataset.text() == b.dataset.text()
        && a.table.text() == b.table.text()
}

/// Whether there was another table, or this one is.
fn or_other(had: bool, table: &TableName, other: &TableName) -> bool
    ensures { result ≡ (had || not (is_one_table table.now other.now)) }
{
    had || !is_one_table(table, other)
}

/// The write streams that the texts name, and whether one is another table's than this; none where a text names no write
/// stream.
pub(crate) fn streams_of(
    alloc: Global,
    table: &TableName,
    texts: &[Text],
) -> Result<Option<Streams>, Memory>
    ensures { IfOk result (λ streams. ReadsStreams table.now texts.now streams) }
{
    let mut refs = Vec::with_capacity(alloc, texts.len())?;
    let mut has_other_table = false;
    for text in texts {
        let Some(name) = name_of(alloc, text.text())? else {
            return Ok(None);
        };
        refs.push(ref_of(name.stream))?;
        has_other_table = or_other(has_other_table, table, &name.table);
    }
    Ok(Some(Streams {
        refs: Refs::from_vec(refs),
        has_other_table,
    }))
}

/// Whether a text is there twice, of those whose stream no table has. The texts and the streams go together.
fn repeats_unknown(alloc: Global, texts: &[Text], refs: &[StreamRef]) -> Result<bool, Memory>
    requires { length texts.now ≡ length refs.now }
    ensures { IfOk result (λ twice. twice ≡ repeats (unknown_among texts.now refs.now)) }
{
    let mut seen = BTreeSet::new(alloc);
    for (place, text) in texts.iter().enumerate() {
        match refs[place] {
            StreamRef::Other => {
                if !seen.insert(text.text())? {
                    return Ok(true);
                }
            }
            StreamRef::Default | StreamRef::Number(_) => {}
        }
    }
    Ok(false)
}

/// Why the streams of these texts can't be committed, before their table is asked: `NoStreams`, `OtherTable` or `Twice`,
/// the first that holds. That a stream which the table can have is named twice is the table's to see.
pub(crate) fn hindrance(
    alloc: Global,
    texts: &[Text],
    streams: &Streams,
) -> Result<Option<Why>, Memory>
    requires { length texts.now ≡ length streams.now.refs }
    ensures { IfOk result (λ cause. cause ≡ hindrance texts.now streams.now.refs streams.now.has_other_table) }
{
    if streams.refs.is_empty() {
        return Ok(Some(Why::NoStreams));
    }
    if streams.has_other_table {
        return Ok(Some(Why::OtherTable));
    }
    if repeats_unknown(alloc, texts, streams.refs.as_slice())? {
        return Ok(Some(Why::Twice));
    }
    Ok(None)
}
