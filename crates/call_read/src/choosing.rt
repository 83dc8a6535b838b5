//! The rows of a session: which columns, and the restriction that they meet.

ghost use Rattle.std.specs.Prelude.{◌≡◌, [], slice_get, unwrap_or, Err, IfOk};
ghost use Rattle.filter.specs.Computed.{IsGiven};
ghost use Rattle.table_model.specs.declared.reasons.Why.TheVariants as why;
ghost use Rattle.call_plans.specs.Endings.{refused_for};
ghost use Rattle.call_plans.specs.Sessions.{options_in, no_restriction};
ghost use Rattle.call_read.specs.Choosing.{Chooses};

use column_types::{Fields, FieldsFault, Pred, Schema};
use filter::{FilterFault, parse_restriction};
use outside::{Memory, Text};
use read_msgs::ReadSession;
use std::alloc::Global;
use table_model::Why;

/// What the options of a session choose.
#[derive(Drop)]
pub(crate) enum Chosen {
    /// Nothing, for this cause.
    Refused(Why),
    /// These columns, of the rows that meet this restriction.
    Rows { fields: Fields, pred: Pred },
}

/// The names of the columns; none stands for all columns.
fn names_in(session: &ReadSession) -> &[Text]
    ensures { result.now ≡ (options_in session.now).selected_fields }
{
    match &session.read_options {
        Some(options) => options.selected_fields.texts(),
        None => &[],
    }
}

fn restriction_in(session: &ReadSession) -> &str
    ensures { result.now ≡ (options_in session.now).row_restriction }
{
    match &session.read_options {
        Some(options) => options.row_restriction.text(),
        None => "",
    }
}

/// That no column has the name at this place.
fn unknown_column(alloc: Global, names: &[Text], at: usize) -> Result<Why, Memory>
    ensures { IfOk result (λ cause. cause ≡ why.UnknownColumn (unwrap_or (slice_get names.now at) [])) }
{
    let name = match names.get(at) {
        Some(name) => name.text(),
        None => "",
    };
    Ok(Why::UnknownColumn {
        name: Text::of(alloc, name)?,
    })
}

/// Why a text is no restriction.
fn cause_of(fault: FilterFault) -> Result<Why, Memory>
    ensures cause { IfOk result (λ cause. no_restriction fault ≡ refused_for cause) }
    ensures given { IfOk result (λ cause. IsGiven (Err fault)) }
{
    Ok(match fault {
        FilterFault::Memory => return Err(Memory),
        FilterFault::Long => Why::Long,
        FilterFault::Syntax { at } => Why::Syntax { at },
        FilterFault::UnknownColumn { name } => Why::UnknownColumn { name },
        FilterFault::IllTyped { name } => Why::IllTyped { name },
    })
}

/// What the options of a session choose of a table of these columns: `UnknownColumn` for the first name that no column has,
/// then what refuses the restriction.
pub(crate) fn choose(
    alloc: Global,
    schema: &Schema,
    session: &ReadSession,
) -> Result<Chosen, Memory>
    ensures { IfOk result (Chooses schema.now session.now) }
{
    let names = names_in(session);
    let fields = match Fields::of(alloc, schema, names) {
        Ok(fields) => fields,
        Err(FieldsFault::UnknownColumn { at }) => {
            return Ok(Chosen::Refused(unknown_column(alloc, names, at)?));
        }
        Err(FieldsFault::Memory) => return Err(Memory),
    };
    match parse_restriction(alloc, restriction_in(session), schema) {
        Ok(pred) => Ok(Chosen::Rows { fields, pred }),
        Err(fault) => Ok(Chosen::Refused(cause_of(fault)?)),
    }
}
