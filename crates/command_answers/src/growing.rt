//! Groups of rows that grow.

use crate::asked::{append_of, session_of};
use crate::columns::schema;
use crate::reading::{in_order, matching};
use crate::rows::rows_from;
use crate::stop::Stop;
use crate::words::{cut, number_in};
use read_cursor::{Cursor, Lease};
use std::alloc::Global;
use table_engine::{Engine, Key};
use table_model::StreamRef;

/// A table whose rows' ids are their positions, and the numbers of rows of its first groups, which come again and again.
#[derive(Drop)]
struct Growing {
    engine: Engine,
    sizes: Vec<u32>,
    groups: u32,
    rows: i64,
}

/// Numbers with commas between.
fn numbers_in(alloc: Global, text: &str) -> Result<Vec<u32>, Stop> {
    let mut numbers = Vec::new(alloc);
    for word in text.split(',') {
        numbers.push(number_in(word)?)?;
    }
    Ok(numbers)
}

impl Growing {
    /// No group yet.
    fn of(alloc: Global, sizes: &str) -> Result<Growing, Stop> {
        Ok(Growing {
            engine: Engine::new(alloc, schema(alloc)?)?,
            sizes: numbers_in(alloc, sizes)?,
            groups: 0,
            rows: 0,
        })
    }

    /// The number of rows of a group.
    fn size(&self, group: u32) -> u32 {
        let sizes = self.sizes.as_slice();
        match (group as usize).checked_rem(sizes.len()) {
            Some(at) => sizes[at],
            None => 0,
        }
    }

    /// Pushes groups until there are so many.
    fn grow(&mut self, alloc: Global, upto: u32) -> Result<(), Stop> {
        for group in self.groups..upto {
            let count = self.size(group);
            let batch = rows_from(alloc, self.rows, count)?;
            let command = append_of(self.engine.schema(), StreamRef::Default, None, batch)?;
            self.engine.step(alloc, 0, command, 0)?;
            self.rows = self.rows.wrapping_add(i64::from(count));
        }
        self.groups = upto;
        Ok(())
    }

    /// A lease of the rows for which a restriction is yes, by the session of the next number.
    fn lease(&mut self, alloc: Global, session: u32, restriction: &str) -> Result<Lease, Stop> {
        let command = session_of(alloc, self.engine.schema(), restriction)?;
        self.engine.step(alloc, 0, command, 0)?;
        match self.engine.look(&Key { session, node: 0 })? {
            Some(held) => Ok(held.lease),
            None => Err(Stop::Unread),
        }
    }

    /// Pushes groups until there are so many, takes a lease of their rows, pushes further groups, and tells of the lease.
    fn tell_held(&mut self, alloc: Global, earlier: u32, groups: u32) -> Result<String, Stop> {
        self.grow(alloc, earlier)?;
        let lease = self.lease(alloc, 1, "")?;
        self.grow(alloc, groups)?;
        rows_told(alloc, lease)
    }

    /// Tells where positions stand, and of the rows.
    fn tell_all(&mut self, alloc: Global, positions: &str) -> Result<String, Stop> {
        let lease = self.lease(alloc, 2, "")?;
        let places = places_text(alloc, &lease, positions)?;
        let rows = rows_told(alloc, lease)?;
        Ok(format!(in alloc; "{rows}; at{places}")?)
    }

    /// Tells which rows match.
    fn tell_matching(&mut self, alloc: Global, restriction: &str) -> Result<String, Stop> {
        let lease = self.lease(alloc, 3, restriction)?;
        matching(alloc, Cursor::new(lease, 0))
    }
}

/// How many rows of a lease stand in order, and how many there are in its groups.
fn rows_told(alloc: Global, lease: Lease) -> Result<String, Stop> {
    let count = lease.spine().len();
    Ok(format!(in alloc; "{} of {count} rows", in_order(lease))?)
}

/// Where a position stands.
fn place_text(alloc: Global, lease: &Lease, position: u32) -> Result<String, Stop> {
    Ok(match lease.spine().find(u64::from(position)) {
        Some((group, place)) => format!(in alloc; " {position}={group}/{place}")?,
        None => format!(in alloc; " {position}=none")?,
    })
}

/// Where positions stand.
fn places_text(alloc: Global, lease: &Lease, positions: &str) -> Result<String, Stop> {
    let mut text = String::new(alloc);
    for word in positions.split(',') {
        let place = place_text(alloc, lease, number_in(word)?)?;
        text.push_str(place.as_str())?;
    }
    Ok(text)
}

/// Tells of `SIZES EARLIER GROUPS POSITIONS RESTRICTION`: of the rows of the first groups, by a lease that is held while
/// further ones are pushed, of all rows, where the positions stand, and which rows match.
pub(crate) fn tell_groups(alloc: Global, text: &str) -> Result<String, Stop> {
    let (sizes, rest) = cut(text);
    let (earlier, rest) = cut(rest);
    let (groups, rest) = cut(rest);
    let (positions, restriction) = cut(rest);
    let (earlier, groups) = (number_in(earlier)?, number_in(groups)?);
    let mut growing = Growing::of(alloc, sizes)?;
    let held = growing.tell_held(alloc, earlier, groups)?;
    let all = growing.tell_all(alloc, positions)?;
    let rows = growing.tell_matching(alloc, restriction)?;
    Ok(format!(in alloc; "{held}, {all}; matching{rows}")?)
}
