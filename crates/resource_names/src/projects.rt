//! The names of projects.

ghost use Rattle.std.specs.Prelude.{◌≡◌, map};
ghost use Rattle.resource_names.specs.Reads.{Reads};
ghost use Rattle.resource_names.specs.Project.{project_in, project_name_of};

use crate::faults::NameFault;
use crate::parts::{MAX_NAME_BYTES, is_named, parts_of};
use outside::Text;
use std::alloc::Global;

/// The name of a project: `projects/P`.
#[derive(Drop)]
pub struct ProjectName {
    pub project: Text,
}

fn project_in(alloc: Global, parts: &[&str]) -> Result<ProjectName, NameFault>
    ensures { Reads (project_in (map (λ p. p.now) parts.now)) result }
{
    match parts {
        [projects, project] if is_named("projects", projects, project) => Ok(ProjectName {
            project: Text::of(alloc, project)?,
        }),
        _ => Err(NameFault::BadName),
    }
}

impl ProjectName {
    /// Reads the name of a project; `BadName` exactly where the text is none.
    pub fn parse(alloc: Global, text: &str) -> Result<ProjectName, NameFault>
        ensures { Reads (project_name_of text.now) result }
    {
        if text.len() > MAX_NAME_BYTES {
            return Err(NameFault::BadName);
        }
        let parts = parts_of(alloc, text)?;
        project_in(alloc, parts.as_slice())
    }
}
