// What is said of sources.
use manager_links::Project;
use maxj_syntax::parse;
use mx_base::NoMemory;
use project_build::{ProjectError, build_project};
use std::alloc::Global;

/// What is said of a source: its project, or the line of its refusal.
#[derive(Drop)]
pub enum Told {
    Project(Project),
    Refused(Vec<u8>),
}

/// What is said of a source. It is refused with an empty line where the bytes are no source.
pub fn tell(alloc: Global, source: &[u8]) -> Result<Told, NoMemory> {
    if source.len() > u32::MAX as usize {
        return Ok(Told::Refused(Vec::new(alloc)));
    }
    let Ok(program) = parse(alloc, source) else {
        return Ok(Told::Refused(Vec::new(alloc)));
    };
    told_of(alloc, build_project(alloc, &program))
}

// What is said where a project is built or not.
fn told_of(alloc: Global, built: Result<Project, ProjectError>) -> Result<Told, NoMemory> {
    match built {
        Ok(project) => Ok(Told::Project(project)),
        Err(error) => Ok(Told::Refused(error.line(alloc)?)),
    }
}
