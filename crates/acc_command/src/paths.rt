//! The scripts that paths of the command line lead to.

use crate::endings::Mishap;
use acc_base::Fault;
use acc_trials::{FileFault, FileStore};
use std::alloc::Global;
use std::collections::VecDeque;

/// The scripts of paths, by rising names and each once: files, and what ends with `.acc` in folders and below them.
///
/// # Errors
///
/// A path that has no script; [`Fault::Memory`].
pub fn scripts_of<'a, D: FileStore>(
    alloc: Global,
    paths: &[&'a str],
    files: &D,
) -> Result<Vec<String>, Mishap<'a>> {
    let mut scripts = Vec::new(alloc);
    for path in paths {
        let before = scripts.len();
        find_scripts(&mut scripts, alloc, *path, files)?;
        if scripts.len() == before {
            return Err(Mishap::Unread(*path, "it has no script"));
        }
    }
    scripts.sort_unstable();
    scripts.dedup();
    Ok(scripts)
}

fn find_scripts<D: FileStore>(
    scripts: &mut Vec<String>,
    alloc: Global,
    path: &str,
    files: &D,
) -> Result<(), Fault> {
    let mut pending = VecDeque::new(alloc);
    pending.push_back(String::from_str(alloc, path)?)?;
    for number in 0..u64::MAX {
        let Some(name) = pending.pop_front() else {
            break;
        };
        visit(scripts, &mut pending, name, number == 0, files)?;
    }
    Ok(())
}

/// Takes what is in a folder as pending, and a script as found. What cannot be read is found too, and fails as a test.
fn visit<D: FileStore>(
    scripts: &mut Vec<String>,
    pending: &mut VecDeque<String>,
    name: String,
    is_named: bool,
    files: &D,
) -> Result<(), Fault> {
    match files.list(name.as_str()) {
        Ok(Some(names)) => pending.extend(names)?,
        Ok(None) if !is_named && !name.as_str().ends_with(".acc") => {}
        Err(FileFault::Memory) => return Err(Fault::Memory),
        _ => scripts.push(name)?,
    }
    Ok(())
}
