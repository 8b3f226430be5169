//! Files of a test.

use std::alloc::AllocGlobal;
use std::{env, fs, io, process};

/// A path of this process alone.
pub fn path_of(rt: &HostRuntime, name: &str) -> io::Result<String> {
    let number = process::id(rt.process());
    let mut path = env::temp_dir(rt)?;
    path.push(format!(in rt.alloc(); "kenyodla-{number}-{name}")?.as_str())?;
    Ok(String::from_str(rt.alloc(), path.as_str())?)
}

/// Writes a file of this name, and answers its path.
pub fn write(rt: &HostRuntime, name: &str, text: &str) -> io::Result<String> {
    let path = path_of(rt, name)?;
    fs::write(rt, path.as_str(), text)?;
    Ok(path)
}

/// Writes settings beside a file, with its path at a key, and answers their path.
pub fn write_settings(
    rt: &HostRuntime,
    key: &str,
    path: &str,
    settings: &str,
) -> io::Result<String> {
    let settings_path = format!(in rt.alloc(); "{path}.toml")?;
    let text = format!(in rt.alloc(); "{key} = \"{path}\"\n{settings}")?;
    fs::write(rt, settings_path.as_str(), text.as_str())?;
    Ok(settings_path)
}

/// Takes a file away.
pub fn remove(rt: &HostRuntime, path: &str) -> io::Result<()> {
    fs::remove_file(rt, path)
}
