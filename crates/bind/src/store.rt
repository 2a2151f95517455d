// The log's file, whole or as it was: the bytes go to a file beside it, which then takes its name.
use std::fs::File;
use std::io::{Error, ErrorKind, Result, Write};
use std::rt::Clock;
use std::{fs, process};

// How many bytes a path may have on Linux, with a zero byte behind it: the system takes none that is longer.
const PATH_MAX: usize = 4096;

// No path has more bytes: the system takes none with PATH_MAX, and the file beside it has some more.
const NAME: usize = PATH_MAX + binding::LONGEST;

// Gives the log these bytes. Where that cannot be done, it is as it was, and no file is left beside it. A name that is no
// UTF-8 text is none that the library takes.
pub(crate) fn replace(rt: HostRuntime, log: &[u8], bytes: &[u8]) -> Result<()> {
    if PATH_MAX <= log.len() {
        return Err(Error::from(ErrorKind::InvalidInput));
    }
    let mut name = [0u8; NAME];
    let id = u64::from(process::id(rt.process()));
    let n = binding::beside(&mut name, log, id, seconds(rt));
    match (str::from_utf8(&name[..n]), str::from_utf8(log)) {
        (Ok(beside), Ok(log)) => renamed(rt, beside, log, bytes),
        _ => Err(Error::from(ErrorKind::InvalidInput)),
    }
}

// The seconds since 1970; 0 where the clock does not tell them.
fn seconds(rt: HostRuntime) -> u64 {
    rt.since_1970().map_or(0, |t| t.as_secs())
}

// Writes the bytes to a new file, which then takes the log's name. What fails removes the file.
fn renamed(rt: HostRuntime, beside: &str, log: &str, bytes: &[u8]) -> Result<()> {
    let file = File::options()
        .write(true)
        .create_new(true)
        .open(&rt, beside)?;
    let kept = keep(file, bytes).and_then(|()| fs::rename(&rt, beside, log));
    if kept.is_err() {
        let _ = fs::remove_file(&rt, beside);
    }
    kept
}

// Writes the bytes, waits until they are on the device, and closes the file.
fn keep(mut file: File, bytes: &[u8]) -> Result<()> {
    file.write_all(bytes)?;
    file.sync_all()
}
