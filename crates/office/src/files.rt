// Files, read whole.
use anyhow::{anyhow, bail};
use std::fs::File;
use std::io::{self, Read};

// The most bytes that are read of a file: a timetable has at most 200 thousand.
const MOST_BYTES: usize = 16 * 1024 * 1024;

fn unread(file: &str, error: io::Error) -> anyhow::Error {
    anyhow!("{file}: {error}")
}

// The file's bytes. A longer file is an error, and not cut.
pub fn read(rt: &HostRuntime, file: &str) -> anyhow::Result<Vec<u8>> {
    let mut bytes = Vec::new(rt.alloc());
    File::open(rt, file)
        .map_err(|error| unread(file, error))?
        .take(MOST_BYTES as u64 + 1)
        .read_to_end(&mut bytes)
        .map_err(|error| unread(file, error))?;
    if bytes.len() > MOST_BYTES {
        bail!("{file}: longer than 16 MiB, the most that is read");
    }
    Ok(bytes)
}
