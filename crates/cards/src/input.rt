// The input as bytes.
use std::io::Read;
use std::{fs, io};

// All bytes of the file, or of standard input where none is named.
pub(crate) fn all_bytes(rt: &HostRuntime, file: &Option<String>) -> io::Result<Vec<u8>> {
    match file {
        Some(name) => fs::read(rt, name.as_str()),
        None => {
            let mut bytes = Vec::new(rt.alloc());
            rt.stdin().read_to_end(&mut bytes)?;
            Ok(bytes)
        }
    }
}

// The bytes of a file; none where its name is no text or it cannot be read.
pub(crate) fn file_bytes(rt: &HostRuntime, name: &[u8]) -> Option<Vec<u8>> {
    fs::read(rt, std::str::from_utf8(name).ok()?).ok()
}
