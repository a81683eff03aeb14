// The words on the command line.
use std::{env, io};

#[derive(Default, Drop)]
pub(crate) struct Options {
    pub(crate) quiet: bool,
    pub(crate) help: bool,
    pub(crate) out: Option<String>,
    pub(crate) file: Option<String>,
}

// `--quiet`, `--help`, `--out DIR`, and the name of a file.
pub(crate) fn read_options(rt: &HostRuntime) -> io::Result<Options> {
    let mut found = Options::default();
    let mut words = env::args(rt)?;
    let _program = words.next();
    while let Some(word) = words.next() {
        match word.as_str() {
            "--quiet" => found.quiet = true,
            "--help" => found.help = true,
            "--out" => found.out = words.next().or(found.out),
            _ => found.file = Some(word),
        }
    }
    Ok(found)
}
