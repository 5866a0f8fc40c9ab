//! The program: `run` over one file or a mirror of two, standard input and standard output.
#![tactic(auto)]

use bd_calls::run;
use bd_filedev::FileDevice;
use bd_io::{StdSink, StdSource};
use bd_mirror::Mirror;
use std::env;
use std::io::{self, ErrorKind};
use std::process::ExitCode;

/// The status where there is no memory to begin.
const NO_MEMORY: u8 = 6;

fn main(rt: HostRuntime) -> ExitCode {
    ExitCode::from(status(&rt).unwrap_or(NO_MEMORY))
}

/// Runs the program over files, standard input and standard output, and gives its status. Its
/// device is a mirror of two files, of which an IMAGE `X+Y` names both, `X+` the first one as a
/// member, and any other name the first one alone.
fn status(rt: &HostRuntime) -> io::Result<u8> {
    let words = called_with(rt)?;
    let mut dev = Mirror::new(FileDevice::new(rt), FileDevice::new(rt));
    let mut src = StdSource::new(rt.reader());
    let mut sink = StdSink::new(rt.alloc(), io::writer(rt))?;
    Ok(run(rt.alloc(), &words, &mut dev, &mut src, &mut sink).status)
}

/// The words that the program is called with. Where one of them isn't UTF-8 there are none, which
/// are refused too.
fn called_with(rt: &HostRuntime) -> io::Result<Vec<String>> {
    let mut words = Vec::new(rt.alloc());
    match env::args(rt) {
        Ok(args) => {
            for word in args {
                words.push(word)?;
            }
        }
        Err(error) if error.kind() == ErrorKind::InvalidData => {}
        Err(error) => return Err(error),
    }
    Ok(words)
}
