//! The program `deltaj`: the words after its name are a command over a file of the system.
#![tactic(auto)]

#[cfg(test)]
mod check_tests;
#[cfg(test)]
mod java_tests;
#[cfg(test)]
mod refutations;
#[cfg(test)]
mod tests;
#[cfg(test)]
mod variant_tests;

use dj_run::{Status, run};
use dj_system::{Output, SystemFiles};
use std::io::ErrorKind;
use std::process::ExitCode;
use std::{env, io};

fn main(rt: HostRuntime) -> ExitCode {
    let status = match words(&rt) {
        Ok(words) => {
            let mut files = SystemFiles::new(&rt);
            let mut out = Output::new(io::writer(&rt));
            run(rt.alloc(), &words, &mut files, &mut out)
        }
        Err(error) if error.kind() == ErrorKind::OutOfMemory => Status::NO_MEMORY,
        Err(_) => Status::WORDS_UNREADABLE,
    };
    ExitCode::from(status.0)
}

/// The words after the program's name.
fn words(rt: &HostRuntime) -> io::Result<Vec<String>> {
    let words = env::args(rt)?;
    Ok(words.skip(1).collect(rt.alloc())?)
}
