//! The program: one call.
#![tactic(auto)]

ghost use Rattle.std.specs.Prelude.{◌≡◌, IfOk, vec_len};
ghost use Rattle.tau_commands.specs.declared.disks.TheConstants.{DISKS};

use std::alloc::{AllocError, Global};
use std::fs::File;
use std::io::ErrorKind;
use std::process::ExitCode;
use std::rt::Files;
use std::{env, io};
use tau_base::MAX_STREAMS;
use tau_disk::{Quiet, ReadSource, WriteSink};
use tau_engine::{DISKS, taurus};
use tau_file::{HostFile, SystemLocks};

/// The files of the working directory, one for each stream that there may be, and then those of the two slots for
/// checkpoints, each made as it is first used, and locked.
fn host_files<R: Files<File = File> + Clone + Drop>(
    rt: &R,
    alloc: Global,
) -> Result<Vec<HostFile<R, SystemLocks>>, AllocError>
    ensures { IfOk result (λ v. vec_len v ≡ DISKS) }
{
    let mut files = Vec::new(alloc);
    for j in 0..DISKS {
        let file = if j < MAX_STREAMS {
            HostFile::of_stream(rt.clone()?, alloc, j as u8)
        } else {
            HostFile::of_checkpoint(rt.clone()?, alloc, (j - MAX_STREAMS) as u8)
        };
        files.push(file.locked(SystemLocks))?;
    }
    Ok(files)
}

/// The words after the program's name. If one of all is no text, none: no words are no command.
fn words(rt: &HostRuntime, alloc: Global) -> Result<Vec<String>, AllocError> {
    match env::args(rt) {
        Ok(args) => args.skip(1).collect(alloc),
        Err(error) if error.kind() == ErrorKind::OutOfMemory => Err(AllocError),
        Err(_) => Ok(Vec::new(alloc)),
    }
}

fn main(rt: HostRuntime) -> ExitCode {
    let alloc = rt.alloc();
    let Ok(words) = words(&rt, alloc) else {
        return ExitCode::from(1);
    };
    let Ok(mut disks) = host_files(&rt, alloc) else {
        return ExitCode::from(1);
    };
    let mut source = ReadSource::new(rt.reader());
    let mut sink = WriteSink::new(io::writer(&rt));
    let status = taurus(
        &rt,
        alloc,
        words.as_slice(),
        &mut source,
        &mut sink,
        &mut disks,
        &Quiet,
    );
    ExitCode::from(status.code())
}
