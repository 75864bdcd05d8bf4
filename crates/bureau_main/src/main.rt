//! The program: a run over the system's own words, files, ports and streams.
#![tactic(auto)]

mod database;
mod log_writer;
mod place;
mod run;
mod stores;
mod system;

use run::run;
use sqlite::Wary;
use std::process::ExitCode;
use stores::StoreFiles;
use system::System;

fn main(rt: HostRuntime) -> ExitCode {
    let (mut input, mut output, mut errors) = (rt.stdin(), rt.stdout(), rt.stderr());
    let (mut system, mut stores, alloc) = (System::new(&rt), StoreFiles::new(&rt), rt.alloc());
    let (status, ended) = run(
        &mut system,
        &mut stores,
        alloc,
        Wary,
        &mut input,
        &mut output,
        &mut errors,
    );
    drop(ended);
    ExitCode::from(status)
}
