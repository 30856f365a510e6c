//! The program: standard input and output, one line on standard error, and the exit status.
#![tactic(auto)]

use plx_cli::{Status, run};
use plx_port::{ReadSource, WriteSink};
use std::io::{BufReader, ErrorKind};
use std::process::ExitCode;
use std::{env, io};

/// How many bytes of standard input are taken at a time.
const BUFFER: usize = 64 * 1024;

fn main(rt: HostRuntime) -> ExitCode {
    let status = match run_on_streams(&rt) {
        Ok(status) => status,
        // A word that is no text is none that the program knows.
        Err(error) if error.kind() == ErrorKind::InvalidData => Status::Usage,
        Err(_) => Status::NoMemory,
    };
    if let Some(complaint) = complaint(status) {
        let _ = eprintln!(rt; "plx: {complaint}");
    }
    ExitCode::from(status as u8)
}

fn run_on_streams(rt: &HostRuntime) -> io::Result<Status> {
    let words = env::args(rt)?.collect(rt.alloc())?;
    let reader = BufReader::with_capacity(rt.alloc(), BUFFER, rt.stdin())?;
    let mut source = ReadSource::new(reader);
    let mut sink = WriteSink::new(rt.stdout());
    Ok(run(rt.alloc(), &words, &mut source, &mut sink))
}

// What a person is told, where anything was wrong.
fn complaint(status: Status) -> Option<&'static str> {
    match status {
        Status::Done => None,
        Status::Usage => Some("usage: plx replay <SCHEDULE >TRACE"),
        Status::BadLine => Some(
            "the input has a line that isn't in the grammar of a schedule; the output has its number",
        ),
        Status::SourceFault => Some("the input could not be read"),
        Status::SinkFault => Some("the output could not be written"),
        Status::NoMemory => Some("memory ran out"),
        Status::TooLong => Some("the input has more than 67,108,864 bytes"),
    }
}
