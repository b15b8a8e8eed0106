// How a program from standard input to standard output ends: its status, and what it says before.
ghost use Rattle.std.specs.Prelude.{◌≡◌, ◌≢◌, Ok, Err};
ghost use Rattle.std.specs.IoError.{error_kind};
ghost use Rattle.std.specs.Process.{exit_status};

use std::error::Error;
use std::fmt;
use std::io::{self, ErrorKind};
use std::process::ExitCode;

// The status of a program whose output is closed early, as a shell has it for the signal SIGPIPE.
const OUTPUT_CLOSED: u8 = 141;

// Why a program stopped before the end of its input.
#[derive(Debug, Drop)]
pub enum Stopped {
    NotRead(io::Error),
    NotWritten(io::Error),
}

impl fmt::Display for Stopped {
    fn fmt<W: fmt::Write>(&self, f: &mut fmt::Formatter<W>) -> fmt::Result {
        match self {
            Stopped::NotRead(_) => write!(f, "standard input cannot be read"),
            Stopped::NotWritten(_) => write!(f, "standard output cannot be written"),
        }
    }
}

impl Error for Stopped {}

// The status of a program that ran to the end of its input, or stopped. It says on standard error why it
// stopped, unless its output was closed.
pub fn exit_code(rt: &impl Eprint, program: &str, ran: Result<(), Stopped>) -> ExitCode
    ensures done { ran ≡ Ok tt → exit_status result ≡ 0 }
    ensures not_read { (e : _) → ran ≡ Err (Stopped.NotRead e) → exit_status result ≡ 1 }
    ensures closed { (e : _) → ran ≡ Err (Stopped.NotWritten e) → error_kind e ≡ ErrorKind.BrokenPipe → exit_status result ≡ 141 }
    ensures not_written { (e : _) → ran ≡ Err (Stopped.NotWritten e) → error_kind e ≢ ErrorKind.BrokenPipe → exit_status result ≡ 1 }
{
    let Err(stopped) = ran else {
        return ExitCode::SUCCESS;
    };
    if let Stopped::NotWritten(error) = &stopped
        && error.kind() == ErrorKind::BrokenPipe
    {
        return ExitCode::from(OUTPUT_CLOSED);
    }
    // A failure to say so changes nothing.
    let _ = eprintln!(rt; "{program}: {stopped}");
    ExitCode::FAILURE
}
