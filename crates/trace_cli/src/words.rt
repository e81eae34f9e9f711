ghost use Rattle.std.specs.Prelude.{◌≡◌, IfOk};
ghost use Rattle.trace_cli.specs.Request.{IsRequest};

use clap::error::ErrorKind;
use clap::{Arg, ArgAction, ArgMatches, Command};
use std::alloc::{AllocError, Global};
use std::convert::AsStr;

/// What the words of a command line ask for.
#[derive(Clone, Copy)]
pub enum Request {
    /// `seq`: run the image in order.
    Seq,
    /// `run --cores N [--trace]`: run the image on so many cores, 1 to 16, and print its trace if it is asked for.
    Run { cores: u32, trace: bool },
    /// `audit`: replay a trace below its image.
    Audit,
}

/// Why words ask for nothing.
#[derive(Clone, Copy)]
pub enum WordsFault {
    /// They are no command of this program. A demand for help is none.
    Usage,
    /// Memory ran out.
    NoMemory,
}

impl From<AllocError> for WordsFault {
    ghost use Rattle.std.specs.Prelude.{◌≡◌};
    ghost use Rattle.trace_cli.specs.declared.words.WordsFault.TheVariants as fault;

    ghost from_gives = { λ _ given. given ≡ fault.NoMemory };

    fn from(_: AllocError) -> WordsFault {
        WordsFault::NoMemory
    }
}

/// What these words ask for; the first is the program's name.
pub fn request_of<'a, S: AsStr>(alloc: Global, words: &'a [S]) -> Result<Request, WordsFault>
    ensures { IfOk result IsRequest }
{
    match command(alloc)?.try_get_matches_from(words) {
        Ok(matches) => requested(&matches),
        Err(error) if error.kind() == ErrorKind::OutOfMemory => Err(WordsFault::NoMemory),
        Err(_) => Err(WordsFault::Usage),
    }
}

/// What a command line that was understood asks for.
fn requested(matches: &ArgMatches<'_>) -> Result<Request, WordsFault>
    ensures { IfOk result IsRequest }
{
    let Some((name, found)) = matches.subcommand() else {
        return Err(WordsFault::Usage);
    };
    match name {
        "seq" => Ok(Request::Seq),
        "run" => run_requested(found.get_one::<u32>("cores"), found.get_flag("trace")),
        "audit" => Ok(Request::Audit),
        _ => Err(WordsFault::Usage),
    }
}

/// A run on so many cores, if these are 1 to 16.
fn run_requested(cores: Option<u32>, trace: bool) -> Result<Request, WordsFault>
    ensures { IfOk result IsRequest }
{
    match cores {
        Some(cores) if 1 <= cores && cores <= 16 => Ok(Request::Run { cores, trace }),
        _ => Err(WordsFault::Usage),
    }
}

/// The command line of the program.
fn command<'a>(alloc: Global) -> Result<Command<'a>, AllocError> {
    Command::new(alloc, "trace_cli")
        .subcommand(Command::new(alloc, "seq"))?
        .subcommand(run_subcommand(alloc)?)?
        .subcommand(Command::new(alloc, "audit"))
}

/// `run --cores N [--trace]`.
fn run_subcommand<'a>(alloc: Global) -> Result<Command<'a>, AllocError> {
    Command::new(alloc, "run")
        .arg(cores_option(alloc))?
        .arg(trace_flag(alloc))
}

/// `--cores N`, which `run` needs.
fn cores_option<'a>(alloc: Global) -> Arg<'a> {
    Arg::new(alloc, "cores")
        .long("cores")
        .required(true)
        .action(ArgAction::Set)
        .value_parser(clap::value_parser!(u32))
}

/// `--trace`, with which `run` prints the trace.
fn trace_flag<'a>(alloc: Global) -> Arg<'a> {
    Arg::new(alloc, "trace")
        .long("trace")
        .action(ArgAction::SetTrue)
}
