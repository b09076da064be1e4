//! A run of the program, over any files and streams.
ghost use Rattle.std.specs.Prelude.{◌≡◌, ◌<◌, ◌≤◌, ◌⊎◌, ℕ, List, Option, Some, Err, codes, IfOk, IfErr, IfSome, OnOk, OnErr, MatchResult};
ghost use Rattle.std.specs.Io.KnownBytes.{Appends, Keeps};
ghost use Rattle.devices.specs.Device.{count_after};
ghost use Rattle.clap.specs.Walk.{texts};
ghost use Rattle.clap.specs.Words.{IsAmong, fault_of, kind_of};
ghost use Rattle.arguments.specs.Command.{Request, AsksFor, program_app, audit as audit_of, make as make_of, dead as dead_of, request_of};
ghost use Rattle.report.specs.ErrorWords.{error_line};
ghost use Rattle.report.specs.declared.fault.DeadError.{DeadError as Error};
ghost use Rattle.program.specs.Program.{AreKnown, CountsOutput, HasError, IsDueError, KeepsUnlessFailed, Prints, SaysUnlessFailed};

use crate::laws::errors_print_nothing;
use crate::words::print_line;
use arguments::{Command, parse};
use clap::error::ErrorKind;
use devices::{Sink, Source, write_whole};
use report::{AuditError, DeadError, Which, audit, dead_map, make_answers};
use std::alloc::Global;
use std::io;

/// Opens files by their names.
pub trait Opener {
    type File: Source + Drop;

    /// The bytes of the file with a name, if they are known.
    ghost known: { Self → List ℕ → Option (List ℕ) };

    /// Returns the file, or None if it can't be opened. Opening changes no file.
    fn open(&mut self, name: &str) -> Option<Self::File>
        ensures same { known self.new ≡ known self.old }
        ensures bytes { (bytes : List ℕ) → known self.old name.now ≡ Some bytes
            → IfSome result (λ file. Self.File.left file ≡ Some bytes) };
}

/// Runs the program on its words, its name first, and returns its exit status: 0 if a report finds every level
/// solved or unsolvable, or if made answers, a map, help or the version are printed; 1 if a report finds a level
/// refused or missing; otherwise 2.
pub fn run<'a, F: Opener, O: Sink, E: Sink>(
    alloc: Global,
    words: &'a [&'a str],
    files: &mut F,
    output: &mut O,
    faults: &mut E,
) -> u8
    // If words ask for a request and the status is below 2, the whole text that they ask for is printed, and nothing else.
    ensures printed { (request : Request) → AsksFor (texts words.entry.now) request → AreKnown (F.known files.old) request → result < 2
        → (text : List ℕ) × Appends (O.held output.old) (O.held output.new) text × Prints (F.known files.old) request text result }
    ensures status { result ≤ 2 }
    // With words that ask for nothing, a status below 2 comes only with a call for help or for the version.
    ensures help { result < 2 → ((request : Request) × AsksFor (texts words.entry.now) request)
        ⊎ (IsAmong ErrorKind.DisplayHelp (fault_of program_app (texts words.entry.now)) ⊎ IsAmong ErrorKind.DisplayVersion (fault_of program_app (texts words.entry.now))) }
    // A status of 1 comes only with a request.
    ensures one { result ≡ 1 → (request : Request) × AsksFor (texts words.entry.now) request }
    ensures sound { result < 2 → O.failures output.new ≡ O.failures output.old }
    // With a status below 2, standard error gets nothing.
    ensures quiet { result < 2 → faults.new ≡ faults.old }
    // If a request ends with status 2, its error comes at its place in the order of work, and is `cannot write` exactly if the output failed.
    // Standard error gets the line of this error, unless it fails itself.
    ensures said { result ≡ 2 → (request : Request) → AsksFor (texts words.entry.now) request
        → (error : Error) × IsDueError (F.known files.old) request error
        × CountsOutput (O.failures output.old) (O.failures output.new) error
        × SaysUnlessFailed (error_line error) (E.held faults.old, E.failures faults.old) (E.held faults.new, E.failures faults.new) }
    // If the status is 2, nothing is printed, except what an output took before it failed.
    ensures kept { result ≡ 2 → KeepsUnlessFailed (O.held output.old, O.failures output.old) (O.held output.new, O.failures output.new) }
    // If the texts of a request have an error, the status is 2.
    ensures two { (request : Request) → AsksFor (texts words.entry.now) request → HasError (F.known files.old) request → result ≡ 2 }
{
    // For the proof of `two`.
    errors_print_nothing();
    match parse(alloc, words) {
        Ok(command) => status_of(carry_out(alloc, command, files, output), faults),
        Err(refusal) => status_of(answer(alloc, &refusal, output, faults), faults),
    }
}

/// Prints why the system can't hand over the words, and returns the status 2.
pub fn refuse<E: Sink>(error: &io::Error, faults: &mut E) -> u8
    ensures status { result ≡ 2 }
    ensures said { SaysUnlessFailed (codes "out of memory\n") (E.held faults.old, E.failures faults.old) (E.held faults.new, E.failures faults.new)
        ⊎ SaysUnlessFailed (codes "words not in UTF-8\n") (E.held faults.old, E.failures faults.old) (E.held faults.new, E.failures faults.new) }
{
    let fault = match error.kind() {
        io::ErrorKind::OutOfMemory => "out of memory",
        _ => "words not in UTF-8",
    };
    print_line(faults, fault);
    2
}

/// Carries out a command, and returns its status.
fn carry_out<F: Opener, O: Sink>(
    alloc: Global,
    command: Command<'_>,
    files: &mut F,
    output: &mut O,
) -> Result<u8, DeadError>
    ensures printed { AreKnown (F.known files.old) (request_of command.entry)
        → IfOk result (λ status. (text : List ℕ) × Appends (O.held output.old) (O.held output.new) text
        × Prints (F.known files.old) (request_of command.entry) text status) }
    ensures due { IfErr result (λ error. IsDueError (F.known files.old) (request_of command.entry) error) }
    ensures kept { OnErr result (KeepsUnlessFailed (O.held output.old, O.failures output.old) (O.held output.new, O.failures output.new)) }
    ensures status { IfOk result (λ status. status ≤ 1) }
    ensures sound { OnOk result (O.failures output.new ≡ O.failures output.old) }
    ensures cause { IfErr result (CountsOutput (O.failures output.old) (O.failures output.new)) }
{
    match command {
        Command::Audit { levels, answers } => audit_files(alloc, levels, answers, files, output),
        Command::Make { levels } => make_file(alloc, levels, files, output),
        Command::Dead { levels, n } => dead_file(alloc, levels, n, files, output),
    }
}

/// Returns the status of an outcome, and prints the words of its error if it is one.
fn status_of<E: Sink>(outcome: Result<u8, DeadError>, faults: &mut E) -> u8
    ensures value { MatchResult outcome (λ status. result ≡ status) (λ error. result ≡ 2) }
    ensures quiet { OnOk outcome (faults.new ≡ faults.old) }
    ensures said { IfErr outcome (λ error. SaysUnlessFailed (error_line error) (E.held faults.old, E.failures faults.old) (E.held faults.new, E.failures faults.new)) }
{
    match outcome {
        Ok(status) => status,
        Err(error) => {
            print_line(faults, error.words().as_str());
            2
        }
    }
}

fn audit_files<F: Opener, O: Sink>(
    alloc: Global,
    levels: &str,
    answers: &str,
    files: &mut F,
    output: &mut O,
) -> Result<u8, DeadError>
    ensures printed { AreKnown (F.known files.old) (audit_of levels.now answers.now)
        → IfOk result (λ status. (text : List ℕ) × Appends (O.held output.old) (O.held output.new) text
        × Prints (F.known files.old) (audit_of levels.now answers.now) text status) }
    ensures due { IfErr result (λ error. IsDueError (F.known files.old) (audit_of levels.now answers.now) error) }
    ensures kept { OnErr result (KeepsUnlessFailed (O.held output.old, O.failures output.old) (O.held output.new, O.failures output.new)) }
    ensures status { IfOk result (λ status. status ≤ 1) }
    ensures sound { OnOk result (O.failures output.new ≡ O.failures output.old) }
    ensures cause { IfErr result (CountsOutput (O.failures output.old) (O.failures output.new)) }
{
    let mut levels = open(files, levels, Which::Levels)?;
    let mut answers = open(files, answers, Which::Answers)?;
    let summary = match audit(alloc, &mut levels, &mut answers, output) {
        Ok(summary) => summary,
        Err(error) => return Err(DeadError::Audit(error)),
    };
    flush(output)?;
    Ok(summary.exit_status())
}

fn make_file<F: Opener, O: Sink>(
    alloc: Global,
    levels: &str,
    files: &mut F,
    output: &mut O,
) -> Result<u8, DeadError>
    ensures printed { AreKnown (F.known files.old) (make_of levels.now)
        → IfOk result (λ status. (text : List ℕ) × Appends (O.held output.old) (O.held output.new) text
        × Prints (F.known files.old) (make_of levels.now) text status) }
    ensures due { IfErr result (λ error. IsDueError (F.known files.old) (make_of levels.now) error) }
    ensures kept { OnErr result (KeepsUnlessFailed (O.held output.old, O.failures output.old) (O.held output.new, O.failures output.new)) }
    ensures status { IfOk result (λ status. status ≤ 1) }
    ensures sound { OnOk result (O.failures output.new ≡ O.failures output.old) }
    ensures cause { IfErr result (CountsOutput (O.failures output.old) (O.failures output.new)) }
{
    let mut levels = open(files, levels, Which::Levels)?;
    match make_answers(alloc, &mut levels, output) {
        Ok(_) => {}
        Err(error) => return Err(DeadError::Audit(error)),
    }
    flush(output)?;
    Ok(0)
}

fn dead_file<F: Opener, O: Sink>(
    alloc: Global,
    levels: &str,
    n: usize,
    files: &mut F,
    output: &mut O,
) -> Result<u8, DeadError>
    ensures printed { AreKnown (F.known files.old) (dead_of levels.now n)
        → IfOk result (λ status. (text : List ℕ) × Appends (O.held output.old) (O.held output.new) text
        × Prints (F.known files.old) (dead_of levels.now n) text status) }
    ensures due { IfErr result (λ error. IsDueError (F.known files.old) (dead_of levels.now n) error) }
    ensures kept { OnErr result (KeepsUnlessFailed (O.held output.old, O.failures output.old) (O.held output.new, O.failures output.new)) }
    ensures status { IfOk result (λ status. status ≤ 1) }
    ensures sound { OnOk result (O.failures output.new ≡ O.failures output.old) }
    ensures cause { IfErr result (CountsOutput (O.failures output.old) (O.failures output.new)) }
{
    let mut levels = open(files, levels, Which::Levels)?;
    dead_map(alloc, &mut levels, n, output)?;
    flush(output)?;
    Ok(0)
}

/// Prints what clap says of words that ask for no command: help and the version go to the output, anything else to
/// `faults`.
fn answer<O: Sink, E: Sink>(
    alloc: Global,
    refusal: &clap::Error,
    output: &mut O,
    faults: &mut E,
) -> Result<u8, DeadError>
    ensures memory { kind_of refusal.now ≡ ErrorKind.OutOfMemory → result ≡ Err (DeadError.Audit AuditError.Memory) }
    ensures status { IfOk result (λ status. (status ≡ 0) ⊎ (status ≡ 2)) }
    ensures shown { IfOk result (λ status. status < 2 → (kind_of refusal.now ≡ ErrorKind.DisplayHelp) ⊎ (kind_of refusal.now ≡ ErrorKind.DisplayVersion)) }
    ensures sound { OnOk result (O.failures output.new ≡ O.failures output.old) }
    ensures cause { IfErr result (CountsOutput (O.failures output.old) (O.failures output.new)) }
    ensures quiet { MatchResult result (λ status. status < 2 → faults.new ≡ faults.old) (λ _. faults.new ≡ faults.old) }
    ensures kept { MatchResult result (λ status. status ≡ 2) (λ _. Unit {0})
        → KeepsUnlessFailed (O.held output.old, O.failures output.old) (O.held output.new, O.failures output.new) }
{
    if refusal.kind() == ErrorKind::OutOfMemory {
        return Err(DeadError::Audit(AuditError::Memory));
    }
    let Ok(text) = format!(in alloc; "{refusal}") else {
        return Err(DeadError::Audit(AuditError::Memory));
    };
    if refusal.use_stderr() {
        let _ = write_whole(faults, text.as_bytes());
        return Ok(2);
    }
    match write_whole(output, text.as_bytes()) {
        Ok(()) => {
            flush(output)?;
            Ok(0)
        }
        Err(_) => Err(DeadError::Audit(AuditError::Write)),
    }
}

fn open<F: Opener>(files: &mut F, name: &str, which: Which) -> Result<F::File, DeadError>
    ensures same { F.known files.new ≡ F.known files.old }
    ensures bytes { (bytes : List ℕ) → F.known files.old name.now ≡ Some bytes → IfOk result (λ file. F.File.left file ≡ Some bytes) }
    ensures err { IfErr result (λ error. error ≡ DeadError.Audit (AuditError.Read which)) }
{
    match files.open(name) {
        Some(file) => Ok(file),
        None => Err(DeadError::Audit(AuditError::Read { which })),
    }
}

fn flush<O: Sink>(output: &mut O) -> Result<(), DeadError>
    ensures same { Keeps (O.held output.old) (O.held output.new) }
    ensures sound { OnOk result (O.failures output.new ≡ O.failures output.old) }
    ensures err { IfErr result (λ error. (error ≡ DeadError.Audit AuditError.Write) × (O.failures output.new ≡ count_after (O.failures output.old))) }
{
    match output.flush() {
        Ok(()) => Ok(()),
        Err(_) => Err(DeadError::Audit(AuditError::Write)),
    }
}
