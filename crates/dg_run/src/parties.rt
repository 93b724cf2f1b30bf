//! Parties: scripts that are played side by side, and what is printed of them.
ghost use Rattle.std.specs.Prelude.{◌≡◌, ◌⊎◌, ℕ, List, [], length, map, true, IfOk, IfErr, OnOk};
ghost use Rattle.std.specs.Io.KnownBytes.{Appends, Keeps};
ghost use Rattle.dg_system.specs.Held.{Held};
ghost use Rattle.dg_table.specs.Opened.{IsSeatCount};
ghost use Rattle.dg_run.specs.Status.{IsTaskFault};
ghost use Rattle.dg_run.specs.Parties.{early, AreFilesHeld, PlaysParty, script_names, RefusesPartyFiles, IsPrintedWith, EndsSome, IsWanting, RefusesParty};
ghost use Rattle.dg_run.specs.Streams.{IsInputFault, IsOutputFault};

use crate::fault::Fault;
use dg_file::{TableFile, read_table};
use dg_invocation::PartyTask;
use dg_rank::OpenGate;
use dg_rules::MAX_SEATS;
use dg_session::{PartyOutcome, PartyRefusal, SessionEnd, party};
use dg_system::{Output, Shortage, Sources, read_all};
use dg_tasks::TaskFault;
use std::alloc::{AllocError, Global};
use std::io::Write;
use std::rt::Files;
use std::sync::Wait;
use std::thread::Threads;

/// Plays the scripts that are named on the table of the file that is named, and prints the history and the totals.
pub(crate) fn run_party<R, S, O>(
    rt: &R,
    task: &PartyTask<'_>,
    sources: &S,
    output: &mut Output<O>,
) -> Result<(), Fault>
where
    R: Files + AllocGlobal + Threads + Wait + Sync,
    S: Sources,
    O: Write,
    ensures done { OnOk result
        (PlaysParty (S.held sources.now) task.now output.old.contents output.new.contents) }
    ensures refused { IfErr result
        (λ fault. RefusesParty (S.held sources.now) task.now fault output.old.contents
        output.new.contents) }
    ensures read { IfErr result (λ fault. ¬ IsInputFault fault) }
    ensures write { IfErr result (λ fault. IsOutputFault fault → output.new.has_failed ≡ true) }
{
    if task.scripts.len() > usize::from(MAX_SEATS) {
        return Err(Fault::Seats);
    }
    let (table, scripts) = match read_files(rt, task, sources) {
        Ok(read) => read,
        Err(fault) => return Err(fault),
    };
    play_scripts(rt, task, &table, scripts.as_slice(), output)
}

/// Plays the scripts that were read for the task on its table, and prints the history and the totals.
fn play_scripts<R, O>(
    rt: &R,
    task: &PartyTask<'_>,
    table: &TableFile,
    scripts: &[Vec<u8>],
    output: &mut Output<O>,
) -> Result<(), Fault>
where
    R: AllocGlobal + Threads + Wait + Sync,
    O: Write,
    requires { IsSeatCount (length scripts.now) }
    ensures done { OnOk result ((held : List ℕ → Held)
        → AreFilesHeld held task.now table.now.start table.now.names (map (λ script. script.items) scripts.now)
        → PlaysParty held task.now output.old.contents output.new.contents) }
    ensures refused { IfErr result (λ fault. (held : List ℕ → Held)
        → AreFilesHeld held task.now table.now.start table.now.names (map (λ script. script.items) scripts.now)
        → (IsWanting held task.now fault × Keeps output.old.contents output.new.contents)
        ⊎ EndsSome held task.now fault output.old.contents output.new.contents) }
    ensures read { IfErr result (λ fault. ¬ IsInputFault fault) }
    ensures write { IfErr result (λ fault. IsOutputFault fault → output.new.has_failed ≡ true) }
{
    let played = match party(
        rt,
        rt.alloc(),
        task.capacity,
        table.start(),
        table.names(),
        scripts,
        &OpenGate,
    ) {
        Ok(played) => played,
        Err(PartyRefusal::Shortage(shortage)) => return Err(Fault::Shortage(shortage)),
        Err(PartyRefusal::Log) => return Err(Fault::History),
    };
    print_party(rt.alloc(), &played, output)
}

/// The table of the file that is named, and the bytes of the scripts. All files are read before the table's is judged.
fn read_files<R, S>(
    rt: &R,
    task: &PartyTask<'_>,
    sources: &S,
) -> Result<(TableFile, Vec<Vec<u8>>), Fault>
where
    R: Files + AllocGlobal,
    S: Sources,
    ensures read { IfOk result
        (λ r. AreFilesHeld (S.held sources.now) task.now r.0.start r.0.names
        (map (λ script. script.items) r.1.items)) }
    ensures refused { IfErr result
        (IsTaskFault (RefusesPartyFiles (S.held sources.now) task.now.file.now (script_names task.now))) }
{
    let file = match sources.bytes(rt, task.file) {
        Ok(file) => file,
        Err(fault) => return Err(Fault::Task(TaskFault::Source(fault))),
    };
    let scripts = match read_all(rt, task.scripts.as_slice(), sources) {
        Ok(scripts) => scripts,
        Err(fault) => return Err(Fault::Task(TaskFault::Source(fault))),
    };
    match read_table(rt.alloc(), file.as_slice()) {
        Ok(table) => Ok((table, scripts)),
        Err(fault) => Err(Fault::Task(TaskFault::File(fault))),
    }
}

/// Prints what came of a party, and tells of the sessions that ended early.
fn print_party<O: Write>(
    alloc: Global,
    played: &PartyOutcome,
    output: &mut Output<O>,
) -> Result<(), Fault>
    ensures whole { OnOk result ((early 1 played.now.ends.items ≡ []) ×
        Appends output.old.contents output.new.contents played.now.text.items) }
    ensures refused { IfErr result
        (λ fault. IsPrintedWith played.now.ends.items played.now.text.items fault
        output.old.contents output.new.contents) }
    ensures read { IfErr result (λ fault. ¬ IsInputFault fault) }
    ensures write { IfErr result (λ fault. IsOutputFault fault → output.new.has_failed ≡ true) }
{
    let all = match early_ends(alloc, played.ends.as_slice()) {
        Ok(all) => all,
        Err(_) => return Err(Fault::Shortage(Shortage::OutOfMemory)),
    };
    match output.write_whole(played.text.as_slice()) {
        Ok(()) => {}
        Err(_) => return Err(Fault::Write),
    }
    match all.first() {
        Some((_, least)) => {
            let least = *least;
            Err(Fault::Sessions { least, all })
        }
        None => Ok(()),
    }
}

/// The sessions that ended early, each with its seat.
fn early_ends(
    alloc: Global,
    ends: &[Result<u32, SessionEnd>],
) -> Result<Vec<(usize, SessionEnd)>, AllocError>
    ensures { IfOk result (λ all. all.items ≡ early 1 ends.now) }
{
    let mut all = Vec::new(alloc);
    'ends: for (place, end) in ends.iter().enumerate() {
        if let Err(end) = end {
            all.push((place + 1, *end))?;
        }
    }
    Ok(all)
}
