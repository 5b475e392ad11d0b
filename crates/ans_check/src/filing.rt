//! Files that are mended or redrawn in memory, and then written.

ghost use Rattle.std.specs.Prelude.{◌≡◌, ◌≢◌, ◌≤◌, ◌⊎◌, ℕ, Err, IfOk, List, OnErr, Some, length, map, option_map};
ghost use Rattle.std.specs.Prelude.{[], false, nat_le, string_bytes, true};
ghost use Rattle.ans_model.specs.Bytes.{longest_file};
ghost use Rattle.ans_model.specs.Text.Words.{texts_of};
ghost use Rattle.ans_save.specs.Saving.{inputs_of};
ghost use Rattle.ans_save.specs.declared.saves.Saves.{Saves};
ghost use Rattle.ans_write.specs.Puts.{HandsOn, Puts, device_failed, outbox_size, waiting_of};
ghost use Rattle.ans_write.specs.declared.outbox.Outbox.{Outbox};
ghost use Rattle.ans_written.specs.declared.nowhere.Nowhere.{Nowhere};
ghost use Rattle.ans_check.specs.Fates.{AreFiled, AreFiledIn, AreNotFiled, Became, Begins, IsDone, IsGivenByInput};
ghost use Rattle.ans_check.specs.Fates.{IsKept, IsKeptIfDone, IsRedone, IsWritten, SaysFate, all_said, ending_of_files};
ghost use Rattle.ans_check.specs.Fates.{fate_text, given_of, inputs_named, lines_of, memory_text};
ghost use Rattle.ans_check.specs.declared.errors.RunError.TheVariants.{Write};
ghost use Rattle.ans_check.specs.declared.exit_status.Ending.TheVariants.{Run};

use crate::answering::{input_named, put_input_message, put_said};
use crate::errors::RunError;
use crate::exit_status::Ending;
use crate::fates::{Fate, Goal, has_lines, inputs_known, inputs_named, is_done, is_of_memory};
use crate::inputs::Inputs;
use crate::naming::{Naming, called, file_called, unnamed};
use crate::reading::read_all;
use crate::task::Task;
use ans_report::{Tried, WriteFault};
use ans_save::{Disk, Saves, Saving, save};
use ans_table::Unread;
use ans_write::Outbox;
use ans_written::{FileCounts, FileOutcome, Nowhere, put_front, put_named_lines};
use std::alloc::{AllocError, Global};
use std::io::Write;

/// What came of a file in memory.
#[derive(Drop)]
struct Redone {
    /// How the program ends at it.
    ending: Ending,
    /// The new file, if there is one.
    bytes: Vec<u8>,
}

/// Does a task on a file in memory.
fn redo<T: Task>(alloc: Global, task: &T, file: Vec<u8>) -> Result<Redone, AllocError>
    requires { length file.items ≤ longest_file }
    ensures { IfOk result (λ redone. IsDone (T.tells task.now) (T.ending_of task.now) file.items redone.bytes.items
        redone.ending) }
{
    let mut memory = Tried::new(Vec::new(alloc));
    let mut out = Outbox::new(&mut memory);
    let answer = task.put(alloc, &mut out, file)?;
    if let Err(WriteFault) = out.finish() {
        return Err(AllocError);
    }
    Ok(Redone {
        ending: task.ending(&Ok(answer)),
        bytes: memory.into_inner(),
    })
}

/// Writes a new file. If that fails, the reason is its fate.
fn write_new<D: Disk>(
    alloc: Global,
    disk: &mut D,
    saves: &mut Saves,
    saving: Saving<'_>,
    input: Option<&str>,
    bytes: &[u8],
    written: Fate,
) -> Fate
    ensures written { IsWritten D.did D.leads D.sees D.fails D.opens D.identifies saving.entry
        (option_map (λ n. n.now) input.entry) bytes.now written disk.old disk.new saves.old saves.new result }
    ensures inputs { inputs_of saves.new ≡ inputs_of saves.old }
{
    match save(alloc, disk, saves, saving, input, bytes) {
        Ok(()) => written,
        Err(error) => Fate {
            ending: Ending::Unsaved(error),
            outcome: FileOutcome::NotWritten,
        },
    }
}

/// Writes a new file where it is to be, if it is.
fn keep<D: Disk>(
    alloc: Global,
    disk: &mut D,
    saves: &mut Saves,
    goal: Goal<'_>,
    input: Option<&str>,
    changed: bool,
    redone: &Redone,
) -> Fate
    ensures kept { IsKept D.did D.leads D.sees D.fails D.opens D.identifies goal.entry
        (option_map (λ n. n.now) input.entry) changed redone.now.bytes.items redone.now.ending disk.old disk.new
        saves.old saves.new result }
    ensures inputs { inputs_of saves.new ≡ inputs_of saves.old }
{
    let fate = Fate {
        ending: redone.ending,
        outcome: goal.outcome(changed),
    };
    match goal.place(changed) {
        Some(saving) => {
            let bytes = redone.bytes.as_slice();
            write_new(alloc, disk, saves, saving, input, bytes, fate)
        }
        None => fate,
    }
}

/// The same, if there is a new file of the old one.
fn keep_if_done<D: Disk>(
    alloc: Global,
    disk: &mut D,
    saves: &mut Saves,
    goal: Goal<'_>,
    input: Option<&str>,
    file: &[u8],
    redone: &Redone,
) -> Fate
    ensures kept { IsKeptIfDone D.did D.leads D.sees D.fails D.opens D.identifies goal.entry
        (option_map (λ n. n.now) input.entry) file.now redone.now.bytes.items redone.now.ending disk.old disk.new
        saves.old saves.new result }
    ensures inputs { inputs_of saves.new ≡ inputs_of saves.old }
{
    if !is_done(&redone.ending) {
        return Fate {
            ending: redone.ending,
            outcome: FileOutcome::NotDone,
        };
    }
    let changed = redone.bytes.as_slice() != file;
    keep(alloc, disk, saves, goal, input, changed, redone)
}

/// A file in memory and a copy of it.
fn copy(alloc: Global, file: &[u8]) -> Result<Vec<u8>, AllocError>
    ensures { IfOk result (λ copy. copy.items ≡ file.now) }
{
    file.to_vec(alloc)
}

/// Does a task on a file in memory, and writes what comes of it where it is to be.
fn refile<T: Task, D: Disk>(
    alloc: Global,
    disk: &mut D,
    saves: &mut Saves,
    task: &T,
    goal: Goal<'_>,
    input: Option<&str>,
    file: Vec<u8>,
) -> Result<Fate, AllocError>
    requires { length file.items ≤ longest_file }
    ensures redone { IfOk result (IsRedone D.did D.leads D.sees D.fails D.opens D.identifies (T.tells task.now)
        (T.ending_of task.now) goal.entry (option_map (λ n. n.now) input.entry) file.items disk.old disk.new
        saves.old saves.new) }
    ensures untouched { OnErr result ((disk.new ≡ disk.old) × (saves.new ≡ saves.old)) }
    ensures inputs { inputs_of saves.new ≡ inputs_of saves.old }
{
    let old = copy(alloc, file.as_slice())?;
    let redone = redo(alloc, task, file)?;
    Ok(keep_if_done(alloc, disk, saves, goal, input, old.as_slice(), &redone))
}

/// What was read of the input of this name.
fn given_by<I: Inputs>(alloc: Global, inputs: I, name: &str) -> Result<Vec<u8>, Unread>
    ensures given { IsGivenByInput I.Reader.remaining (I.is_file inputs) (I.is_standard inputs) (I.fails inputs)
        name.now (given_of result) }
    ensures length { IfOk result (λ file. length file.items ≤ longest_file) }
{
    let input = match input_named(inputs, Some(name)) {
        Ok(input) => input,
        Err(reason) => return Err(Unread::Unopened(reason)),
    };
    let mut reader = Tried::new(input);
    read_all(alloc, &mut reader)
}

/// Mends or redraws the input of this name, and writes what comes of it where it is to be.
fn file<T: Task, I: Inputs, D: Disk>(
    alloc: Global,
    inputs: I,
    disk: &mut D,
    saves: &mut Saves,
    task: &T,
    goal: Goal<'_>,
    name: &str,
) -> Fate
    ensures { Became D.did D.leads D.sees D.fails D.opens D.identifies (T.tells task.now) (T.ending_of task.now)
        I.Reader.remaining (I.is_file inputs) (I.is_standard inputs) (I.fails inputs) goal.entry name.now
        disk.old disk.new saves.old saves.new result }
{
    let given = match given_by(alloc, inputs, name) {
        Ok(file) => file,
        Err(reason) => return Fate::unread(reason),
    };
    let input = file_called(Some(name));
    match refile(alloc, disk, saves, task, goal, input, given) {
        Ok(fate) => fate,
        Err(AllocError) => Fate::unread(Unread::Memory),
    }
}

/// Puts that memory ran out for a file.
fn put_of_memory<E: Write>(out: &mut Outbox<'_, E>, naming: &Naming<'_>)
    ensures { Puts E.contents out.old out.new (memory_text naming.now) }
{
    out.put(b"anscheck: ");
    put_input_message(out, naming, RunError::Memory.text());
    out.put(b"\n");
}

/// How much waits in an outbox at most.
const LONGEST: usize = 65_536;

/// Whether all that was put in an outbox waits there.
fn all_waits(held: &Outbox<'_, Nowhere>) -> bool
    ensures fits { (begun : Outbox Nowhere) (text : List ℕ) → waiting_of begun ≡ [] → device_failed begun ≡ false
        → Puts (⟦<Nowhere as Write>⟧.contents) begun held.now text → result ≡ nat_le (length text) outbox_size }
    ensures whole { (begun : Outbox Nowhere) (text : List ℕ) → waiting_of begun ≡ []
        → Puts (⟦<Nowhere as Write>⟧.contents) begun held.now text → result ≡ true → waiting_of held.now ≡ text }
{
    if held.has_failed() {
        return false;
    }
    held.waiting().len() <= LONGEST
}

/// Puts what an ending says, with a name before each line.
fn put_lines<E: Write>(out: &mut Outbox<'_, E>, name: &str, naming: &Naming<'_>, ending: &Ending)
    ensures { Puts E.contents out.old out.new (lines_of name.now (all_said naming.now ending.now)) }
{
    let mut nowhere = Tried::new(Nowhere);
    let mut held = Outbox::new(&mut nowhere);
    put_said(&mut held, naming, ending);
    if all_waits(&held) {
        put_named_lines(out, name.as_bytes(), held.waiting());
        return;
    }
    put_front(out, name.as_bytes());
    put_said(out, naming, ending);
}

/// Puts what is said of a file.
fn put_fate_text<E: Write>(
    out: &mut Outbox<'_, E>,
    several: bool,
    name: &str,
    naming: &Naming<'_>,
    ending: &Ending,
)
    ensures { Puts E.contents out.old out.new (fate_text several name.now naming.now ending.now) }
{
    if is_of_memory(ending) {
        put_of_memory(out, naming);
        return;
    }
    if several && has_lines(ending) {
        put_lines(out, name, naming, ending);
        return;
    }
    put_said(out, naming, ending);
}

/// Puts what is said of a file, and has it handed on.
fn tell_fate<E: Write>(out: &mut Outbox<'_, E>, several: bool, name: &str, fate: &Fate)
    ensures { (text : List ℕ) × SaysFate several name.now fate.now text
        × HandsOn E.contents out.old out.new text }
{
    put_fate_text(out, several, name, &called(name), &fate.ending);
    let _ = out.hand_on();
}

/// Mends or redraws each of these inputs, and writes what comes of it where it is to be. Returns how many became what.
fn file_each<T: Task, I: Inputs, D: Disk, E: Write>(
    alloc: Global,
    inputs: I,
    disk: &mut D,
    saves: &mut Saves,
    task: &T,
    goal: Goal<'_>,
    names: &[&str],
    out: &mut Outbox<'_, E>,
) -> FileCounts
    ensures { AreFiledIn E.contents
        (Became D.did D.leads D.sees D.fails D.opens D.identifies (T.tells task.now) (T.ending_of task.now)
        I.Reader.remaining (I.is_file inputs) (I.is_standard inputs) (I.fails inputs) goal.entry)
        (texts_of names.now) disk.old disk.new saves.old saves.new out.old out.new result }
{
    let mut counts = FileCounts::NONE;
    for name in names {
        let fate = file(alloc, inputs, disk, saves, task, goal, name);
        tell_fate(out, names.len() > 1, name, &fate);
        counts.add(fate.outcome);
    }
    counts
}

/// The same of all inputs that are named. `Err` says that there was no memory for the names; then nothing was done.
fn file_all<T: Task, I: Inputs, D: Disk, E: Write>(
    alloc: Global,
    inputs: I,
    disk: &mut D,
    task: &T,
    goal: Goal<'_>,
    names: &[String],
    out: &mut Outbox<'_, E>,
) -> Result<FileCounts, AllocError>
    ensures filed { IfOk result (λ counts. (saves : Saves) × (after : Saves)
        × Begins D.sees D.fails goal.entry (inputs_named (map string_bytes names.now)) disk.old saves
        × AreFiledIn E.contents
        (Became D.did D.leads D.sees D.fails D.opens D.identifies (T.tells task.now) (T.ending_of task.now)
        I.Reader.remaining (I.is_file inputs) (I.is_standard inputs) (I.fails inputs) goal.entry)
        (inputs_named (map string_bytes names.now)) disk.old disk.new saves after out.old out.new counts) }
    ensures untouched { OnErr result ((disk.new ≡ disk.old) × (out.new ≡ out.old)) }
{
    let named = inputs_named(alloc, names)?;
    let known = inputs_known(alloc, goal, named.as_slice())?;
    let mut saves = Saves::new(alloc, disk, known.as_slice())?;
    Ok(file_each(
        alloc,
        inputs,
        disk,
        &mut saves,
        task,
        goal,
        named.as_slice(),
        out,
    ))
}

/// How the program ends after all files.
fn end_of_files(counts: Result<FileCounts, AllocError>) -> Ending
    ensures { result ≡ ending_of_files counts }
{
    match counts {
        Ok(counts) => Ending::Filed(counts),
        Err(AllocError) => Ending::Run(Err(RunError::Memory)),
    }
}

/// Does a task on each input that the words name, and writes what comes of it where they say. What became of each is
/// said on the errors, and of several at last how many became what.
pub(crate) fn file_named<T: Task, I: Inputs, D: Disk, E: Write>(
    alloc: Global,
    inputs: I,
    disk: &mut D,
    task: &T,
    goal: Goal<'_>,
    names: &[String],
    errors: &mut Tried<E>,
) -> Ending
    ensures filed { AreFiled D.sees D.fails E.contents
        (Became D.did D.leads D.sees D.fails D.opens D.identifies (T.tells task.now) (T.ending_of task.now)
        I.Reader.remaining (I.is_file inputs) (I.is_standard inputs) (I.fails inputs) goal.entry) goal.entry
        (inputs_named (map string_bytes names.now)) disk.old disk.new errors.old errors.new result
        ⊎ AreNotFiled E.contents disk.old disk.new errors.old errors.new result }
    ensures write { result ≢ Run (Err Write) }
{
    let mut out = Outbox::new(errors);
    let ending = end_of_files(file_all(alloc, inputs, disk, task, goal, names, &mut out));
    put_said(&mut out, &unnamed(), &ending);
    let _ = out.finish();
    ending
}
