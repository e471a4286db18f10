ghost use Rattle.std.specs.Prelude.{◌≡◌, ◌≢◌, ◌⊎◌, ◌≤◌, ◌∷◌, [], true, codes, IfOk, None, Some};
ghost use Rattle.std.specs.Io.KnownBytes.{Appends, Keeps};
ghost use Rattle.sig_io.specs.Causes.{Rose};
ghost use Rattle.sig_io.specs.Transfer.{Takes, AppendsPrefix};
ghost use Rattle.sig_script.specs.Built.{unbuilt};
ghost use Rattle.sig_script.specs.Leaving.{has_no_leaves};
ghost use Rattle.sig_script.specs.SelfContained.{IsSelfContained};
ghost use Rattle.sig_script.specs.Sizes.{size_fault};
ghost use Rattle.sig_script.specs.Starts.{StartsInOrder};
ghost use Rattle.sig_run.specs.Program.{line_of, refusal_line, IsReportOf, IsReport, IsRefusal, IsAnswer, Answers, IsSilent, Answered};

use crate::playing::play;
use crate::words::Words;
use sig_diff::NoMemory;
use sig_exec::Gate;
use sig_io::{ReadError, Sink, Source, read_all, write_all};
use sig_report::{play_is_lawful, report_text};
use sig_script::{Script, ScriptError, read_script};
use std::alloc::{AllocError, Global};
use std::sync::Wait;
use std::thread::Threads;

/// The most bytes of an input.
const MOST_BYTES: u64 = 16_777_216;

/// How a run of the program ended. Each has its number as the status of the process.
#[derive(Clone, Copy, Debug, PartialEq, Eq)]
enum Status {
    Done,
    Usage,
    ReadFault,
    WriteFault,
    Script,
    Memory,
    TooLarge,
}

impl Status {
    ghost use Rattle.sig_run.specs.Program.{code_of};

    fn code(self) -> u8
        ensures { result ≡ code_of self }
    {
        self as u8
    }
}

/// What the program writes for an input.
#[derive(Debug, Drop)]
enum Answer {
    /// The report of the play.
    Report(Vec<u8>),
    /// The line of a refusal.
    Refusal(Vec<u8>),
}

/// Runs the program, and gives the status with which it ends.
///
/// 0: done, and the report was written. 1: the words of the command line aren't accepted. 2: a read of
/// the input failed. 3: a write of the output failed. 4: the script is refused, and the line of the
/// refusal was written. 5: out of memory. 6: the input has more than 16,777,216 bytes. Nothing is written
/// before all of the text stands, and with 1, 2, 5 and 6 nothing is written at all.
pub fn signals<R, S, K, G>(
    rt: &R,
    alloc: Global,
    words: &Words,
    input: &mut S,
    output: &mut K,
    gate: &G,
) -> u8
where
    R: Threads + Wait + Sync,
    S: Source,
    K: Sink,
    G: Gate,
    // The words are refused exactly where they aren't the one word `play`.
    ensures usage { result ≡ 1 → words.now ≢ codes "play" ∷ [] }
    ensures accepted { result ≢ 1 → words.now ≡ codes "play" ∷ [] }

    ensures done { result ≡ 0 → Answered IsReport (S.left input.old) (S.left input.new)
        (Appends (K.written output.old) (K.written output.new)) }
    ensures script { result ≡ 4 → Answered IsRefusal (S.left input.old) (S.left input.new)
        (Appends (K.written output.old) (K.written output.new)) }

    // A fault is answered only where it was counted in this call.
    ensures read_fault { result ≡ 2 → Rose (S.faults input.old) (S.faults input.new) }
    ensures write_fault { result ≡ 3 → Rose (K.faults output.old) (K.faults output.new)
        × Answered IsAnswer (S.left input.old) (S.left input.new)
        (AppendsPrefix (K.written output.old) (K.written output.new)) }
    ensures too_large { result ≡ 6 → (S.faults input.new ≡ S.faults input.old)
        × Takes (S.left input.old) (S.left input.new) (λ count. count ≡ 16777217) }

    ensures silent { (result ≡ 1) ⊎ (result ≡ 2) ⊎ (result ≡ 5) ⊎ (result ≡ 6)
        → Keeps (K.written output.old) (K.written output.new) }
    ensures number { result ≤ 6 }
{
    let _ = rt;
    let _ = gate;
    if words.are_only("play") {
        play_input(alloc, input, output).code()
    } else {
        Status::Usage.code()
    }
}

/// Plays the script that the input holds, and writes the report or the line of a refusal.
fn play_input<S: Source, K: Sink>(alloc: Global, input: &mut S, output: &mut K) -> Status
    ensures accepted { result ≢ Status.Usage }
    ensures done { result ≡ Status.Done → Answered IsReport (S.left input.old) (S.left input.new)
        (Appends (K.written output.old) (K.written output.new)) }
    ensures script { result ≡ Status.Script → Answered IsRefusal (S.left input.old) (S.left input.new)
        (Appends (K.written output.old) (K.written output.new)) }
    ensures read_fault { result ≡ Status.ReadFault
        → Rose (S.faults input.old) (S.faults input.new) }
    ensures write_fault { result ≡ Status.WriteFault
        → Rose (K.faults output.old) (K.faults output.new)
        × Answered IsAnswer (S.left input.old) (S.left input.new)
        (AppendsPrefix (K.written output.old) (K.written output.new)) }
    ensures too_large { result ≡ Status.TooLarge → (S.faults input.new ≡ S.faults input.old)
        × Takes (S.left input.old) (S.left input.new) (λ count. count ≡ 16777217) }
    ensures silent { IsSilent result → Keeps (K.written output.old) (K.written output.new) }
{
    let bytes = match read_all(alloc, input, MOST_BYTES) {
        Ok(bytes) => bytes,
        Err(ReadError::ReadFault) => return Status::ReadFault,
        Err(ReadError::TooLarge) => return Status::TooLarge,
        Err(ReadError::NoMemory) => return Status::Memory,
    };
    match answer_to(alloc, &bytes) {
        Ok(Answer::Report(text)) => write_or(output, &text, Status::Done),
        Ok(Answer::Refusal(line)) => write_or(output, &line, Status::Script),
        Err(AllocError) => Status::Memory,
    }
}

/// Writes a text, and gives the status if that went well.
fn write_or<K: Sink>(output: &mut K, text: &[u8], status: Status) -> Status
    requires { status ≢ Status.WriteFault }
    ensures answers { (result ≡ status) ⊎ (result ≡ Status.WriteFault) }
    ensures written { (result ≡ status) → Appends (K.written output.old) (K.written output.new) text.now }
    ensures fault { (result ≡ Status.WriteFault) → Rose (K.faults output.old) (K.faults output.new)
        × AppendsPrefix (K.written output.old) (K.written output.new) text.now }
{
    match write_all(output, text) {
        Ok(()) => status,
        Err(_) => Status::WriteFault,
    }
}

/// What is written for the bytes of an input.
#[tactic(auto, using(crate::proofs::Sized::sized_when_read))]
fn answer_to(alloc: Global, bytes: &[u8]) -> Result<Answer, NoMemory>
    ensures { IfOk result (Answers bytes.now) }
{
    match read_script(alloc, bytes) {
        Ok(script) => Ok(Answer::Report(played(alloc, &script)?)),
        Err(refusal) => Ok(Answer::Refusal(line_of(alloc, &refusal)?)),
    }
}

/// The text of the report of a script's play.
#[tactic(auto, using(crate::proofs::Reported::reports_of_play))]
fn played(alloc: Global, script: &Script) -> Result<Vec<u8>, NoMemory>
    requires built { unbuilt script.now ≡ None }
    requires in_order { StartsInOrder script.now }
    requires no_leaves { has_no_leaves script.now ≡ true }
    requires self_contained { IsSelfContained script.now }
    requires sized { size_fault script.now ≡ None }
    ensures { IfOk result (λ text. IsReportOf script.now text.items) }
{
    let report = play(alloc, script)?;
    play_is_lawful(script);
    report_text(alloc, script, &report)
}

/// The line of a refusal. Want of memory has none.
fn line_of(alloc: Global, refusal: &ScriptError) -> Result<Vec<u8>, NoMemory>
    ensures { IfOk result (λ line. line_of refusal.now ≡ Some line.items) }
{
    match refusal {
        ScriptError::NotJson => refusal_line(alloc, 1, &[]),
        ScriptError::Shape { path } => refusal_line(alloc, 2, path.as_slice()),
        ScriptError::Name { path } => refusal_line(alloc, 3, path.as_slice()),
        ScriptError::Limit { path } => refusal_line(alloc, 4, path.as_slice()),
        ScriptError::TooBig { path } => refusal_line(alloc, 5, path.as_slice()),
        ScriptError::Schedule { place } => {
            refusal_line(alloc, 6, itoa::Buffer::new().format(*place).as_bytes())
        }
        ScriptError::NotBuilt { path } => refusal_line(alloc, 8, path.as_slice()),
        ScriptError::NoMemory => Err(AllocError),
    }
}

/// The line of a refusal: its number, and its path or place where it has one.
fn refusal_line(alloc: Global, number: u8, path: &[u8]) -> Result<Vec<u8>, NoMemory>
    ensures { IfOk result (λ line. line.items ≡ refusal_line number path.now) }
{
    let mut line = Vec::from_slice(alloc, b"script ")?;
    line.extend_from_slice(itoa::Buffer::new().format(number).as_bytes())?;
    if !path.is_empty() {
        line.extend_from_slice(b" ")?;
        line.extend_from_slice(path)?;
    }
    line.extend_from_slice(b"\n")?;
    Ok(line)
}
