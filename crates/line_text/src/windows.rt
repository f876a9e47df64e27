//! An input that is read through a window: what has come of it is taken line by line, and only the
//! beginning of a line waits for more.

ghost use Rattle.std.specs.Prelude.{◌≡◌, ◌≢◌, ◌++◌, ◌+◌, ◌<◌, ◌≤◌, ◌⊎◌, ℕ, List, [], IfErr, IfOk};
ghost use Rattle.std.specs.Prelude.{OnErr, OnOk, length, take};
ghost use Rattle.line_fields.specs.Records.{EndsLine};
ghost use Rattle.line_claims.specs.Reads.{no_memory};
ghost use Rattle.line_devices.specs.Devices.{IsDone, ends_after, one_more};
ghost use Rattle.line_devices.specs.Reads.{GivesAll, IsTooLong};
ghost use Rattle.line_devices.specs.declared.sources.TheConstants.{MOST_INPUT};
ghost use Rattle.line_text.specs.declared.ends.TheConstants.{READ_FAULT};
ghost use Rattle.line_text.specs.Inputs.{HasHeard, HearsEnd, IsReadTo, waiting};

use crate::ends::{READ_FAULT, fault_of_code};
use line_claims::{CheckReader, TextFault};
use line_devices::{DeviceFault, MOST_INPUT, Source};
use line_scripts::ScriptReader;
use memchr::memrchr;
use std::alloc::{AllocError, Global};

/// What takes a text in pieces of whole lines, the last of which may lack its line feed.
pub(crate) trait LineReader {
    /// It has taken this text.
    ghost has_taken: { Self → List ℕ → Type 0 };

    /// Takes the next piece.
    fn take_piece(&mut self, piece: &[u8]) -> Result<(), AllocError>
        ensures { OnOk result ((front : List ℕ) → EndsLine front → has_taken self.old front
            → has_taken self.new (front ++ piece.now)) };
}

impl LineReader for ScriptReader {
    ghost use Rattle.line_text.specs.Inputs.{HasTakenScript};

    ghost has_taken = { λ s text. HasTakenScript s text };

    fn take_piece(&mut self, piece: &[u8]) -> Result<(), AllocError> {
        self.take(piece)
    }
}

impl LineReader for CheckReader {
    ghost use Rattle.line_text.specs.Inputs.{HasTakenCheck};

    ghost has_taken = { λ s text. HasTakenCheck s text };

    fn take_piece(&mut self, piece: &[u8]) -> Result<(), AllocError> {
        self.take(piece)
    }
}

// The room of a window where no line is longer, and how much more is asked for where one is.
const CHUNK: usize = 65_536;

// Room for bytes of an input: at its front those that wait, and after them what a source fills.
#[derive(Drop)]
struct Window {
    bytes: Vec<u8>,
    // How many bytes wait.
    held: usize,
}

// A window in which nothing waits.
fn open_window(alloc: Global) -> Result<Window, AllocError>
    ensures none { IfOk result (λ window. window.held ≡ 0) }
    ensures room { IfOk result (λ window. window.held < length window.bytes.items) }
{
    let bytes = Vec::from_elem(alloc, 0u8, CHUNK)?;
    Ok(Window { bytes, held: 0 })
}

// Asks a source for more bytes, and says how many came.
fn hear<S: Source>(window: &mut Window, source: &mut S) -> Result<usize, DeviceFault>
    requires { window.old.held < length window.old.bytes.items }
    ensures room { OnOk result (window.new.held ≤ length window.new.bytes.items) }
    ensures held { IfOk result (λ count. window.new.held ≡ window.old.held + count) }
    ensures moves { IfOk result
        (λ count. HasHeard count (waiting window.old) (waiting window.new) (S.left source.old)
        (S.left source.new)) }
    ensures gives { IfOk result (λ count. S.given source.new ≡ S.given source.old + count) }
    ensures end { IfOk result (λ count. count ≡ 0 → IsDone (S.left source.old)) }
    ensures sound { OnOk result (S.faults source.new ≡ S.faults source.old) }
    ensures failed { OnErr result (S.faults source.new ≡ one_more (S.faults source.old)) }
    ensures ended { IfOk result
        (λ count. S.ends source.new ≡ ends_after count (S.ends source.old)) }
    ensures unended { OnErr result (S.ends source.new ≡ S.ends source.old) }
{
    let count = source.fill(&mut window.bytes[window.held..])?;
    window.held += count;
    Ok(count)
}

// Makes room for more bytes, where there is none.
fn make_room(window: &mut Window) -> Result<(), AllocError>
    requires room { window.old.held ≤ length window.old.bytes.items }
    requires few { window.old.held ≤ MOST_INPUT }
    ensures same { OnOk result (waiting window.new ≡ waiting window.old) }
    ensures room { OnOk result (window.new.held < length window.new.bytes.items) }
{
    if window.held < window.bytes.len() {
        return Ok(());
    }
    window.bytes.resize(window.held + CHUNK, 0)
}

// Takes the lines that end within the bytes that came last, so many, the first of which may have
// begun before them, and moves what comes after them to the front.
fn take_lines<R: LineReader>(
    window: &mut Window,
    count: usize,
    reader: &mut R,
) -> Result<(), AllocError>
    requires count { count ≤ window.old.held }
    requires room { window.old.held ≤ length window.old.bytes.items }
    requires few { window.old.held ≤ MOST_INPUT }
    ensures read { OnOk result ((text : List ℕ)
        → IsReadTo text (waiting window.old) (R.has_taken reader.old)
        → IsReadTo text (waiting window.new) (R.has_taken reader.new)) }
    ensures room { OnOk result (window.new.held < length window.new.bytes.items) }
{
    let begin = window.held - count;
    let Some(at) = memrchr(b'\n', &window.bytes[begin..window.held]) else {
        return make_room(window);
    };
    let end = begin + at + 1;
    reader.take_piece(&window.bytes[..end])?;
    window.bytes.copy_within(end..window.held, 0);
    window.held -= end;
    Ok(())
}

// Takes what waits where nothing more comes: the last line, which may lack its line feed.
fn take_last<R: LineReader>(window: &Window, reader: &mut R) -> Result<(), TextFault>
    requires { window.now.held ≤ length window.now.bytes.items }
    ensures ok { OnOk result ((front : List ℕ) → EndsLine front → R.has_taken reader.old front
        → R.has_taken reader.new (front ++ waiting window.now)) }
    ensures err { IfErr result (λ fault. fault ≡ no_memory) }
{
    match reader.take_piece(&window.bytes[..window.held]) {
        Ok(()) => Ok(()),
        Err(_) => Err(fault_of_code(0)),
    }
}

/// Reads the whole input, whose lines the reader takes as they come.
///
/// It keeps no text but the longest line, and some 64 KiB. It stops at the first failure of the
/// source, at the first call that gives nothing, and where the source has given more than
/// `MOST_INPUT` bytes.
pub(crate) fn read_lines<S: Source, R: LineReader>(
    alloc: Global,
    source: &mut S,
    reader: &mut R,
) -> Result<(), TextFault>
    requires { R.has_taken reader.old [] }
    ensures whole { OnOk result ((text : List ℕ)
        × GivesAll text (S.left source.old) (S.left source.new) (S.given source.old)
        (S.given source.new)
        × R.has_taken reader.new text) }
    ensures codes { IfErr result
        (λ fault. (fault ≡ no_memory) ⊎ (fault ≡ record { record_number = 0; code = READ_FAULT })) }
    ensures failed { IfErr result (λ fault. fault.code ≡ READ_FAULT
        → (S.faults source.new ≡ one_more (S.faults source.old))
        ⊎ IsTooLong (S.left source.old) (S.given source.old) (S.given source.new)) }
    ensures heard { OnOk result (S.faults source.new ≡ S.faults source.old) }
    ensures told { IfErr result
        (λ fault. fault.code ≢ READ_FAULT → S.faults source.new ≡ S.faults source.old) }
    ensures ended { HearsEnd result (S.ends source.old) (S.ends source.new) }
{
    let Ok(mut window) = open_window(alloc) else {
        return Err(fault_of_code(0));
    };
    let mut read = 0;
    // Each turn but the last moves a byte at least.
    for turn in 0..MOST_INPUT + 1 {
        prove!(turn <= read);
        let Ok(count) = hear(&mut window, source) else {
            return Err(fault_of_code(READ_FAULT));
        };
        if count == 0 {
            return take_last(&window, reader);
        }
        if count > MOST_INPUT - read {
            return Err(fault_of_code(READ_FAULT));
        }
        read += count;
        if take_lines(&mut window, count, reader).is_err() {
            return Err(fault_of_code(0));
        }
    }
    unreachable!()
}
