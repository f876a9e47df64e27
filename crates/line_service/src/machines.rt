//! The machine of a service, which answers the records of a script.

ghost use Rattle.std.specs.Prelude.{◌≡◌, ◌++◌, ◌∷◌, [], Ok, Result, IfErr, IfOk, OnOk};
ghost use Rattle.line_claims.specs.Parts.{is_named};
ghost use Rattle.line_text.specs.Answerers.{AnswersOne, BlamesSink, StopsOne};
ghost use Rattle.line_text.specs.Rules.{fault_record};
ghost use Rattle.line_devices.specs.Devices.{Outputs};
ghost use Rattle.line_fields.specs.Texts.{records_text};
ghost use Rattle.line_fields.specs.declared.faults.Fault.{Fault};
ghost use Rattle.line_fields.specs.Records.{Record};
ghost use Rattle.line_service.specs.Served.{standing_of, IsText, IsUnended};
ghost use Rattle.line_service.specs.Services.{ServiceState};
ghost use Rattle.line_service.specs.Services.{Began, Dropped, Empty, Faulted, Has, Hears};
ghost use Rattle.line_service.specs.Services.{service_rules, text_error_code, without_text};
ghost use Rattle.std.specs.Prelude.{codes, false, true};

use crate::texts::{BegunText, begin_text, take_record};
use line_claims::{TextError, name_of};
use line_devices::{DeviceFault, Sink};
use line_fields::{Field, FieldRow, ReadError, RecordWriter, put_ending};
use line_live::Live;
use line_scripts::{CommandReader, world_of};
use line_tape::CountError;
use line_text::{Answerer, Halt, Outcome, Stop, do_command};
use std::alloc::Global;
use std::marker::Model;

/// Where a service is.
#[derive(Drop)]
pub(crate) enum Served {
    /// No record was good yet.
    Nothing,
    /// A saved machine is read.
    Text(BegunText),
    /// There is a machine.
    Machine(Live),
}

/// The machine of a service, once a first record was good, or the text of one, and what reads the
/// records after that.
#[derive(Drop)]
pub(crate) struct ServedMachine {
    alloc: Global,
    served: Served,
    // The command of the record that is read.
    command: CommandReader,
}

impl Model for ServedMachine {
    ghost use Rattle.line_service.specs.Served.{standing_of, IsUnended};
    ghost use Rattle.line_service.specs.Services.{ServiceState};

    ghost Value = { ServiceState };

    ghost view = { λ s. standing_of s.served };

    ghost invariant = { λ s. IsUnended s.served };
}

/// Begins the machine, as a first record says that is not the first of a saved one.
#[inline(never)]
#[tactic(auto, using(crate::proofs::TextLemmas::start_world, crate::proofs::TextLemmas::start_fault))]
fn begin(alloc: Global, served: &mut Served, row: &FieldRow<'_>) -> Result<(), ReadError>
    requires none { served.old ≡ Served.Nothing }
    requires other { is_named (codes "history") row.now ≡ false }
    ensures ok { OnOk result (Hears Empty (Ok row.now) Began (standing_of served.new)) }
    ensures err { IfErr result (λ error. Hears Empty (Ok row.now) (Faulted error) Empty) }
    ensures same { IfErr result (λ _. served.new ≡ Served.Nothing) }
    ensures unended { IsUnended served.new }
{
    let (n, mode) = match world_of(row) {
        Ok(first) => first,
        Err(fault) => return Err(ReadError::Fault(fault)),
    };
    match Live::new(alloc, n, mode) {
        Ok(begun) => {
            *served = Served::Machine(begun);
            Ok(())
        }
        Err(CountError::OutOfMemory) => Err(ReadError::OutOfMemory),
        Err(CountError::BadCount) => unreachable!(),
    }
}

/// The number of the fault of a text; 0 where memory ran out.
fn code_of(error: TextError) -> u32
    ensures { result ≡ text_error_code error }
{
    match error {
        TextError::OutOfMemory => 0,
        TextError::Fault(fault) => fault.code,
    }
}

/// Writes the answer to a record for which a saved machine is dropped, but for the empty line.
fn put_dropped<K: Sink>(
    sink: &mut K,
    writer: &mut RecordWriter,
    error: TextError,
) -> Result<(), DeviceFault>
    ensures { Outputs result (K.taken sink.old) (K.taken sink.new) (K.faults sink.old)
        (K.faults sink.new) writer.new
        (writer.old ++ records_text (fault_record (text_error_code error) ∷ [])) }
{
    let code = code_of(error);
    let name = name_of(code).as_bytes();
    put_ending(sink, writer, b"fault", &[code as u64], Field::Word(name))
}

/// Does the command that a record spells, and writes what it is told.
fn obey<K: Sink>(
    alloc: Global,
    world: &mut Live,
    row: &FieldRow<'_>,
    command: &mut CommandReader,
    sink: &mut K,
    writer: &mut RecordWriter,
) -> Result<Outcome, Stop>
    ensures ok { IfOk result (λ outcome. AnswersOne service_rules (Has world.old) (Ok row.now)
        (Has world.new) (K.taken sink.old) (K.taken sink.new) writer.old writer.new outcome) }
    ensures err { IfErr result (λ stop. StopsOne service_rules Faulted stop (Has world.old)
        (Ok row.now) (Has world.new) (K.taken sink.old) (K.taken sink.new) writer.old
        writer.new) }
    ensures sound { OnOk result (K.faults sink.new ≡ K.faults sink.old) }
    ensures blamed { IfErr result (λ stop. BlamesSink stop (K.faults sink.old)
        (K.faults sink.new)) }
{
    let n = world.kept().history().n();
    match command.read(n, row) {
        Ok(()) => match do_command(alloc, world, sink, writer, &command.command()) {
            Ok(true) => Ok(Outcome::Refused),
            Ok(false) => Ok(Outcome::Done),
            Err(Halt::Memory) => Err(Stop::Fault(ReadError::OutOfMemory)),
            Err(Halt::Write) => Err(Stop::Write),
        },
        Err(fault) => Err(Stop::Fault(fault)),
    }
}

/// Answers a record for which a saved machine is dropped, but for the empty line.
#[tactic(auto, using(crate::proofs::TextLemmas::dropped_front))]
fn answer_dropped<K: Sink>(
    error: TextError,
    sink: &mut K,
    writer: &mut RecordWriter,
) -> Result<Outcome, Stop>
    ensures ok { (old : ServiceState) (one : Result Record Fault)
        → Hears old one (Dropped error) Empty
        → IfOk result (λ outcome. AnswersOne service_rules old one Empty (K.taken sink.old)
        (K.taken sink.new) writer.old writer.new outcome) }
    ensures err { (old new : ServiceState) (one : Result Record Fault)
        → Hears old one (Dropped error) Empty
        → IfErr result (λ stop. StopsOne service_rules Faulted stop old one new
        (K.taken sink.old) (K.taken sink.new) writer.old writer.new) }
    ensures sound { OnOk result (K.faults sink.new ≡ K.faults sink.old) }
    ensures blamed { IfErr result (λ stop. BlamesSink stop (K.faults sink.old)
        (K.faults sink.new)) }
{
    match put_dropped(sink, writer, error) {
        Ok(()) => Ok(Outcome::Faulted),
        Err(_) => Err(Stop::Write),
    }
}

/// Answers the first record of the text of a saved machine, but for the empty line.
fn answer_head<K: Sink>(
    alloc: Global,
    served: &mut Served,
    row: &FieldRow<'_>,
    sink: &mut K,
    writer: &mut RecordWriter,
) -> Result<Outcome, Stop>
    requires none { served.old ≡ Served.Nothing }
    requires named { is_named (codes "history") row.now ≡ true }
    ensures ok { IfOk result (λ outcome. AnswersOne service_rules Empty (Ok row.now)
        (standing_of served.new) (K.taken sink.old) (K.taken sink.new) writer.old writer.new
        outcome) }
    ensures err { IfErr result (λ stop. StopsOne service_rules Faulted stop Empty (Ok row.now)
        (standing_of served.new) (K.taken sink.old) (K.taken sink.new) writer.old writer.new) }
    ensures sound { OnOk result (K.faults sink.new ≡ K.faults sink.old) }
    ensures blamed { IfErr result (λ stop. BlamesSink stop (K.faults sink.old)
        (K.faults sink.new)) }
    ensures unended { IsUnended served.new }
{
    match begin_text(alloc, served, row) {
        Ok(()) => Ok(Outcome::Done),
        Err(error) => answer_dropped(error, sink, writer),
    }
}

/// Answers a record before there is a machine or the text of one, but for the empty line.
fn answer_first<K: Sink>(
    alloc: Global,
    served: &mut Served,
    row: &FieldRow<'_>,
    sink: &mut K,
    writer: &mut RecordWriter,
) -> Result<Outcome, Stop>
    requires { served.old ≡ Served.Nothing }
    ensures ok { IfOk result (λ outcome. AnswersOne service_rules Empty (Ok row.now)
        (standing_of served.new) (K.taken sink.old) (K.taken sink.new) writer.old writer.new
        outcome) }
    ensures err { IfErr result (λ stop. StopsOne service_rules Faulted stop Empty (Ok row.now)
        (standing_of served.new) (K.taken sink.old) (K.taken sink.new) writer.old writer.new) }
    ensures sound { OnOk result (K.faults sink.new ≡ K.faults sink.old) }
    ensures blamed { IfErr result (λ stop. BlamesSink stop (K.faults sink.old)
        (K.faults sink.new)) }
    ensures unended { IsUnended served.new }
{
    if row.field(0) == b"history".as_slice() {
        return answer_head(alloc, served, row, sink, writer);
    }
    match begin(alloc, served, row) {
        Ok(()) => Ok(Outcome::Done),
        Err(error) => Err(Stop::Fault(error)),
    }
}

/// Answers a record while a saved machine is read, but for the empty line.
fn answer_next<K: Sink>(
    alloc: Global,
    served: &mut Served,
    row: &FieldRow<'_>,
    sink: &mut K,
    writer: &mut RecordWriter,
) -> Result<Outcome, Stop>
    requires text { IsText served.old }
    requires unended { IsUnended served.old }
    ensures ok { IfOk result (λ outcome. AnswersOne service_rules (standing_of served.old)
        (Ok row.now) (standing_of served.new) (K.taken sink.old) (K.taken sink.new) writer.old
        writer.new outcome) }
    ensures err { IfErr result (λ stop. StopsOne service_rules Faulted stop (standing_of served.old)
        (Ok row.now) (standing_of served.new) (K.taken sink.old) (K.taken sink.new) writer.old
        writer.new) }
    ensures sound { OnOk result (K.faults sink.new ≡ K.faults sink.old) }
    ensures blamed { IfErr result (λ stop. BlamesSink stop (K.faults sink.old)
        (K.faults sink.new)) }
    ensures unended { IsUnended served.new }
{
    match take_record(alloc, served, row) {
        Ok(()) => Ok(Outcome::Done),
        Err(error) => answer_dropped(error, sink, writer),
    }
}

/// Answers a record, but for the empty line.
fn answer_one<K: Sink>(
    alloc: Global,
    served: &mut Served,
    row: &FieldRow<'_>,
    command: &mut CommandReader,
    sink: &mut K,
    writer: &mut RecordWriter,
) -> Result<Outcome, Stop>
    requires { IsUnended served.old }
    ensures ok { IfOk result (λ outcome. AnswersOne service_rules (standing_of served.old)
        (Ok row.now) (standing_of served.new) (K.taken sink.old) (K.taken sink.new) writer.old
        writer.new outcome) }
    ensures err { IfErr result (λ stop. StopsOne service_rules Faulted stop (standing_of served.old)
        (Ok row.now) (standing_of served.new) (K.taken sink.old) (K.taken sink.new) writer.old
        writer.new) }
    ensures sound { OnOk result (K.faults sink.new ≡ K.faults sink.old) }
    ensures blamed { IfErr result (λ stop. BlamesSink stop (K.faults sink.old)
        (K.faults sink.new)) }
    ensures unended { IsUnended served.new }
{
    match served {
        Served::Machine(world) => obey(alloc, world, row, command, sink, writer),
        Served::Text(_) => answer_next(alloc, served, row, sink, writer),
        Served::Nothing => answer_first(alloc, served, row, sink, writer),
    }
}

/// Drops what was read of the text of a saved machine, if one is read.
fn drop_text(served: &mut Served)
    requires { IsUnended served.old }
    ensures left { standing_of served.new ≡ without_text (standing_of served.old) }
    ensures unended { IsUnended served.new }
{
    match served {
        Served::Text(_) => *served = Served::Nothing,
        Served::Machine(_) => {}
        Served::Nothing => {}
    }
}

impl ServedMachine {
    /// None yet: the first good record begins it.
    pub fn new(alloc: Global) -> ServedMachine
        ensures { result ≡ Empty }
    {
        ServedMachine {
            alloc,
            served: Served::Nothing,
            command: CommandReader::new(alloc),
        }
    }

    /// One that has this machine.
    pub fn of(alloc: Global, machine: Live) -> ServedMachine
        ensures { result ≡ Has machine }
    {
        ServedMachine {
            alloc,
            served: Served::Machine(machine),
            command: CommandReader::new(alloc),
        }
    }
}

impl Answerer for ServedMachine {
    ghost use Rattle.std.specs.Prelude.{refl};
    ghost use Rattle.line_service.specs.Services.{Faulted, ServiceAnswer, service_rules};
    ghost use Rattle.line_service.specs.Services.{without_text};
    ghost use Rattle.line_service.specs.Laws.{fault_of_no_record, out_of_memory_any_time};

    ghost Answer = { ServiceAnswer };

    ghost rules = { service_rules };

    ghost faulted = { Faulted };

    ghost missed = { λ _. without_text };

    fn answer<K: Sink>(
        &mut self,
        row: &FieldRow<'_>,
        sink: &mut K,
        writer: &mut RecordWriter,
    ) -> Result<Outcome, Stop> {
        answer_one(
            self.alloc,
            &mut self.served,
            row,
            &mut self.command,
            sink,
            writer,
        )
    }

    fn miss(&mut self, _error: ReadError) {
        drop_text(&mut self.served);
    }

    ghost bad_record = { fault_of_no_record };

    ghost no_memory = { out_of_memory_any_time };

    ghost fault_records = { λ _. refl };

    ghost fault_outcome = { λ _. refl };
}
