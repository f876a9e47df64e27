//! The library of recline: one door to its crates, with a module for each job.
//!
//! What all jobs speak of stands here: names, events, tapes, histories, marks and lines. A module
//! has the calls of its job, the types that they take and answer, and their errors. Nothing is
//! written here: each item is handed on from the crate that has it, with its contract, and stands
//! in one place. `docs/LIBRARY.md` shows each job by a short caller that is proved.
#![tactic(auto)]

pub use line_names::{
    Body, BodyError, Certificate, Choice, Line, MOST_BODY, MOST_PROCESSES, MsgName, Passed, ProcId,
    ProcIdError, ProcSet,
};
pub use line_tape::{
    BarError, CountError, Event, EventRef, Events, History, HistoryError, LAST_INCARNATION,
    LAST_ROUND, MOST_EVENTS, MOST_STATE, MarkError, Marks, State, Tape, TapeError,
};

/// Plan the recovery line of a history: where each process goes on from after a failure, with the
/// certificate of that and the messages that are sent again.
///
/// Begin with `Catalogue::of` of a history and its marks, or with `Catalogue::new` and `add` where
/// events come one by one; then ask `plan`.
pub mod plan {
    pub use line_catalogue::{AddError, Catalogue, CatalogueError, DamageError};
    pub use line_plan::{Plan, PlanError, plan};
    pub use line_vectors::{ReachRef, Sent};
}

/// Judge a line, a line with its certificate, or the whole answer to a recovery from the history
/// alone, whoever made it. None trusts the planner, and no call takes memory but
/// `ReceivedFlags::new`, whose flags are lent to `check_answer`.
///
/// Begin with `check_answer`, `check_certificate` or `check_consistent`. The laws say what a right
/// answer and a certificate show. `next_replay` walks over what is sent again.
pub mod check {
    pub use line_check::{
        AnswerRef, CertFault, FaultCode, LineFault, Replay, ReplayCursor, ReplayRef, Start,
        check_answer, check_certificate, check_consistent, next_replay, plans_make_right_answers,
        right_answers_restart,
    };
    pub use line_laws::{chain_makes_latest, chain_passes_each, latest_is_unique, now_is_latest};
    pub use line_tape::ReceivedFlags;
}

/// Drive a world: processes that send, receive, take checkpoints, make snapshots in rounds, fail
/// and recover, one step after the other on one thread. Its links keep the order of sending or
/// keep none.
///
/// Begin with `World::new`; then `step` for one step, or `run` for a list of steps. A `Live` is
/// called in the same way, and `forget` has it let go what is never needed again; `resume`
/// opens one that was saved.
pub mod world {
    pub use line_live::{
        ForgetError, Live, MOST_LET_GO, OwnedFloor, ResumeError, RoundChecks, lives_answer_as_whole,
    };
    pub use line_tape::Item;
    pub use line_world::{
        Answer, Mode, Reply, Round, RunStopped, Step, StepError, StepRef, World, is_idle,
        runs_keep_rounds, runs_name_apart,
    };
}

/// Read texts, write them, run scripts and judge check texts, as the program `recline` does. Bytes
/// come from a `Source` and go to a `Sink`: memory, files, pipes, sockets, or a device of your own.
///
/// Begin with `run_text` or `check_text` over `MemSource` and `MemSink`, or over `ReadSource` and
/// `WriteSink`; with `read_script`, `read_history` or `read_check_text`; or with `write_history`,
/// `write_check_text` or `put_answer`. `RecordReader` and `RecordWriter` are for records of your
/// own.
pub mod text {
    pub use line_claims::{
        CheckText, Claim, ClaimRef, FloorRef, SavedReader, SavedRound, SavedText, TextFault,
        claims_are_read_again, histories_are_read_again, name_of, put_answer, put_answer_from,
        put_check_text, put_check_text_from, put_floors, put_history_from, put_saved_end,
        put_saved_front, put_saved_round, read_certificate, read_check_text, read_history,
        read_saved, saved_machines_are_read_again, version_2_reads_version_1, write_check_text,
        write_history,
    };
    pub use line_devices::{
        DeviceFault, MOST_INPUT, MemSink, MemSource, ReadRefused, ReadSource, Sink, Source,
        WriteSink, put_all, read_all,
    };
    pub use line_fields::{
        Fault, FieldRow, ReadError, RecordReader, RecordWriter, hex, is_plain, number,
    };
    pub use line_scripts::{
        Command, Script, read_script, scripts_are_read_again, scripts_are_run_as_read,
        scripts_of_saved_machines_are_read_again, version_2_reads_scripts_of_version_1,
    };
    pub use line_text::{
        Done, OpenError, check_text, claims_are_judged_alike_whatever_was_let_go,
        claims_of_version_1_are_judged_alike_in_version_2, live_lines_stay, open_saved,
        put_refusal, put_reply, run_text, scripts_of_both_versions_run_alike, write_reply,
    };
}

/// Workers in threads that exchange messages and report to a collector, which plans while they run.
/// When they end or fail, what they did is gathered and planned, and new workers go on from there.
///
/// Begin with `run` and a `Work` of your own, where none fails; else with `fleet`, `run_crew`,
/// `gather` and `Gathered::restart`. A `Work` calls its `Post`. `drill` has workers follow scripts.
pub mod workers {
    pub use line_posts::{
        BeginWhy, Collector, FleetError, ForgetWhy, GatherRefused, GatherWhy, Gathered,
        MOST_CAPACITY, MOST_WORKERS, Post, ReceiveWhy, Received, ReportError, Reported,
        RestartRefused, RestartWhy, SendRefused, SendWhy, fleet, gather, generations_last,
    };
    pub use line_rounds::Marker;
    pub use line_workers::{
        DrillError, DrillWhy, Exchange, Gate, NoThread, Order, Routine, RunError, Stream, Work,
        drill, run, run_crew,
    };
}

/// Answer the records of a client as they come, each before the next one is waited for. What is
/// wrong is answered, changes nothing, and the service goes on.
///
/// Begin with `serve` over a `Source` and a `Sink` of `text`; or with `Service::new` and `hear`,
/// where the bytes come from elsewhere.
pub mod service {
    pub use line_service::{
        MOST_LINE, Outcome, ServeError, Service, faults_change_nothing, open_saved_text,
        pieces_are_answered_alike, saved_machines_are_served, saved_scripts_are_served_as_they_run,
        saved_texts_are_read_by_lines, scripts_are_served_as_they_run, serve, serve_from,
        serve_turn,
    };
    pub use line_text::{Answerer, Conversation, Stop, converse, hear_out, take_turn};
}

/// Collect what processes report of themselves, those of several in any order, and plan from what
/// has come so far. No process waits for it.
///
/// Begin with `collect` over a `Source` and a `Sink` of `text`; or with `Collection::new`, tell it
/// each report by a call of its kind, and ask `plan`. The laws say what reports leave, and what of
/// a planned line stays.
pub mod collect {
    pub use line_collect::{
        CollectError, Collection, LiveCollection, Report, Told, collect,
        cut_messages_are_not_received, faults_and_refusals_change_nothing,
        histories_follow_each_process, live_answers_are_of_all, live_collections_answer_as_all,
        live_lines_stay_consistent, recovered_lines_stay_consistent,
        reports_in_pieces_are_answered_alike,
    };
}
