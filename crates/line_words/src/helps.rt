//! What help tells besides what `clap` makes up.

/// The version that `--version` prints.
pub(crate) const VERSION: &str = "1.0.0";

/// What the exit statuses mean.
pub(crate) const STATUSES: &str = "\
Statuses:
  0  everything was done; the claim is valid
  1  a command of the script was refused, the claim is not valid, or a worker could not do its \
orders
  2  bad input, or a bad command line
  3  memory or a thread was wanting, a device failed, or the input is longer than 67,108,864 bytes

'recline help run' shows a script and its replies. What is read and written: docs/FORMATS.md, and \
recline(1).";

/// A script and its replies, and what the statuses of a run mean.
pub(crate) const RUN: &str = "\
A script for two processes: process 0 sends a byte to process 1, and process 0 fails.
  world,1,2,fifo
  send,0,1,61
  recover,0

Its replies: process 0 goes back to its initial state, check 0, and process 1 stays where it stands.
  sent,0,0,0
  recovered,1,0,0
  line,0,0,1,
  line,1,now,0,-

Statuses: 0 all commands were done; 1 a command was refused; 2 the script has a fault; 3 memory was
wanting, or standard input or output failed. A fault is told by one line on standard error.
All commands and replies: docs/FORMATS.md, and recline(1).";

/// A conversation, and what the statuses of a service mean.
pub(crate) const SERVE: &str = "\
Records are those of a script, and an empty line ends each answer. What is read (>) and written (<):
  > world,1,2,fifo
  <
  > send,0,1,61
  < sent,0,0,0
  <
  > crash,0
  < fault,32,BadRecord
  <
  > recover,0
  < recovered,1,0,0
  < line,0,0,1,
  < line,1,now,0,-
  <

The command save tells the text of a machine, from which another goes on: it may stand in place of
the record world, and FILE may have it, which is read before standard input and not answered.

Statuses: 0 all commands were done; 1 a command was refused; 2 a record had a fault, or FILE; 3
memory was wanting at the start, FILE cannot be read, or standard input or output failed.
All records and answers: docs/FORMATS.md, and recline(1).";

/// A conversation of reports, and what the statuses of a collection mean.
pub(crate) const COLLECT: &str = "\
Records are reports of what processes did, those of each process in its order, and an empty line
ends each answer. What is read (>) and written (<):
  > reports,1,2
  <
  > recv,1,0,0,0,0
  < took,0,0,0,-
  <
  > send,0,0,1,61
  < sent,0,0,0
  <
  > recover,0
  < recovered,2,1,0
  < line,0,0,1,
  < line,1,0,1,
  < pass,1,now,0,0,0
  <

Statuses: 0 all was done; 1 a report was refused; 2 a record had a fault; 3 memory was wanting at
the start, or standard input or output failed.
All records and answers: docs/REPORTS.md, and recline(1).";

/// A claim and the verdict on it, and what the statuses of a check mean.
pub(crate) const CHECK: &str = "\
A history of one process, which took a check and failed, and the claim that it goes back to that \
check.
  history,1,1
  tape,0,0
  check,a1,-
  failed,0
  line,1
  end

The verdict:
  valid

Statuses: 0 the claim is valid; 1 it is not; 2 the text has a fault; 3 memory was wanting, or \
standard
input or output failed. The command bundle of a script writes such texts.
All records and verdicts: docs/FORMATS.md, and recline(1).";
