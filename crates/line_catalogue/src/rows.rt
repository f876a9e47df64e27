//! What is known of the checks of one process, and of where it stands.
ghost use Rattle.std.specs.Prelude.{◌≡◌, ◌≢◌, ◌<◌, ◌≤◌, ◌+◌, ◌-◌, ◌*◌, ℕ, Bool, false, List, []};
ghost use Rattle.std.specs.Prelude.{◌∷◌, ◌++◌, length, map, min, replicate, slice_index, take};
ghost use Rattle.std.specs.Prelude.{vec_len};
ghost use Rattle.std.specs.Prelude.{vec_capacity, IfOk, IsOk, OnOk};
ghost use Rattle.line_names.specs.declared.choices.Choice.TheVariants.{Check as AtCheck};
ghost use Rattle.line_tape.specs.Event.{checks, sends, NamesBelow};
ghost use Rattle.line_tape.specs.Shown.{event_of_ref};
ghost use Rattle.line_vectors.specs.Parts.{part_count};
ghost use Rattle.line_vectors.specs.Reach.{nearest};
ghost use Rattle.line_vectors.specs.Vectors.{lanes_with_message};
ghost use Rattle.line_catalogue.specs.Laid.{AreHeld, AreLaid, EndWith, HaveRowRoom, row_of};
ghost use Rattle.line_catalogue.specs.Laid.{width_of};
ghost use Rattle.line_catalogue.specs.Rows.{AreInStep, WithPlaces, vector_after_event, new_row};
ghost use Rattle.line_catalogue.specs.Rows.{row_added};
ghost use Rattle.line_catalogue.specs.Rows.{rows_kept, vector_at, with_damage, with_row};

use crate::kept_rows::{KeptRow, Rows};
use crate::laid::{MOST_PARTS, NOT_LAID, lay};
use line_names::{Choice, MOST_PROCESSES, MsgName};
use line_tape::{Event, EventRef, MOST_EVENTS, Tape};
use line_vectors::{LAST_NUMBER, PART, Reach, ReachRef, part_count, part_of_lanes};
use std::alloc::{AllocError, Global};
use std::marker::Model;

/// The rows of one process, from its initial state on, and the vector of where it stands.
#[derive(Drop)]
pub struct ProcessRows {
    rows: Vec<KeptRow>,
    /// The vectors of the rows in parts of sixteen lanes, each vector with where its parts begin:
    /// a part that no receipt has changed is shared with the vectors before.
    lanes: Vec<u32>,
    present: Reach,
    /// Where the parts of the present vector begin among the lanes; `NOT_LAID` of a part in which
    /// something was received since.
    starts: [u32; MOST_PARTS],
    /// Whether something was received since the last vector among the lanes.
    heard: bool,
    /// For how many further checks there is room, or fewer. Before an event this number alone is
    /// asked, and the lists only where it is too small.
    room: u32,
}

impl Model for ProcessRows {
    ghost use Rattle.std.specs.Prelude.{◌-◌, map, length, vec_len, vec_capacity};
    ghost use Rattle.line_catalogue.specs.Kept.{RowsView};
    ghost use Rattle.line_catalogue.specs.Laid.{AreLaid, HaveRowRoom, row_of, width_of};

    ghost Value = { RowsView };

    ghost view = { λ p. record {
      rows = map (row_of (length p.present) p.lanes.items) p.rows.items;
      present = p.present;
      room = p.room;
    } };

    ghost invariant = { λ p. AreLaid p.lanes.items p.rows.items p.heard p.starts p.present
        × HaveRowRoom p.room (vec_capacity p.rows - vec_len p.rows)
        (vec_capacity p.lanes - vec_len p.lanes) (width_of (length p.present)) };
}

/// Lets go of the rows and vectors after a choice, whose vector becomes that of where the process
/// stands.
fn go_back(
    rows: &mut Vec<KeptRow>,
    lanes: &mut Vec<u32>,
    present: &mut Reach,
    starts: &mut [u32; MOST_PARTS],
    heard: &mut bool,
    choice: Choice,
)
    requires laid { AreLaid lanes.old.items rows.old.items heard.old starts.old present.old }
    requires there { (c : ℕ) → choice ≡ AtCheck c → c < vec_len rows.old }
    ensures rows { map (row_of (length present.old) lanes.new.items) rows.new.items
        ≡ rows_kept choice (map (row_of (length present.old) lanes.old.items) rows.old.items) }
    ensures present { present.new
        ≡ vector_at (map (row_of (length present.old) lanes.old.items) rows.old.items)
        present.old choice }
    ensures lanes { length present.new ≡ length present.old }
    ensures laid { AreLaid lanes.new.items rows.new.items heard.new starts.new present.new }
    ensures room { vec_capacity rows.old - vec_len rows.old
        ≤ vec_capacity rows.new - vec_len rows.new }
    ensures vector { vec_capacity lanes.old - vec_len lanes.old
        ≤ vec_capacity lanes.new - vec_len lanes.new }
{
    match choice {
        Choice::Check(c) => {
            let start = rows[c as usize].start as usize;
            let parts = part_count(present.n());
            let end = start + parts;
            let told = &lanes[start..end];
            present.set_to_lent(&ReachRef::in_parts(told, lanes, present.n()));
            for k in 0..parts {
                starts[k] = told[k];
            }
            rows.truncate(c as usize + 1);
            lanes.truncate(end);
            *heard = false;
        }
        Choice::Now => {}
    }
}

/// Notes anew where the checks stand on a tape, from the last one back to one that stands where it
/// did.
fn place_rows(rows: &mut Vec<KeptRow>, tape: &Tape)
    requires count { vec_len rows.old ≡ checks tape.now.events + 1 }
    ensures rows { (n : ℕ) (lanes : List ℕ)
        → AreInStep tape.now.events (map (row_of n lanes) rows.old.items)
        → WithPlaces tape.now.events (map (row_of n lanes) rows.old.items)
        (map (row_of n lanes) rows.new.items) }
    ensures laid { (lanes : List ℕ) (heard : Bool) (starts present : List ℕ)
        → AreLaid lanes rows.old.items heard starts present
        → AreLaid lanes rows.new.items heard starts present }
    ensures room { (vec_capacity rows.new ≡ vec_capacity rows.old)
        × (vec_len rows.new ≡ vec_len rows.old) }
{
    for c in (0..tape.checks() + 1).rev() {
        let place = tape.place(Choice::Check(c)).unwrap();
        if rows[c as usize].place == place {
            return;
        }
        rows[c as usize].place = place;
    }
}

/// For how many further rows with a vector each of that width there is room.
fn count_room(rows: &Vec<KeptRow>, lanes: &Vec<u32>, width: usize) -> u32
    requires { 0 < width }
    ensures room { HaveRowRoom result (vec_capacity rows.now - vec_len rows.now)
        (vec_capacity lanes.now - vec_len lanes.now) width }
    ensures most { (k : ℕ) → k < 4294967296
        → HaveRowRoom k (vec_capacity rows.now - vec_len rows.now)
        (vec_capacity lanes.now - vec_len lanes.now) width → k ≤ result }
{
    let vectors = (lanes.capacity() - lanes.len()) / width;
    let places = rows.capacity() - rows.len();
    places.min(vectors).min(u32::MAX as usize) as u32
}

/// The only row of a process that has done nothing, its vector told of after so many lanes.
fn first_rows(alloc: Global, start: u32) -> Result<Vec<KeptRow>, AllocError>
    ensures { IfOk result (λ rows.
        rows.items ≡ record { place = 0; sends = 0; start = start; damaged = false } ∷ []) }
{
    let row = KeptRow {
        place: 0,
        sends: 0,
        start,
        damaged: false,
    };
    vec![in alloc; row; 1]
}

impl ProcessRows {
    /// The rows of one of `n` processes that has done nothing yet.
    pub fn new(alloc: Global, n: u32) -> Result<ProcessRows, AllocError>
        requires some { 0 < n }
        requires few { n ≤ MOST_PROCESSES }
        ensures rows { IfOk result (λ process. process.rows ≡ new_row 0 0 (replicate n 0) ∷ []) }
        ensures present { IfOk result (λ process. process.present ≡ replicate n 0) }
    {
        // All parts of the first vector are the same one, of lanes that are 0.
        let first = PART.min(n as usize);
        let parts = part_count(n as usize);
        let rows = first_rows(alloc, first as u32)?;
        let lanes = vec![in alloc; 0; first + parts]?;
        let present = Reach::new(alloc, n)?;
        Ok(ProcessRows {
            rows,
            lanes,
            present,
            starts: [0; MOST_PARTS],
            heard: false,
            room: 0,
        })
    }

    /// The rows.
    pub fn rows(&self) -> Rows<'_>
        ensures { result ≡ self.now.rows }
    {
        let n = self.present.n();
        Rows::of(self.rows.as_slice(), self.lanes.as_slice(), n)
    }

    /// The vector of where the process stands.
    pub fn present(&self) -> &Reach
        ensures { result.now ≡ self.now.present }
    {
        &self.present
    }

    /// The vector of a choice.
    pub fn reach(&self, choice: Choice) -> ReachRef<'_>
        requires { (c : ℕ) → choice ≡ AtCheck c → c < length self.now.rows }
        ensures { result ≡ vector_at self.now.rows self.now.present choice }
    {
        match choice {
            Choice::Check(c) => self.rows().at(c as usize).reach,
            Choice::Now => self.present.as_ref(),
        }
    }

    /// Makes room for so many further events. It costs one comparison while the counted room lasts.
    pub fn reserve(&mut self, k: u32) -> Result<(), AllocError>
        ensures same { (self.new.rows ≡ self.old.rows) × (self.new.present ≡ self.old.present) }
        ensures ok { OnOk result (k ≤ self.new.room) }
        ensures succeeds { k ≤ self.old.room → IsOk result }
        ensures room { self.old.room ≤ self.new.room }
    {
        if k <= self.room {
            return Ok(());
        }
        self.grow(k)
    }

    /// Makes room among the lists, and counts what they have.
    #[inline(never)]
    fn grow(&mut self, k: u32) -> Result<(), AllocError>
        ensures same { (self.new.rows ≡ self.old.rows) × (self.new.present ≡ self.old.present) }
        ensures ok { OnOk result (k ≤ self.new.room) }
        ensures succeeds { k ≤ self.old.room → IsOk result }
        ensures room { self.old.room ≤ self.new.room }
    {
        let n = self.present.n();
        let width = n + part_count(n);
        self.lanes.reserve(k as usize * width)?;
        self.rows.reserve(k as usize)?;
        self.room = count_room(&self.rows, &self.lanes, width);
        Ok(())
    }

    /// Notes a receipt, under the name that a vector has for it.
    fn hear(&mut self, message: &MsgName)
        requires { message.now.from < length self.old.present }
        ensures rows { self.new.rows ≡ self.old.rows }
        ensures present { self.new.present
            ≡ lanes_with_message self.old.present (nearest message.now) }
        ensures room { self.new.room ≡ self.old.room }
    {
        let name = MsgName {
            from: message.from,
            inc: message.inc,
            number: message.number.min(LAST_NUMBER - 1),
        };
        self.present.note(&name);
        self.starts[message.from.get() as usize / PART] = NOT_LAID;
        self.heard = true;
    }

    /// Adds the row of a check, in room that was made for it.
    #[inline(never)]
    fn add_check(&mut self, place: u32, sends: u32)
        requires few { length self.old.rows ≤ MOST_EVENTS }
        requires room { 0 < self.old.room }
        ensures rows { self.new.rows
            ≡ self.old.rows ++ new_row place sends self.old.present ∷ [] }
        ensures present { self.new.present ≡ self.old.present }
        ensures room { self.old.room ≤ self.new.room + 1 }
    {
        let parts = part_count(self.present.n());
        lay(&mut self.lanes, &self.present, &mut self.starts, self.heard);
        self.heard = false;
        self.rows.push_reserved(KeptRow {
            place,
            sends,
            start: (self.lanes.len() - parts) as u32,
            damaged: false,
        });
        self.room -= 1;
    }

    /// Follows an event of the tape, in room that was made for it; the place and the sends are
    /// those of the row, where it is a check.
    pub fn append(&mut self, event: &EventRef<'_>, place: u32, sends: u32)
        requires few { length self.old.rows ≤ MOST_EVENTS }
        requires room { 0 < self.old.room }
        requires named { NamesBelow (length self.old.present) (event_of_ref event.now) }
        ensures rows { self.new.rows
            ≡ with_row self.old.rows
            (row_added place sends self.old.present (event_of_ref event.now)) }
        ensures present { self.new.present
            ≡ vector_after_event self.old.present (event_of_ref event.now) }
        ensures lanes { length self.new.present ≡ length self.old.present }
        ensures room { self.old.room ≤ self.new.room + 1 }
    {
        match event {
            EventRef::Send { .. } => {}
            EventRef::Recv { message } => self.hear(message),
            EventRef::Check { .. } => self.add_check(place, sends),
            EventRef::Mark { .. } => {}
        }
    }

    /// Follows an event that comes next to the tape, in room that was made for it. It asks the tape
    /// only where the event is a check.
    pub fn append_next(&mut self, event: &Event, tape: &Tape)
        requires few { length self.old.rows ≤ MOST_EVENTS }
        requires short { length tape.now.events < MOST_EVENTS }
        requires room { 0 < self.old.room }
        requires named { NamesBelow (length self.old.present) event.now }
        ensures rows { self.new.rows
            ≡ with_row self.old.rows (row_added (length tape.now.events + 1)
            (sends tape.now.events) self.old.present event.now) }
        ensures present { self.new.present ≡ vector_after_event self.old.present event.now }
        ensures lanes { length self.new.present ≡ length self.old.present }
        ensures room { self.old.room ≤ self.new.room + 1 }
    {
        match event {
            Event::Send { .. } => {}
            Event::Recv { message } => self.hear(message),
            Event::Check { .. } => self.add_check(tape.len() + 1, tape.sends()),
            Event::Mark { .. } => {}
        }
    }

    /// Notes that a check is damaged.
    pub fn damage(&mut self, check: u32)
        requires { check < length self.old.rows }
        ensures rows { self.new.rows ≡ with_damage self.old.rows check }
        ensures present { self.new.present ≡ self.old.present }
        ensures room { self.new.room ≡ self.old.room }
    {
        self.rows[check as usize].damaged = true;
    }

    /// Goes on from a choice, on what is left of the tape. It takes no memory, and looks at the
    /// checks that stand elsewhere than they did and at one more.
    pub fn restart(&mut self, tape: &Tape, choice: Choice)
        requires there { (c : ℕ) → choice ≡ AtCheck c → c < length self.old.rows }
        requires left { length (rows_kept choice self.old.rows) ≡ checks tape.now.events + 1 }
        requires in_step { AreInStep tape.now.events (rows_kept choice self.old.rows) }
        ensures rows { WithPlaces tape.now.events (rows_kept choice self.old.rows) self.new.rows }
        ensures present { self.new.present ≡ vector_at self.old.rows self.old.present choice }
        ensures room { self.old.room ≤ self.new.room }
    {
        go_back(
            &mut self.rows,
            &mut self.lanes,
            &mut self.present,
            &mut self.starts,
            &mut self.heard,
            choice,
        );
        place_rows(&mut self.rows, tape);
    }
}
