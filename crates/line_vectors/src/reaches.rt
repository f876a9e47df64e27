//! How much a process has heard of the others.
ghost use Rattle.std.specs.Prelude.{◌≡◌, ◌<◌, ◌≤◌, ◌↔◌, IsTrue, IfOk, MatchOption, length};
ghost use Rattle.std.specs.Prelude.{◌*◌, drop, replicate, slice_index, take};
ghost use Rattle.line_vectors.specs.Lanes.{greater_of, over_count};
ghost use Rattle.line_vectors.specs.Parts.{ArePartsAmong, parted};
ghost use Rattle.line_vectors.specs.Vectors.{lanes_with_message, Fits, FitsBefore, IsFirstBeyond};

use crate::kernels::{count_over, first_over_from, max_into};
use crate::limits::LAST_NUMBER;
use crate::parts::{PART, part_count, part_of_lanes};
use crate::sents::Sent;
use line_names::{MOST_PROCESSES, MsgName, ProcId};
use std::alloc::{AllocError, Global};
use std::marker::Model;

/// For each process one more than the greatest number noted of its messages, or 0: a lane for each.
#[derive(Drop)]
pub struct Reach {
    lanes: Vec<u32>,
}

impl Model for Reach {
    ghost use Rattle.std.specs.Prelude.{List, ℕ, ◌≤◌, length};
    ghost use Rattle.line_names.specs.declared.limits.TheConstants.{MOST_PROCESSES};

    ghost Value = { List ℕ };

    ghost view = { λ r. r.lanes.items };

    ghost invariant = { λ r. length r.lanes.items ≤ MOST_PROCESSES };
}

/// A vector whose lanes something else keeps, in parts of sixteen lanes. Where each part begins
/// among the lanes is told, so that vectors which differ in few lanes can share the other parts.
#[derive(Drop)]
pub struct ReachRef<'a> {
    starts: &'a [u32],
    lanes: &'a [u32],
    n: usize,
}

impl<'a> Model for ReachRef<'a> {
    ghost use Rattle.std.specs.Prelude.{List, ℕ, ◌≤◌, length};
    ghost use Rattle.line_names.specs.declared.limits.TheConstants.{MOST_PROCESSES};
    ghost use Rattle.line_vectors.specs.Parts.{ArePartsAmong, parted};

    ghost Value = { List ℕ };

    ghost view = { λ r. parted r.n r.starts.now r.lanes.now };

    ghost invariant = { λ r.
        (r.n ≤ MOST_PROCESSES) × ArePartsAmong r.n r.starts.now (length r.lanes.now) };
}

/// Where the parts of a vector begin that stand one after the other.
static STARTS: [u32; 16] = [
    0, 16, 32, 48, 64, 80, 96, 112, 128, 144, 160, 176, 192, 208, 224, 240,
];

impl Reach {
    /// The vector of nothing, of `n` processes: all lanes are 0.
    pub fn new(alloc: Global, n: u32) -> Result<Reach, AllocError>
        requires { n ≤ MOST_PROCESSES }
        ensures { IfOk result (λ reach. reach ≡ replicate n 0) }
    {
        let lanes = vec![in alloc; 0; n as usize]?;
        Ok(Reach { lanes })
    }

    /// The same lanes in memory of their own.
    pub fn copy(&self) -> Result<Reach, AllocError>
        ensures { IfOk result (λ reach. reach ≡ self.now) }
    {
        let lanes = self.lanes.clone()?;
        Ok(Reach { lanes })
    }

    /// How many lanes it has: one for each process.
    pub fn n(&self) -> usize
        ensures value { result ≡ length self.now }
        ensures limit { length self.now ≤ MOST_PROCESSES }
    {
        self.lanes.len()
    }

    /// The same vector, its lanes lent.
    pub fn as_ref(&self) -> ReachRef<'_>
        ensures { result ≡ self.now }
    {
        ReachRef::of(self.lanes.as_slice())
    }

    /// One more than the greatest number noted of a process's messages, or 0.
    pub fn lane(&self, p: ProcId) -> u32
        requires { p < length self.now }
        ensures { result ≡ slice_index self.now p }
    {
        self.lanes[p.get() as usize]
    }

    /// The lanes in the order of the processes.
    pub fn lanes(&self) -> &[u32]
        ensures { result.now ≡ self.now }
    {
        self.lanes.as_slice()
    }

    /// Notes a message: the lane of its sender is past its number from now on. It costs one lane.
    pub fn note(&mut self, message: &MsgName)
        requires process { message.now.from < length self.old }
        requires number { message.now.number < LAST_NUMBER }
        ensures { self.new ≡ lanes_with_message self.old message.now }
    {
        let p = message.from.get() as usize;
        self.lanes[p] = self.lanes[p].max(message.number + 1);
    }

    /// Notes all that another vector has noted.
    pub fn merge(&mut self, other: &Reach)
        requires { length self.old ≡ length other.now }
        ensures { self.new ≡ greater_of self.old other.now }
    {
        max_into(self.lanes.as_mut_slice(), other.lanes.as_slice());
    }

    /// Takes the lanes of another vector in place of its own.
    pub fn set_to(&mut self, other: &Reach)
        requires { length self.old ≡ length other.now }
        ensures { self.new ≡ other.now }
    {
        self.set_to_lent(&other.as_ref());
    }

    /// Takes the lanes of a lent vector in place of its own.
    pub fn set_to_lent(&mut self, other: &ReachRef<'_>)
        requires { length self.old ≡ length other.now }
        ensures { self.new ≡ other.now }
    {
        let n = self.lanes.len();
        for q in 0..n {
            self.lanes[q] = other.lane(ProcId::try_new(q as u32, n as u32).unwrap());
        }
    }

    /// Whether no lane is over its process's count of sends.
    pub fn fits(&self, sent: &Sent) -> bool
        requires { length self.now ≡ length sent.now }
        ensures { IsTrue result ↔ Fits self.now sent.now }
    {
        self.as_ref().fits(sent)
    }

    /// The first process whose lane is over its count of sends, if there is one.
    pub fn first_beyond(&self, sent: &Sent) -> Option<ProcId>
        requires { length self.now ≡ length sent.now }
        ensures { MatchOption result (Fits self.now sent.now) (IsFirstBeyond self.now sent.now) }
    {
        self.as_ref().first_beyond(sent)
    }

    /// How many lanes are over their processes' counts of sends.
    pub fn beyond(&self, sent: &Sent) -> usize
        requires { length self.now ≡ length sent.now }
        ensures { result ≡ over_count self.now sent.now }
    {
        self.as_ref().beyond(sent)
    }
}

impl<'a> ReachRef<'a> {
    /// The vector of these lanes.
    pub fn of(lanes: &'a [u32]) -> ReachRef<'a>
        requires { length lanes.now ≤ MOST_PROCESSES }
        ensures { result ≡ lanes.now }
    {
        ReachRef {
            starts: STARTS.as_slice(),
            lanes,
            n: lanes.len(),
        }
    }

    /// The vector of `n` lanes whose parts begin among these lanes where the first of `starts` say.
    pub fn in_parts(starts: &'a [u32], lanes: &'a [u32], n: usize) -> ReachRef<'a>
        requires few { n ≤ MOST_PROCESSES }
        requires among { ArePartsAmong n starts.now (length lanes.now) }
        ensures { result ≡ parted n starts.now lanes.now }
    {
        ReachRef { starts, lanes, n }
    }

    /// How many lanes it has: one for each process.
    pub fn n(&self) -> usize
        ensures value { result ≡ length self.now }
        ensures limit { length self.now ≤ MOST_PROCESSES }
    {
        self.n
    }

    /// One more than the greatest number noted of a process's messages, or 0.
    pub fn lane(&self, p: ProcId) -> u32
        requires { p < length self.now }
        ensures { result ≡ slice_index self.now p }
    {
        let at = p.get() as usize;
        self.lanes[self.starts[at / PART] as usize + at % PART]
    }

    /// The lanes of one part.
    fn part(&self, k: usize) -> &'a [u32]
        requires { k * PART < length self.now }
        ensures { result.now ≡ take PART (drop (k * PART) self.now) }
    {
        let lanes = self.lanes;
        let start = self.starts[k] as usize;
        let len = PART.min(self.n - k * PART);
        &lanes[start..start + len]
    }

    /// Whether no lane is over its process's count of sends.
    pub fn fits(&self, sent: &Sent) -> bool
        requires { length self.now ≡ length sent.now }
        ensures { IsTrue result ↔ Fits self.now sent.now }
    {
        self.first_beyond(sent).is_none()
    }

    /// The first process whose lane is over its count of sends, if there is one.
    pub fn first_beyond(&self, sent: &Sent) -> Option<ProcId>
        requires { length self.now ≡ length sent.now }
        ensures { MatchOption result (Fits self.now sent.now) (IsFirstBeyond self.now sent.now) }
    {
        self.first_beyond_from(sent, 0)
    }

    /// What `first_beyond` answers, where it is known that of so many first processes no lane is
    /// over the count: it looks at no block of lanes before the one where these end.
    pub fn first_beyond_from(&self, sent: &Sent, from: usize) -> Option<ProcId>
        requires lanes { length self.now ≡ length sent.now }
        requires from { from ≤ length self.now }
        requires none { FitsBefore self.now sent.now from }
        ensures { MatchOption result (Fits self.now sent.now) (IsFirstBeyond self.now sent.now) }
    {
        for k in from / PART..part_count(self.n) {
            let at = k * PART;
            let known = from.saturating_sub(at);
            if let Some(i) = first_over_from(self.part(k), part_of_lanes(sent.counts(), k), known) {
                return Some(ProcId::try_new((at + i) as u32, self.n as u32).unwrap());
            }
        }
        None
    }

    /// How many lanes are over their processes' counts of sends.
    pub fn beyond(&self, sent: &Sent) -> usize
        requires { length self.now ≡ length sent.now }
        ensures { result ≡ over_count self.now sent.now }
    {
        let mut total = 0;
        for k in 0..part_count(self.n) {
            total += count_over(self.part(k), part_of_lanes(sent.counts(), k));
        }
        total
    }
}
