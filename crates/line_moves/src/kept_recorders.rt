//! What processes recorded of a round of markers, as it is kept of a round that is completed.
ghost use Rattle.std.specs.Prelude.{◌≡◌, ◌<◌, [], All};
ghost use Rattle.line_rounds.specs.Recording.{MarkerView};
ghost use Rattle.line_moves.specs.Openings.{kept_channel, AreByProcess};

use crate::recorders::Recorder;
use line_names::{MsgName, ProcId};
use std::alloc::Global;
use std::marker::Model;

/// What processes recorded of a round until their last marker came, for those that recorded
/// something, by process.
#[derive(Drop)]
pub(crate) struct KeptRecorders {
    /// A bit for each of these processes, which processes 64 apart share, so that most others are
    /// passed over at a look.
    receivers: u64,
    markers: Vec<Recorder>,
}

impl Model for KeptRecorders {
    ghost use Rattle.std.specs.Prelude.{List};
    ghost use Rattle.line_rounds.specs.Recording.{MarkerView};
    ghost use Rattle.line_moves.specs.Openings.{AreRecordedBy};

    ghost Value = { List MarkerView };

    ghost view = { λ k. k.markers.items };

    ghost invariant = { λ k. AreRecordedBy k.receivers k.markers.items };
}

impl KeptRecorders {
    /// No process recorded anything. It takes no memory.
    pub(crate) fn none(alloc: Global) -> KeptRecorders
        ensures { result ≡ [] }
    {
        KeptRecorders {
            receivers: 0,
            markers: Vec::new(alloc),
        }
    }

    /// What each of these processes recorded. It takes no memory.
    pub(crate) fn of(markers: Vec<Recorder>) -> KeptRecorders
        ensures { result ≡ markers.items }
    {
        let mut receivers = 0u64;
        'each: for i in 0..markers.len() {
            receivers |= 1 << (markers[i].me().get() % 64);
        }
        KeptRecorders { receivers, markers }
    }

    /// What process `to` recorded of the channel from process `from` in a round; nothing if it is
    /// not among these.
    ///
    /// It takes constant time if no process with the bit of `to` is among them, or if `to` and each
    /// process before it are. Else it searches for the process by halves.
    #[inline(always)]
    pub(crate) fn names(&self, round: u32, from: ProcId, to: ProcId) -> &[MsgName]
        requires from { All (λ (marker : MarkerView). from < marker.n) self.now }
        requires ascend { AreByProcess self.now }
        ensures { result.now ≡ kept_channel self.now round from to }
    {
        if (self.receivers >> (to.get() % 64)) & 1 == 0 {
            return &[];
        }
        self.recorded(round, from, to)
    }

    /// What `names` answers. It looks first where the process stands if each one before it is among
    /// these.
    // What lists the channels of a round asks each of them, and most hold nothing: a call here
    // keeps the rest out of its loop.
    #[inline(never)]
    fn recorded(&self, round: u32, from: ProcId, to: ProcId) -> &[MsgName]
        requires from { All (λ (marker : MarkerView). from < marker.n) self.now }
        requires ascend { AreByProcess self.now }
        ensures { result.now ≡ kept_channel self.now round from to }
    {
        if let Some(own) = self.markers.get(to.get() as usize) {
            if own.me().get() == to.get() {
                return own.names(from, round);
            }
        }
        searched(&self.markers, round, from, to)
    }
}

/// What process `to` recorded of the channel from process `from` in a round; nothing if it is not
/// among these. It searches for the process by halves.
fn searched(markers: &[Recorder], round: u32, from: ProcId, to: ProcId) -> &[MsgName]
    requires from { All (λ (marker : MarkerView). from < marker.n) markers.now }
    requires ascend { AreByProcess markers.now }
    ensures { result.now ≡ kept_channel markers.now round from to }
{
    let place = markers.partition_point(|marker| marker.me().get() < to.get());
    match markers.get(place) {
        Some(marker) => {
            if marker.me().get() == to.get() {
                marker.names(from, round)
            } else {
                &[]
            }
        }
        None => &[],
    }
}
