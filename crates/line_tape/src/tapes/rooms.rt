//! For how much a tape has room.
ghost use Rattle.std.specs.Prelude.{◌≡◌, ◌≤◌, ◌<◌, OnOk, IsOk};

use super::Tape;
use std::alloc::AllocError;

impl Tape {
    /// Makes room for so many further events, and counts anew for how many there is room: as many
    /// as the lists that it counts have room for, whatever the events are.
    #[inline(never)]
    pub(super) fn make_room(&mut self, k: u32) -> Result<(), AllocError>
        requires { 0 < k }
        ensures same { self.new.events ≡ self.old.events }
        ensures ok { OnOk result (k ≤ self.new.room) }
        ensures succeeds { k ≤ self.old.room → IsOk result }
        ensures room { self.old.room ≤ self.new.room }
    {
        let k = k as usize;
        let events = self.log.reserve(k)?;
        self.checks.reserve(k)?;
        self.incarnations.reserve(k)?;
        self.addressees.reserve(k)?;
        let received = self.receipts.reserve(k)?;
        let sent = self.incarnations.capacity() - self.incarnations.len();
        let named = self.addressees.capacity() - self.addressees.len();
        let least = events.min(received).min(sent.min(named));
        self.spare = least.min(u32::MAX as usize) as u32;
        Ok(())
    }
}
