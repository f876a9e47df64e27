//! A guess of where the receipt of a number stands: interpolation search.
ghost use Rattle.std.specs.Prelude.{◌≡◌, ◌≢◌, ◌<◌, ◌≤◌, ◌-◌, length};
ghost use Rattle.line_tape.specs.Noted.{AreChained, IsWayBack, name_at, name_of_receipt};

use super::chains::Receipt;

/// How many receipts a guess looks at: two lines of the cache, or three.
const LOOKS: u32 = 8;

/// So many times a part of a whole.
fn share(times: u32, part: u32, whole: u32) -> u32
    requires part { part ≤ whole }
    ensures { result ≤ times }
{
    (u64::from(times) * u64::from(part) / (u64::from(whole) + 1)) as u32
}

/// The link to the first of a few receipts from a place on that is of the wanted one's sender, has
/// no lower number, and is ahead, as a link that leads back tells; 0 if none is met before the end.
fn met(receipts: &[Receipt], place: u32, end: u32, wanted: &Receipt) -> u32
    requires chained { AreChained receipts.now }
    requires within { end ≤ length receipts.now }
    ensures { result ≢ 0 → IsWayBack receipts.now (name_of_receipt wanted.now) result }
{
    for before in place..end.min(place.saturating_add(LOOKS)) {
        let receipt = receipts[before as usize];
        if receipt.from != wanted.from || receipt.number < wanted.number {
            continue;
        }
        if receipt.near != 0 && receipt.near <= before {
            return before + 1;
        }
    }
    0
}

/// Where the search for a number begins that is not above that of the last receipt: at a receipt of
/// the sender after which none of the number comes.
///
/// Where a sender's numbers come evenly, that is the receipt of the number itself, which stands
/// among all receipts by proportion (interpolation search: Perl, Itai and Avni, Communications of
/// the ACM 21(7), 1978). Where the sender's last two receipts are far apart, a guess would seldom
/// meet one, and none is made.
pub fn nearer(receipts: &[Receipt], last: u32, wanted: &Receipt) -> u32
    requires chained { AreChained receipts.now }
    requires way { IsWayBack receipts.now (name_of_receipt wanted.now) last }
    requires some { 0 < last }
    requires low { wanted.now.number ≤ (name_at receipts.now (last - 1)).number }
    ensures { IsWayBack receipts.now (name_of_receipt wanted.now) result }
{
    let end = receipts[last as usize - 1];
    if end.near.saturating_add(LOOKS) < last {
        return last;
    }
    let place = share(last, wanted.number, end.number);
    let link = met(receipts, place, last, wanted);
    if link == 0 {
        return last;
    }
    link
}
