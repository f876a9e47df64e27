//! What vectors answer of messages that are noted one by one.
ghost use Rattle.std.specs.Prelude.{◌≡◌, ◌<◌, length, IfOk};

use line_names::{MsgName, ProcId};
use line_vectors::{Reach, ReachRef, Sent};
use std::alloc::{AllocError, Global};
use std::test::Fail;

/// One of two processes.
fn process(p: u32) -> ProcId
    requires { p < 2 }
    ensures { result ≡ p }
{
    ProcId::try_new(p, 2).unwrap()
}

/// Notes the message of that number of a process, in its first incarnation.
fn note(reach: &mut Reach, p: u32, number: u32)
    requires process { p < 2 }
    requires lanes { length reach.old ≡ 2 }
    requires number { number < 9 }
    ensures { length reach.new ≡ 2 }
{
    reach.note(&MsgName {
        from: process(p),
        inc: 0,
        number,
    });
}

/// Messages 3 and 1 of the first process are noted.
fn noted(alloc: Global) -> Result<Reach, AllocError>
    ensures { IfOk result (λ reach. length reach ≡ 2) }
{
    let mut reach = Reach::new(alloc, 2)?;
    note(&mut reach, 0, 3);
    note(&mut reach, 0, 1);
    Ok(reach)
}

/// Message 0 of the first process and message 1 of the second are noted.
fn noted_of_both(alloc: Global) -> Result<Reach, AllocError>
    ensures { IfOk result (λ reach. length reach ≡ 2) }
{
    let mut reach = Reach::new(alloc, 2)?;
    note(&mut reach, 0, 0);
    note(&mut reach, 1, 1);
    Ok(reach)
}

/// So many sends of each of two processes.
fn sends(alloc: Global, first: u32, second: u32) -> Result<Sent, AllocError>
    ensures { IfOk result (λ sent. length sent ≡ 2) }
{
    let mut sent = Sent::new(alloc, 2)?;
    sent.set(process(0), first);
    sent.set(process(1), second);
    Ok(sent)
}

/// What a vector says of the sends before a line: whether it fits them, the first process that it
/// is beyond, and how many these are.
fn told(reach: &Reach, sent: &Sent) -> (bool, Option<ProcId>, usize)
    requires lanes { length reach.now ≡ 2 }
    requires sends { length sent.now ≡ 2 }
{
    (
        reach.fits(sent),
        reach.first_beyond(sent),
        reach.beyond(sent),
    )
}

#[test]
fn notes_the_greatest_number(rt: HostRuntime) -> Result<(), Fail> {
    let reach = noted(rt.alloc())?;
    assert_eq!(rt; (reach.lane(process(0)), reach.lane(process(1))), (4, 0));
    Ok(())
}

#[test]
fn fits_as_many_sends(rt: HostRuntime) -> Result<(), Fail> {
    let reach = noted(rt.alloc())?;
    let sent = sends(rt.alloc(), 4, 0)?;
    assert_eq!(rt; told(&reach, &sent), (true, None, 0));
    Ok(())
}

#[test]
fn is_beyond_fewer_sends(rt: HostRuntime) -> Result<(), Fail> {
    let reach = noted(rt.alloc())?;
    let sent = sends(rt.alloc(), 3, 9)?;
    assert_eq!(rt; told(&reach, &sent), (false, Some(process(0)), 1));
    Ok(())
}

#[test]
fn tells_the_sends(rt: HostRuntime) -> Result<(), Fail> {
    let sent = sends(rt.alloc(), 3, 9)?;
    assert_eq!(rt; sent.counts(), [3, 9].as_slice());
    Ok(())
}

/// The lanes of the first vector, once the second was merged into it.
fn merged(alloc: Global) -> Result<(u32, u32), AllocError> {
    let mut reach = noted(alloc)?;
    reach.merge(&noted_of_both(alloc)?);
    match reach.lanes() {
        [first, second] => Ok((*first, *second)),
        _ => Ok((0, 0)),
    }
}

#[test]
fn merges_another(rt: HostRuntime) -> Result<(), Fail> {
    assert_eq!(rt; merged(rt.alloc())?, (4, 2));
    Ok(())
}

#[test]
fn notes_of_both(rt: HostRuntime) -> Result<(), Fail> {
    let reach = noted_of_both(rt.alloc())?;
    assert_eq!(rt; reach.lanes(), [1, 2].as_slice());
    Ok(())
}

/// Another vector once a copy of this one was put in its place.
fn set_to_copy(alloc: Global, reach: &Reach) -> Result<Reach, AllocError>
    requires { length reach.now ≡ 2 }
{
    let mut other = noted_of_both(alloc)?;
    other.set_to(&reach.copy()?);
    Ok(other)
}

#[test]
fn copies_and_is_set(rt: HostRuntime) -> Result<(), Fail> {
    let reach = noted(rt.alloc())?;
    let other = set_to_copy(rt.alloc(), &reach)?;
    assert_eq!(rt; other.lanes(), reach.lanes());
    Ok(())
}

/// Lanes that are lent.
const LANES: [u32; 3] = [7, 4, 2];

/// What the last two of these lanes say of four sends of the first process, and none of the second:
/// both lanes, whether they fit, the first process that they are beyond, and how many these are.
fn told_lent(alloc: Global) -> Result<(u32, u32, bool, Option<ProcId>, usize), AllocError> {
    let sent = sends(alloc, 4, 0)?;
    let lent = ReachRef::of(&LANES[1..]);
    Ok((
        lent.lane(process(0)),
        lent.lane(process(1)),
        lent.fits(&sent),
        lent.first_beyond(&sent),
        lent.beyond(&sent),
    ))
}

#[test]
fn lends_lanes(rt: HostRuntime) -> Result<(), Fail> {
    let told = told_lent(rt.alloc())?;
    assert_eq!(rt; told, (4, 2, false, Some(process(1)), 1));
    Ok(())
}

#[test]
fn is_set_to_lent_lanes(rt: HostRuntime) -> Result<(), Fail> {
    let mut reach = Reach::new(rt.alloc(), 2)?;
    reach.set_to_lent(&ReachRef::of(&LANES[1..]));
    assert_eq!(rt; (reach.n(), reach.lanes()), (2, [4, 2].as_slice()));
    Ok(())
}
