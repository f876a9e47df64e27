//! The two rules at work, with memory enough.
ghost use Rattle.std.specs.Prelude.{◌≡◌, ◌≢◌, ◌<◌, ◌≤◌, IfOk, OnOk};

use crate::tests::reads;
use line_names::{MsgName, ProcId};
use line_rounds::{BeginError, Effect, Marker, MarkerError};
use std::test::Fail;

/// One of three processes.
fn process(p: u32) -> Result<ProcId, Fail>
    ensures { IfOk result (λ named. (named ≡ p) × (p < 3)) }
{
    Ok(ProcId::try_new(p, 3)?)
}

/// A message of process 1, in its first incarnation.
fn message(number: u32) -> Result<MsgName, Fail>
    ensures { IfOk result (λ message. message.from ≡ 1) }
{
    let from = process(1)?;
    Ok(MsgName {
        from,
        inc: 0,
        number,
    })
}

/// Begins round 1 with room, and then receives a message of another process.
fn begin(marker: &mut Marker, first: MsgName) -> Result<(), Fail>
    requires { (first.from < marker.old.n) × (first.from ≢ marker.old.me) }
    ensures of { OnOk result (marker.new.n ≡ marker.old.n) }
    ensures me { OnOk result (marker.new.me ≡ marker.old.me) }
{
    marker.reserve()?;
    marker.begin(1)?;
    marker.note(first)?;
    Ok(())
}

/// Process 0 of three, with room, has begun round 1 and then received a message of process 1.
fn begun(rt: HostRuntime) -> Result<Marker, Fail>
    ensures of { IfOk result (λ marker. marker.n ≡ 3) }
    ensures me { IfOk result (λ marker. marker.me ≡ 0) }
{
    let me = process(0)?;
    let first = message(0)?;
    let mut marker = Marker::new(rt.alloc(), 3, me, 0)?;
    begin(&mut marker, first)?;
    Ok(marker)
}

#[test]
fn a_number_is_taken_once(rt: HostRuntime) -> Result<(), Fail> {
    let mut marker = begun(rt)?;
    assert!(rt; marker.begin(1) == Err(BeginError::RoundNotNew) && marker.latest() == 1);
    Ok(())
}

/// Whether the marker of a process closes its channel in round 1.
fn closes(marker: &mut Marker, from: ProcId) -> bool
    requires { (from < marker.old.n) × (from ≢ marker.old.me) }
    ensures of { marker.new.n ≡ marker.old.n }
    ensures me { marker.new.me ≡ marker.old.me }
{
    marker.on_marker(from, 1) == Ok(Effect::Closed)
}

/// Whether that channel holds this message alone after the next one came, and has ended.
fn has_ended(marker: &mut Marker, from: ProcId, first: MsgName, second: MsgName) -> bool
    requires { (from < marker.old.n) × (from ≢ marker.old.me) × (second.from ≡ from) }
{
    marker.note(second).is_ok()
        && marker.channel(from, 1) == Some([first].as_slice())
        && marker.on_marker(from, 1) == Err(MarkerError::MarkerRepeated)
}

#[test]
fn a_channel_ends_at_its_marker(rt: HostRuntime) -> Result<(), Fail> {
    let (from, first, second) = (process(1)?, message(0)?, message(1)?);
    let mut marker = begun(rt)?;
    assert!(rt; closes(&mut marker, from));
    assert!(rt; has_ended(&mut marker, from, first, second));
    Ok(())
}

/// What a marker does, and whether round 1 is over then.
type Heard = (Effect, bool);

/// That of a marker of this round.
fn hears(marker: &mut Marker, from: u32, round: u32) -> Result<Heard, Fail>
    requires { (marker.old.n ≡ 3) × (marker.old.me ≡ 0) × (1 ≤ from) × (1 ≤ round) }
    ensures of { OnOk result (marker.new.n ≡ 3) }
    ensures me { OnOk result (marker.new.me ≡ 0) }
{
    let effect = marker.on_marker(process(from)?, round)?;
    Ok((effect, marker.is_closed(1)))
}

/// That of the markers of round 1 of both other processes.
fn hears_both(marker: &mut Marker) -> Result<[Heard; 2], Fail>
    requires { (marker.old.n ≡ 3) × (marker.old.me ≡ 0) }
{
    Ok([hears(marker, 1, 1)?, hears(marker, 2, 1)?])
}

/// The same where round 1 was begun.
fn heard_of_both(rt: HostRuntime) -> Result<[Heard; 2], Fail> {
    let mut marker = begun(rt)?;
    hears_both(&mut marker)
}

#[test]
fn a_round_is_over_with_its_last_marker(rt: HostRuntime) -> Result<(), Fail> {
    let (open, over) = ((Effect::Closed, false), (Effect::Closed, true));
    assert!(rt; heard_of_both(rt)? == [open, over]);
    Ok(())
}

/// Whether the channel of a process in round 3 holds nothing, and there is no round 2.
fn is_third_alone(marker: &Marker, from: ProcId) -> bool
    requires { from < marker.now.n }
{
    let nothing: &[MsgName] = &[];
    marker.channel(from, 3) == Some(nothing) && marker.channel(from, 2).is_none()
}

/// What a marker of round 3 of process 2 does, and then one of round 2 of process 1, and whether
/// round 3 is there alone then.
fn hears_of_the_third(marker: &mut Marker) -> Result<([Heard; 2], bool), Fail>
    requires { (marker.old.n ≡ 3) × (marker.old.me ≡ 0) }
{
    let two = process(2)?;
    let heard = [hears(marker, 2, 3)?, hears(marker, 1, 2)?];
    Ok((heard, is_third_alone(marker, two) && marker.latest() == 3))
}

/// The same where round 1 was begun.
fn heard_of_the_third(rt: HostRuntime) -> Result<([Heard; 2], bool), Fail> {
    let mut marker = begun(rt)?;
    hears_of_the_third(&mut marker)
}

#[test]
fn a_marker_forces_a_round(rt: HostRuntime) -> Result<(), Fail> {
    let (heard, is_alone) = heard_of_the_third(rt)?;
    assert!(rt; heard == [(Effect::Forced, false), (Effect::Ignored, false)]);
    assert!(rt; is_alone);
    Ok(())
}

#[test]
fn refusals_have_their_numbers(rt: HostRuntime) {
    let begin = "the round is not greater than those known";
    assert!(rt; reads(rt.alloc(), BeginError::RoundNotNew, begin));
    let marker = "that channel of that round is closed";
    assert!(rt; reads(rt.alloc(), MarkerError::MarkerRepeated, marker));
    assert!(rt; BeginError::RoundNotNew.code() == 9 && MarkerError::MarkerRepeated.code() == 10);
}
