//! Vectors of eighteen processes, which have two parts: checks share the part that nothing changed.
use line_catalogue::Catalogue;
use line_names::{Body, MsgName, ProcId};
use line_tape::{Event, State};
use line_vectors::ReachRef;
use std::alloc::Global;
use std::test::Fail;

const PROCESSES: u32 = 18;

/// Whether a vector has these lanes.
pub fn has_lanes(reach: &ReachRef<'_>, lanes: &[u32]) -> bool {
    let n = reach.n();
    if lanes.len() != n {
        return false;
    }
    for p in 0..n {
        let lane = reach.lane(ProcId::try_new(p as u32, n as u32).unwrap());
        if lane != lanes[p] {
            return false;
        }
    }
    true
}

/// Whether two vectors have the same lanes.
pub fn are_same_lanes(one: &ReachRef<'_>, other: &ReachRef<'_>) -> bool {
    let n = one.n();
    if other.n() != n {
        return false;
    }
    for q in 0..n {
        let p = ProcId::try_new(q as u32, n as u32).unwrap();
        if one.lane(p) != other.lane(p) {
            return false;
        }
    }
    true
}

/// The first process receives a message of another one, and takes a check.
fn hears(alloc: Global, catalogue: &mut Catalogue, from: u32) -> Result<(), Fail> {
    let to = ProcId::try_new(0, PROCESSES)?;
    let from = ProcId::try_new(from, PROCESSES)?;
    let body = Body::try_new(b"a")?;
    catalogue.add(from, Event::Send { to, inc: 0, body })?;
    let message = MsgName {
        from,
        inc: 0,
        number: 0,
    };
    catalogue.add(to, Event::Recv { message })?;
    let state = State::of(Vec::new(alloc));
    catalogue.add(to, Event::Check { state, round: None })?;
    Ok(())
}

/// The lanes of a vector.
fn lanes_of(alloc: Global, reach: &ReachRef<'_>) -> Result<Vec<u32>, Fail> {
    let n = reach.n();
    let mut lanes = Vec::new(alloc);
    for p in 0..n {
        lanes.push(reach.lane(ProcId::try_new(p as u32, n as u32).unwrap()))?;
    }
    Ok(lanes)
}

/// The lanes of a check of the first process, once it has heard of the last one and then of the
/// second.
fn told(alloc: Global, check: usize) -> Result<Vec<u32>, Fail> {
    let mut catalogue = Catalogue::new(alloc, PROCESSES)?;
    hears(alloc, &mut catalogue, 17)?;
    hears(alloc, &mut catalogue, 1)?;
    let p = ProcId::try_new(0, catalogue.n())?;
    let rows = catalogue.rows(p);
    if check < rows.len() {
        return lanes_of(alloc, &rows.at(check).reach);
    }
    Err(Fail::new("no such check"))
}

#[test]
fn a_check_has_its_own_lanes(rt: HostRuntime) -> Result<(), Fail> {
    let first = [0, 0, 0, 0, 0, 0, 0, 0, 0, 0, 0, 0, 0, 0, 0, 0, 0, 1];
    assert_eq!(rt; told(rt.alloc(), 1)?.as_slice(), first.as_slice());
    Ok(())
}

#[test]
fn a_later_check_shares_the_other_part(rt: HostRuntime) -> Result<(), Fail> {
    let both = [0, 1, 0, 0, 0, 0, 0, 0, 0, 0, 0, 0, 0, 0, 0, 0, 0, 1];
    assert_eq!(rt; told(rt.alloc(), 2)?.as_slice(), both.as_slice());
    Ok(())
}
