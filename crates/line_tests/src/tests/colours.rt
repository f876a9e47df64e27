//! One process turns to a round.
use line_rounds::{Colour, ColourError};
use std::test::Fail;

#[test]
fn turns_before_it_receives(rt: HostRuntime) -> Result<(), Fail> {
    let mut colour = Colour::new();
    assert_eq!(rt; colour.now(), 0);
    assert_eq!(rt; colour.before_receive(2), Some(2));
    assert_eq!(rt; colour.turn(2), Ok(()));
    assert_eq!(rt; colour.now(), 2);
    assert_eq!(rt; colour.turn(2), Err(ColourError::RoundNotNew));
    assert_eq!(rt; colour.before_receive(2), None);
    assert_eq!(rt; colour.before_receive(1), None);
    Ok(())
}

#[test]
fn refusal_has_its_number(rt: HostRuntime) -> Result<(), Fail> {
    assert_eq!(rt; ColourError::RoundNotNew.code(), 9);
    let words = format!(in rt.alloc(); "{}", ColourError::RoundNotNew)?;
    assert_eq!(rt; words.as_str(), "the round is not greater than those known");
    Ok(())
}
