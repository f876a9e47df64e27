//! Random settings of generations.

use crate::dice::Dice;

/// What a generation is like. The numbers from `sends` to `yields` are weights: of all calls, each
/// kind has its share of their sum.
#[derive(Clone, Copy)]
pub struct Settings {
    /// How many turns a worker takes that does not fail.
    pub turns: u32,
    /// Whether no worker begins before all have started.
    pub meets: bool,
    /// To how many workers each worker sends: those that come after it by number.
    pub reach: u32,
    pub sends: u32,
    pub receives: u32,
    pub checks: u32,
    pub reports: u32,
    pub sweeps: u32,
    pub begins: u32,
    pub yields: u32,
    /// The greatest length of a state, in bytes.
    pub state: u32,
    /// The greatest length of a body, in bytes.
    pub body: u32,
    /// How many workers fail, of a hundred.
    pub failures: u32,
    /// How often the collector plans after it took reports, of a hundred times.
    pub plans: u32,
    /// How many reports the collector takes at once, at most.
    pub takes: u32,
    /// How many checks are marked as damaged, at most.
    pub damages: u32,
}

/// One of four numbers, at random.
fn one_of(dice: &mut Dice, numbers: [u32; 4]) -> u32 {
    numbers[dice.below(4) as usize]
}

/// A random number of workers.
pub fn workers(dice: &mut Dice) -> u32 {
    let way = dice.below(10);
    if way < 6 {
        return 2 + dice.below(4);
    }
    if way < 9 {
        return 2 + dice.below(15);
    }
    2 + dice.below(63)
}

/// A random number of slots for each ring.
pub fn capacity(dice: &mut Dice) -> usize {
    let most = one_of(dice, [1, 2, 16, 1_024]);
    if most == 0 {
        return 1;
    }
    dice.to(most) as usize
}

/// A random number of turns for each of `n` workers.
fn turns(dice: &mut Dice, n: u32) -> u32 {
    let most = one_of(dice, [20, 100, 300, 900]);
    let most = if n > 16 { most / 2 } else { most };
    if most == 0 {
        return 1;
    }
    dice.to(most)
}

/// Random settings for the next generation of `n` workers.
pub fn next_settings(dice: &mut Dice, n: u32) -> Settings {
    Settings {
        turns: turns(dice, n),
        meets: dice.percent(80),
        reach: if dice.percent(50) {
            n
        } else {
            one_of(dice, [1, 2, 3, 5])
        },
        sends: one_of(dice, [20, 30, 35, 45]),
        receives: one_of(dice, [20, 30, 35, 30]),
        checks: one_of(dice, [2, 5, 10, 15]),
        reports: one_of(dice, [1, 5, 10, 20]),
        sweeps: one_of(dice, [0, 2, 5, 15]),
        begins: one_of(dice, [0, 2, 5, 10]),
        yields: one_of(dice, [0, 2, 10, 40]),
        state: one_of(dice, [0, 1, 8, 200]),
        body: one_of(dice, [0, 1, 8, 64]),
        failures: one_of(dice, [0, 20, 50, 100]),
        plans: one_of(dice, [5, 20, 50, 100]),
        takes: one_of(dice, [1, 7, 64, 1_000_000]),
        damages: one_of(dice, [0, 0, 2, 5]),
    }
}
