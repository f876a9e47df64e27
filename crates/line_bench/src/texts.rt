//! Scripts that are put together to be run.

use crate::dice::Dice;
use itoa::Buffer;
use std::alloc::{AllocError, Global};

/// A text of records.
#[derive(Drop)]
pub struct Text {
    bytes: Vec<u8>,
    decimal: Buffer,
}

/// The eight hexadecimal digits of half a word.
fn digits_of(half: u32) -> [u8; 8] {
    let pairs = u64::from(half);
    let pairs = (pairs | (pairs << 16)) & 0x0000_FFFF_0000_FFFF;
    let pairs = (pairs | (pairs << 8)) & 0x00FF_00FF_00FF_00FF;
    let values = (pairs | (pairs << 4)) & 0x0F0F_0F0F_0F0F_0F0F;
    let letters = (values.wrapping_add(0x0606_0606_0606_0606) >> 4) & 0x0101_0101_0101_0101;
    let digits = values.wrapping_add(0x3030_3030_3030_3030);
    digits.wrapping_add(letters.wrapping_mul(39)).to_le_bytes()
}

impl Text {
    /// A text without records.
    pub fn new(alloc: Global) -> Text {
        Text {
            bytes: Vec::new(alloc),
            decimal: Buffer::new(),
        }
    }

    /// The bytes of the text.
    pub fn into_bytes(self) -> Vec<u8> {
        self.bytes
    }

    /// Begins a record.
    pub fn name(&mut self, name: &str) -> Result<(), AllocError> {
        self.bytes.extend_from_slice(name.as_bytes())
    }

    /// Adds a field that is a number of more than two digits.
    #[inline(never)]
    fn great_number(&mut self, number: u32) -> Result<(), AllocError> {
        self.bytes.extend_from_slice(b",")?;
        let digits = self.decimal.format(number);
        self.bytes.extend_from_slice(digits.as_bytes())
    }

    /// Adds a field that is a number.
    pub fn number(&mut self, number: u32) -> Result<(), AllocError> {
        if number < 10 {
            return self.bytes.extend_from_slice(&[b',', b'0' + number as u8]);
        }
        if number < 100 {
            let tens = b'0' + (number / 10) as u8;
            let units = b'0' + (number % 10) as u8;
            return self.bytes.extend_from_slice(&[b',', tens, units]);
        }
        self.great_number(number)
    }

    /// Adds a field of four times so many random bytes, in hexadecimal.
    pub fn hex(&mut self, dice: &mut Dice, count: u32) -> Result<(), AllocError> {
        self.bytes.extend_from_slice(b",")?;
        for _half in 0..count {
            let digits = digits_of((dice.word() >> 32) as u32);
            self.bytes.extend_from_slice(&digits)?;
        }
        Ok(())
    }

    /// Ends a record.
    pub fn end(&mut self) -> Result<(), AllocError> {
        self.bytes.extend_from_slice(b"\n")
    }

    /// A record of numbers.
    pub fn record(&mut self, name: &str, numbers: &[u32]) -> Result<(), AllocError> {
        self.name(name)?;
        for number in numbers {
            self.number(*number)?;
        }
        self.end()
    }

    /// The first record of a script.
    pub fn world(&mut self, n: u32, mode: &str) -> Result<(), AllocError> {
        self.name("world,1")?;
        self.number(n)?;
        self.name(",")?;
        self.name(mode)?;
        self.end()
    }

    /// A message of four times so many random bytes.
    pub fn send(
        &mut self,
        dice: &mut Dice,
        from: u32,
        to: u32,
        count: u32,
    ) -> Result<(), AllocError> {
        self.name("send")?;
        self.number(from)?;
        self.number(to)?;
        self.hex(dice, count)?;
        self.end()
    }

    /// A delivery, with a state of four times so many random bytes.
    pub fn deliver(
        &mut self,
        dice: &mut Dice,
        from: u32,
        to: u32,
        place: u32,
        count: u32,
    ) -> Result<(), AllocError> {
        self.name("deliver")?;
        self.number(from)?;
        self.number(to)?;
        self.number(place)?;
        self.hex(dice, count)?;
        self.end()
    }

    /// A check, the begin of a round or a turn, with a state of four times so many random bytes.
    pub fn state(
        &mut self,
        name: &str,
        dice: &mut Dice,
        p: u32,
        count: u32,
    ) -> Result<(), AllocError> {
        self.name(name)?;
        self.number(p)?;
        self.hex(dice, count)?;
        self.end()
    }
}
