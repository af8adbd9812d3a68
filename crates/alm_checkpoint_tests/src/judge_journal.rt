//! The second judge's way through the frames of a segment.

use crate::judge::Sizes;
use crate::numbers::{byte, checksum, first_broken, is_value, number, part, tail};

/// What the frames need of the plant: the attributes in its image, its clock and which alarms are active.
#[derive(Drop)]
pub struct Journal<'a> {
    alarms: &'a [u8],
    sizes: Sizes,
    epoch: u64,
    count: u64,
    now: u64,
    active: [bool; 64],
}

/// A number in two's complement, moved so that -10^12 to 10^12 are in order.
fn moved(number: u64) -> u64 {
    number.wrapping_add(1 << 50)
}

/// Whether the bytes are an action's text.
fn is_action(text: &[u8]) -> bool {
    let argument = number(text, 8, 8);
    let fits = match byte(text, 0) {
        1 => argument < 1 << 40 && number(text, 4, 4) == 0,
        2 => is_value(argument),
        3 | 4 | 6 => argument == 0,
        5 => argument < 1 << 32,
        7 | 8 => argument <= 1,
        _ => false,
    };
    fits && number(text, 1, 3) == 0 && text.len() == 16
}

impl<'a> Journal<'a> {
    pub fn of(image: &'a [u8], sizes: Sizes, epoch: u64, count: u64) -> Self {
        let alarms = tail(image, 16 + 4801 * sizes.areas as usize);
        let mut active = [false; 64];
        for row in 0..64usize {
            active[row] = byte(alarms, 182 * row + 138) == 1;
        }
        Journal {
            alarms,
            sizes,
            epoch,
            count,
            now: number(image, 0, 8),
            active,
        }
    }

    /// Does `VALUE` if it changes the condition of an alarm.
    fn value(&mut self, row: u64, argument: u64) -> bool {
        if row >= self.sizes.rows as u64 || row >= 64 {
            return false;
        }
        let alarm = tail(self.alarms, 182 * row as usize);
        let (setpoint, value) = (moved(number(alarm, 4, 8)), moved(argument));
        let deadband = number(alarm, 12, 8);
        let was = self.active[row as usize];
        let is = match (byte(alarm, 0), was) {
            (1, false) => value >= setpoint,
            (1, true) => value.saturating_add(deadband) >= setpoint,
            (2, false) => value <= setpoint,
            (2, true) => value <= setpoint.saturating_add(deadband),
            _ => value == setpoint,
        };
        self.active[row as usize] = is;
        is != was
    }

    /// Does an action, or says that it isn't admitted.
    fn admits(&mut self, text: &[u8]) -> bool {
        let argument = number(text, 8, 8);
        if self.count >= 1 << 48 {
            return false;
        }
        match byte(text, 0) {
            1 => {
                let later = argument > self.now;
                self.now = argument;
                later
            }
            2 => self.value(number(text, 4, 4), argument),
            _ => false,
        }
    }

    /// The same in version 03.
    fn summed_head(&self, frame: &[u8]) -> Result<u16, usize> {
        let units = number(frame, 13, 2);
        let actions = units / 255;
        let len = actions.saturating_mul(16).saturating_add(20);
        let first = self.count.saturating_add(1) % (1 << 32);
        first_broken(&[
            (frame.len() >= 9 && number(frame, 1, 8) == self.epoch, 1),
            (frame.len() >= 13 && number(frame, 9, 4) == first, 9),
            (
                units % 255 == 0 && actions >= 1 && actions <= 256 && frame.len() as u64 >= len,
                13,
            ),
        ])?;
        let few = if actions <= 256 { actions as u16 } else { 0 };
        let texts = part(frame, 19, 16 * few as usize);
        if number(frame, 15, 4) != checksum(part(frame, 1, 14), texts) {
            return Err(15);
        }
        Ok(few)
    }

    /// How many actions a frame has, whose fields follow its gate.
    fn head(&self, frame: &[u8]) -> Result<u16, usize> {
        if self.sizes.is_summed {
            return self.summed_head(frame);
        }
        let actions = number(frame, 17, 2);
        let len = actions.saturating_mul(16).saturating_add(20);
        first_broken(&[
            (frame.len() >= 9 && number(frame, 1, 8) == self.epoch, 1),
            (
                frame.len() >= 17 && number(frame, 9, 8) == self.count.saturating_add(1),
                9,
            ),
            (
                actions >= 1 && actions <= 256 && frame.len() as u64 >= len,
                17,
            ),
        ])?;
        Ok(if actions <= 256 { actions as u16 } else { 0 })
    }

    /// Does the actions of a frame, and gives its length up to the next gate.
    fn frame(&mut self, frame: &[u8]) -> Result<usize, usize> {
        let actions = self.head(frame)?;
        for action in 0..actions {
            let at = 19 + 16 * action as usize;
            let text = part(frame, at, 16);
            if !is_action(text) || !self.admits(text) {
                return Err(at);
            }
            self.count = self.count.saturating_add(1);
        }
        Ok(19 + 16 * actions as usize)
    }

    /// The count after all frames, and the place of the first closed gate; or the place of the first fault.
    pub fn follow(mut self, segment: &[u8]) -> Result<(u64, usize), usize> {
        let mut at = 0usize;
        for _ in 0..segment.len() {
            if at >= segment.len() {
                return Err(at);
            }
            if !self.sizes.is_open(byte(segment, at)) {
                break;
            }
            match self.frame(tail(segment, at)) {
                Ok(len) => at = at.saturating_add(len),
                Err(place) => return Err(place.saturating_add(at)),
            }
        }
        Ok((self.count, at))
    }
}
