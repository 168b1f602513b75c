// The program's arguments.
use crate::failing::Failure;
use mounts::Shift;
use std::env::{Env, FillError};
use std::str::FromStr;

// The longest that a number is taken for.
const NUMBER: usize = 16;

// The longest that a word is taken for.
const WORD: usize = 8;

// What is to be done with the file.
#[derive(Clone, Copy)]
pub enum Command {
    Ask { boat: u32, edition: u32 },
    Add { boat: u32, edition: u32, side: u32 },
    List { boat: Option<u32> },
}

fn is_given(rt: &impl Env, i: usize) -> bool {
    !matches!(rt.arg(i, &mut []), Err(FillError::NotPresent))
}

// The place of the last argument, or 6 where there are more.
fn last(rt: &impl Env) -> usize {
    (1..=6usize).take_while(|i| is_given(rt, *i)).count()
}

// Argument i, unless it is missing, longer than the room or no text.
fn text_at<'a>(rt: &impl Env, i: usize, room: &'a mut [u8]) -> Option<&'a str> {
    let len = rt.arg(i, room).ok()?;
    str::from_utf8(&room[..len]).ok()
}

// The number that argument i is.
fn number_at<T: FromStr>(rt: &impl Env, i: usize) -> Option<T>
where
    T::Err: Drop,
{
    let mut room = [0u8; NUMBER];
    let text = text_at(rt, i, &mut room)?;
    // `parse` takes a plus sign, which no number here has.
    if text.starts_with('+') {
        return None;
    }
    text.parse().ok()
}

pub fn is_shift(rt: &impl Env) -> bool {
    text_at(rt, 1, &mut [0u8; WORD]) == Some("shift")
}

// The side and the measured shift.
pub fn shift(rt: &impl Env) -> Option<(u32, Shift)> {
    if last(rt) != 4 {
        return None;
    }
    let side = number_at(rt, 2)?;
    let x = number_at(rt, 3)?;
    let y = number_at(rt, 4)?;
    Some((side, Shift { x, y }))
}

// The name of the file, which is put into the room.
pub fn path<'a>(rt: &impl Env, room: &'a mut [u8]) -> Result<&'a str, Failure> {
    let Ok(len) = rt.arg(1, room) else {
        return Err(Failure::Arguments);
    };
    str::from_utf8(&room[..len]).map_err(|_| Failure::Name)
}

pub fn asked_for(rt: &impl Env) -> Option<Command> {
    let mut room = [0u8; WORD];
    match (text_at(rt, 2, &mut room)?, last(rt)) {
        ("ask", 4) => Some(Command::Ask {
            boat: number_at(rt, 3)?,
            edition: number_at(rt, 4)?,
        }),
        ("add", 5) => Some(Command::Add {
            boat: number_at(rt, 3)?,
            edition: number_at(rt, 4)?,
            side: number_at(rt, 5)?,
        }),
        ("list", 2) => Some(Command::List { boat: None }),
        ("list", 3) => Some(Command::List {
            boat: Some(number_at(rt, 3)?),
        }),
        _ => None,
    }
}
