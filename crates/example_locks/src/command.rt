//! The commands that lines spell.

use bounded_lines::{Line, number};

/// What a line asks for: the first byte of a range, the first after it, and an owner.
#[derive(Clone, Copy)]
pub enum Command {
    Lock(u64, u64, u64),
    Unlock(u64, u64, u64),
    Test(u64, u64, u64),
    List,
}

/// The command that a line spells: its words stand apart by white space. `None` where it spells none, or is too long.
pub fn parse<const N: usize>(line: &Line<N>) -> Option<Command> {
    let mut words = line.text()?.split_whitespace();
    let name = words.next()?;
    if name == "list" {
        return match words.next() {
            None => Some(Command::List),
            Some(_) => None,
        };
    }
    let (start, end) = (number(words.next()?)?, number(words.next()?)?);
    let owner = number(words.next()?)?;
    if words.next().is_some() {
        return None;
    }
    match name {
        "lock" => Some(Command::Lock(start, end, owner)),
        "unlock" => Some(Command::Unlock(start, end, owner)),
        "test" => Some(Command::Test(start, end, owner)),
        _ => None,
    }
}
