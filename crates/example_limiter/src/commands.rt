//! Lines of text as commands.

use bounded_lines::number;

/// What a line asks for.
#[derive(Clone, Copy)]
pub enum Command {
    /// A request: of which client, and when.
    Allow(u64, u64),
    /// How many requests of this client are kept.
    Count(u64),
}

/// The command that a line is, in words with white space between, or `None`.
pub fn command_in(line: &str) -> Option<Command> {
    let mut words = line.split_whitespace();
    let name = words.next()?;
    let command = if name == "allow" {
        Command::Allow(number(words.next()?)?, number(words.next()?)?)
    } else if name == "count" {
        Command::Count(number(words.next()?)?)
    } else {
        return None;
    };
    match words.next() {
        None => Some(command),
        Some(_) => None,
    }
}
