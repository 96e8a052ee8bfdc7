//! Lines of text as commands.

use crate::book::Side;
use bounded_lines::number;

/// What a line asks for.
#[derive(Clone, Copy)]
pub enum Command {
    /// Place an order of this side, price and quantity.
    Place(Side, u64, u64),
    /// Take out the order of this side, price and number.
    Cancel(Side, u64, u64),
    /// Show all orders.
    Book,
}

/// The command that a line is, in words with white space between, or `None`.
pub fn command_in(line: &str) -> Option<Command> {
    let mut words = line.split_whitespace();
    let name = words.next()?;
    let command = if name == "cancel" {
        let side = side(words.next()?)?;
        Command::Cancel(side, number(words.next()?)?, number(words.next()?)?)
    } else if name == "book" {
        Command::Book
    } else {
        let side = side(name)?;
        Command::Place(side, number(words.next()?)?, number(words.next()?)?)
    };
    match words.next() {
        None => Some(command),
        Some(_) => None,
    }
}

fn side(word: &str) -> Option<Side> {
    match word {
        "buy" => Some(Side::Buy),
        "sell" => Some(Side::Sell),
        _ => None,
    }
}
