//! A book of orders behind lines of text.
#![tactic(auto)]

mod book;
mod commands;
mod ladder;

use book::{Book, NotPlaced, Side};
use bounded_lines::{Line, Pieces};
use commands::{Command, command_in};
use ladder::Fill;
use std::io;

/// The longest line, in bytes.
const LONGEST: usize = 80;

fn main(rt: HostRuntime) -> io::Result<()> {
    serve(&rt)
}

// Answers each line. The book alone takes memory.
fn serve(rt: &(impl Input + Print + AllocGlobal)) -> io::Result<()> {
    let mut book = Book::new(rt.alloc());
    let mut line = Line::<LONGEST>::new();
    let mut source = Pieces::new(rt.reader());
    for _ in 0..u64::MAX {
        if !line.read(&mut source)? {
            break;
        }
        answer(rt, &mut book, &line)?;
    }
    Ok(())
}

fn answer(rt: &impl Print, book: &mut Book, line: &Line<LONGEST>) -> io::Result<()> {
    let Some(text) = line.text() else {
        return println!(rt; "error: a line is text of at most {LONGEST} bytes");
    };
    match command_in(text) {
        Some(Command::Place(side, price, quantity)) => place(rt, book, side, price, quantity),
        Some(Command::Cancel(side, price, number)) => match book.cancel(side, price, number) {
            Some(quantity) => println!(rt; "cancelled, {quantity} were left"),
            None => println!(rt; "error: there is no such order"),
        },
        Some(Command::Book) => show(rt, book),
        None => println!(rt; "error: not a command"),
    }
}

// Places an order, and shows each fill and what became of the rest.
fn place(
    rt: &impl Print,
    book: &mut Book,
    side: Side,
    price: u64,
    quantity: u64,
) -> io::Result<()> {
    let mut shown = Ok(());
    let mut tell = |fill: Fill| {
        if shown.is_ok() {
            let (rank, number) = fill.key;
            let price = side.other().price(rank);
            shown = println!(rt; "{} at {price} from {number}", fill.quantity);
        }
    };
    let placed = book.try_place(side, price, quantity, &mut tell);
    shown?;
    match placed {
        Ok(placed) if placed.resting > 0 => println!(rt;
            "{} filled, {} rest as {}",
            placed.filled, placed.resting, placed.number
        ),
        Ok(placed) => println!(rt; "{} filled", placed.filled),
        Err(NotPlaced::NoNumber) => println!(rt; "error: no number is left"),
        Err(NotPlaced::Memory(_why)) => println!(rt; "out of memory: the book is as it was"),
    }
}

fn show(rt: &impl Print, book: &Book) -> io::Result<()> {
    show_side(rt, book, Side::Sell, "sell")?;
    show_side(rt, book, Side::Buy, "buy")
}

fn show_side(rt: &impl Print, book: &Book, side: Side, name: &str) -> io::Result<()> {
    for (key, quantity) in book.iter(side) {
        let price = side.price(key.0);
        println!(rt; "{name} {price} {quantity} as {}", key.1)?;
    }
    Ok(())
}
