//! Sessions of many users, each user's in a budget of bytes of their own, behind lines of text.
#![tactic(auto)]

ghost use Rattle.std.specs.Prelude.{◌<◌, length};

mod commands;
mod sessions;

use bounded_lines::{Line, Pieces};
use commands::{Request, request_in};
use fc_budget::Budget;
use sessions::Sessions;
use std::alloc::Global;
use std::io;

/// The longest line, in bytes.
const LONGEST: usize = 80;

/// How many bytes the sessions of one user may take.
const BYTES: usize = 2000;

fn main(rt: HostRuntime) -> io::Result<()> {
    let budgets = [
        Budget::new(rt.alloc(), BYTES),
        Budget::new(rt.alloc(), BYTES),
        Budget::new(rt.alloc(), BYTES),
    ];
    serve(&rt, &budgets)
}

// Answers each line. The table of users takes memory once, at the start; after that the sessions alone do, each in its user's budget.
fn serve(rt: &(impl Input + Print + AllocGlobal), budgets: &[Budget<Global>]) -> io::Result<()> {
    let Ok(mut sessions) = Sessions::try_new(rt.alloc(), budgets) else {
        return println!(rt; "out of memory");
    };
    let mut line = Line::<LONGEST>::new();
    let mut source = Pieces::new(rt.reader());
    for _ in 0..u64::MAX {
        if !line.read(&mut source)? {
            break;
        }
        answer(rt, &mut sessions, &line)?;
    }
    Ok(())
}

fn answer(rt: &impl Print, sessions: &mut Sessions<'_>, line: &Line<LONGEST>) -> io::Result<()> {
    let Some(text) = line.text() else {
        return println!(rt; "error: a line is text of at most {LONGEST} bytes");
    };
    let Some((user, request)) = request_in(text) else {
        return println!(rt; "error: not a command");
    };
    if user >= sessions.users() {
        return println!(rt; "error: there is no user {user}");
    }
    match request {
        Request::Open(token, now) => open(rt, sessions, user, token, now),
        Request::Seen(token) => match sessions.seen(user, token) {
            Some(then) => println!(rt; "last seen at {then}"),
            None => println!(rt; "not open"),
        },
        Request::Close(token) => match sessions.close(user, token) {
            Some(then) => println!(rt; "closed, last seen at {then}"),
            None => println!(rt; "not open"),
        },
        Request::Expire(time) => {
            sessions.expire(user, time);
            count(rt, sessions, user)
        }
        Request::Count => count(rt, sessions, user),
    }
}

fn open(
    rt: &impl Print,
    sessions: &mut Sessions<'_>,
    user: usize,
    token: u64,
    now: u64,
) -> io::Result<()>
    requires { user < length sessions.old }
{
    match sessions.open(user, token, now) {
        Ok(None) => println!(rt; "opened"),
        Ok(Some(then)) => println!(rt; "open, last seen at {then}"),
        Err(_refused) => {
            let (used, cap) = (sessions.budget(user).used(), sessions.budget(user).cap());
            println!(rt; "out of memory: user {user} has taken {used} of {cap} bytes")
        }
    }
}

fn count(rt: &impl Print, sessions: &Sessions<'_>, user: usize) -> io::Result<()>
    requires { user < length sessions.now }
{
    let count = sessions.count(user);
    let (used, cap) = (sessions.budget(user).used(), sessions.budget(user).cap());
    println!(rt; "{count} sessions in {used} of {cap} bytes")
}
