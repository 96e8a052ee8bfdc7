//! Lines of text as commands.

use bounded_lines::number;

/// What is asked about a user.
#[derive(Clone, Copy)]
pub enum Request {
    /// The session of this token is used now.
    Open(u64, u64),
    /// When the session of this token was last used.
    Seen(u64),
    /// The session of this token ends.
    Close(u64),
    /// The sessions that were last used before this time end.
    Expire(u64),
    /// How many sessions are open, and the bytes that they take.
    Count,
}

/// The user and what is asked about them, in words with white space between, or `None`.
pub fn request_in(line: &str) -> Option<(usize, Request)> {
    let mut words = line.split_whitespace();
    let name = words.next()?;
    let user = number(words.next()?)? as usize;
    let request = match name {
        "open" => Request::Open(number(words.next()?)?, number(words.next()?)?),
        "seen" => Request::Seen(number(words.next()?)?),
        "close" => Request::Close(number(words.next()?)?),
        "expire" => Request::Expire(number(words.next()?)?),
        "count" => Request::Count,
        _ => return None,
    };
    match words.next() {
        None => Some((user, request)),
        Some(_) => None,
    }
}
