//! Keys and values that are made of numbers.
use fc_base::TryReserveError;
use std::alloc::Global;

/// A type of keys.
pub trait Key: Ord + Drop {
    /// The key of a number; a text begins with `beginning`.
    fn of(alloc: Global, beginning: &str, number: u64) -> Result<Self, TryReserveError>
    where
        Self: Sized;

    /// What a value is made of.
    fn number(&self) -> u64;
}

impl Key for u64 {
    fn of(_alloc: Global, _beginning: &str, number: u64) -> Result<Self, TryReserveError> {
        Ok(number)
    }

    fn number(&self) -> u64 {
        *self
    }
}

// Many keys have the first number in common.
impl Key for (u64, u64) {
    fn of(_alloc: Global, _beginning: &str, number: u64) -> Result<Self, TryReserveError> {
        Ok((number % 16, number))
    }

    fn number(&self) -> u64 {
        self.1
    }
}

// Thirteen letters after the beginning.
impl Key for String {
    fn of(alloc: Global, beginning: &str, number: u64) -> Result<Self, TryReserveError> {
        let mut text = String::with_capacity(alloc, 64)?;
        text.push_str(beginning)?;
        let mut left = number;
        for _ in 0..13 {
            text.push(char::from(97u8.wrapping_add((left % 26) as u8)))?;
            left /= 26;
        }
        Ok(text)
    }

    fn number(&self) -> u64 {
        match self.as_bytes().last() {
            Some(letter) => u64::from(*letter),
            None => 0,
        }
    }
}

/// A type of values.
pub trait Value: Drop {
    /// The value of a number.
    fn of(number: u64) -> Self
    where
        Self: Sized;

    /// What is told of it.
    fn number(&self) -> u64;
}

impl Value for () {
    fn of(_number: u64) -> () {}

    fn number(&self) -> u64 {
        0
    }
}

impl Value for u64 {
    fn of(number: u64) -> u64 {
        number
    }

    fn number(&self) -> u64 {
        *self
    }
}

impl Value for [u64; 8] {
    fn of(number: u64) -> [u64; 8] {
        [number; 8]
    }

    fn number(&self) -> u64 {
        self[7]
    }
}

impl Value for [u64; 32] {
    fn of(number: u64) -> [u64; 32] {
        [number; 32]
    }

    fn number(&self) -> u64 {
        self[31]
    }
}
