//! Tests of lines that are read off sources which give little at a time, end in a line, fail or are interrupted.
mod reading;
mod words;
